//! Worked scripts with their transcripts, each run as the program runs it, the examples of the language's page among them. There is
//! no code here but tests.
#![tactic(auto)]

#[cfg(test)]
mod edges;
#[cfg(test)]
mod nesting;
#[cfg(test)]
mod page;
#[cfg(test)]
mod removing;
#[cfg(test)]
mod rewriting;
#[cfg(test)]
mod row;
#[cfg(test)]
mod run;
#[cfg(test)]
mod scripts;
#[cfg(test)]
mod statuses;
#[cfg(test)]
mod throwing;
