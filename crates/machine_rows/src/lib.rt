//! Every machine of the evaluator as one, `Machine`, with one step over the definitions: the machines of control and scoping, of rules,
//! iterators and changes, and of the rows that throw, catch or are those of the mode table, each brought to the moves of
//! `machine_steps`.
#![tactic(auto)]

mod block_row;
mod control_row;
mod machine;
mod module_row;
mod other_rows;
mod results;
mod rule_trial;
mod scoped;
#[cfg(test)]
mod tests;
mod with_row;

pub use block_row::BlockRow;
pub use machine::Machine;
pub use module_row::ModuleRow;
