//! The journal's text: the line of each entry, with its number, its kernel's number and its event. Expressions, symbols and strings are
//! written by `show_form`. The line of one entry and those of a list need no book; those of a book's journal are written as
//! `master_core` gives its entries out, one by one.
#![tactic(auto)]

mod event;
mod line;
mod parts;

pub use line::{entries_text, entry_line, journal_text, put_entry};

#[cfg(test)]
mod tests;
