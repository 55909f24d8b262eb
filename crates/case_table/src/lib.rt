//! The tables of the names that the language has from the start: the built-in table with its attributes, and the operators and
//! brackets. Each is written once, by one macro, as the code's rows and as what their contracts compare with the definitions of
//! `semantics` and `syntax`.
#![tactic(auto)]

mod builtin_table;
mod laws;
mod operator_table;
mod sign;
mod table;
#[cfg(test)]
mod tests;

pub use builtin_table::{BUILTINS, builtins, name_of};
pub use laws::{built_in_names_differ, operators_differ};
pub use operator_table::{OPERATORS, operators};
pub use semantics::Builtin;
pub use sign::Sign;
pub use table::{CaseTable, Code, Row};
