//! The cells of a script, and the tokens of a cell with its first lexical fault, as `script_text` and `syntax` define them. A token
//! is a span of the cell's bytes and a kind, among them the signs of `case_table`.
#![tactic(auto)]

mod classes;
mod cut;
mod fault;
mod leaves;
mod lexer;
mod longer;
mod scanner;
mod spelled;
#[cfg(test)]
mod tests;
mod token;

pub use cut::{Span, Spans, cells};
pub use fault::LexFault;
pub use lexer::lex;
pub use spelled::names_of;
pub use token::{Kind, Lexed, Token, Tokens};
