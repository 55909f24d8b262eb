//! The input form of an expression, with parentheses where levels ask for them, and what an Out line shows of a value. Levels come
//! from `operator_levels`; strings and integers are written as `show_form` writes them.
#![tactic(auto)]

mod form;
mod input_form;
mod row_shape;
mod shape;
mod value;

pub use input_form::input;
pub use value::value_text;

#[cfg(test)]
mod tests;
