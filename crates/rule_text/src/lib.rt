//! Conditions as texts: what a text says, and how a condition is written.
#![tactic(auto)]

mod coming;
mod fault;
mod laws;
mod lexer;
mod numbers;
mod outline;
mod printer;
mod quoted;
mod reader;
mod stop;
mod symbols;
mod tokens;
mod words;

pub use fault::ReadFault;
pub use laws::{print_is_text, readable_prints, text_has_one_condition, text_is_readable};
pub use printer::print;
pub use reader::read;
