//! The words of the command line, and the commands that they make.
//!
//! A command is described by one row of a table: its words, what it claims, and how it may end. What the words behind a command's name are
//! is read once, by the command's row, and one function makes the command of it.
#![tactic(auto)]

mod arguments;
pub mod commands;
mod making;
mod numbers;
mod reading;
mod request;
pub mod rows;
mod values;

pub use request::Request;
pub use values::Format;
