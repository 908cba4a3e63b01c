//! The commands of the office console, as they are typed.
#![tactic(auto)]

pub mod command;
pub mod operators;

pub use lines::parse;

mod arguments;
mod lines;
mod reader;
