//! Filters as nodes of a table: operators, nodes with their marks, and whether tables are sound.
#![tactic(auto)]

pub mod operators;
pub mod slots;
pub mod sound;
pub mod term;
