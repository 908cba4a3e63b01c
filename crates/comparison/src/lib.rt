//! When two values are equal, and which comes first.
#![tactic(auto)]

pub mod checked;
pub mod data;
pub mod text;
