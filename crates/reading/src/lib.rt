//! How the office console's lines are read: words, numbers, kinds and literals.
#![tactic(auto)]

pub mod kinds;
pub mod literals;
pub mod numbers;
pub mod words;
