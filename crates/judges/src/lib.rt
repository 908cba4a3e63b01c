//! Visitors that judge a row by a bound filter.
#![tactic(auto)]

pub mod answers;
pub mod evaluator;
pub mod found;
pub mod page;
pub mod three_valued;
pub mod verdicts;
