//! The keep-first list: of elements that are equal the first is kept, in a table that the caller lends.
#![tactic(auto)]

pub mod list;
pub mod numbers;
mod offers;
mod picks;
pub mod policy;
