//! The book of filters: laying, joining, negating and rewriting them in lent tables.
#![tactic(auto)]

pub mod book;
mod edits;
pub mod equality;
