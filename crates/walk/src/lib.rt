//! Walks over bound filters: one for every visitor, with a stack of its own in a table that the caller lends.
#![tactic(auto)]

pub mod conditions;
pub mod faults;
pub mod frames;
pub mod visitor;
pub mod walks;
