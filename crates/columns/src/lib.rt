//! Bound columns: what a condition tests once its column's name is bound to a field.
#![tactic(auto)]

pub mod column;
pub mod runs;
