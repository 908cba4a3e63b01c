//! A literal brought to the kind of the column that it is compared with.
#![tactic(auto)]

pub mod checked;
pub mod convert;
