//! The order of floating numbers: totalOrder of IEEE 754, with one positive not-a-number.
#![tactic(auto)]

pub mod double;
pub mod order;
pub mod single;
