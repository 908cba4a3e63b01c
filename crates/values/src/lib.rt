//! Values: kinds, literals, their equality, order and conversion, and the refusals of every layer.
#![tactic(auto)]

pub mod admission;
pub mod kinds;
pub mod literals;
pub mod refusals;
