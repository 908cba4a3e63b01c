//! Schemas: tables of fields, their check, lookups by full name, and accessors.
#![tactic(auto)]

pub mod accessor;
pub mod check;
pub mod fields;
mod lines;
pub mod lookups;
pub mod mandatory;
mod names;
pub mod paths;
mod policy;
