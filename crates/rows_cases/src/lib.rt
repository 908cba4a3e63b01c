//! Cases of the lookup in a row of cells: each way to each answer, and the boundaries.
#![tactic(auto)]

#[cfg(test)]
mod cases;
