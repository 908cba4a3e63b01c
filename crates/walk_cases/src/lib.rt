//! Cases of the walk: each refusal, the order in which a visitor is asked, and the boundaries.
#![tactic(auto)]

#[cfg(test)]
mod cases;
