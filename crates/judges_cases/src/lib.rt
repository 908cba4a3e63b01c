//! Tests of the visitors that judge rows.
#![tactic(auto)]

#[cfg(test)]
mod cases;
