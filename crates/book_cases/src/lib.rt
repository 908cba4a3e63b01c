//! Cases of the book: the joins, negations and rewritings that the genuine crate documents and the worked examples, every
//! way in which tables are unsound, and the refusals with what they leave.
#![tactic(auto)]

#[cfg(test)]
mod calls;
#[cfg(test)]
mod refusals;
#[cfg(test)]
mod soundness;
#[cfg(test)]
mod tables;
