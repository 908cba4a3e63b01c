//! Filters as trees: wordings, what a visitor answers to them, runs of calls with the ledger beside them,
//! and filters laid out in a table. Definitions and lemmas for the crates above; no code.
#![tactic(auto)]
