//! The worked examples of the rules: proved of the definitions, and run on the code.
#![tactic(auto)]

pub mod examples;
