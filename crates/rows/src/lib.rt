//! Rows: what a column's accessor, its places from the top and its kind, reaches in a row.
#![tactic(auto)]

pub mod cell_row;
pub mod cells;
pub mod row;
