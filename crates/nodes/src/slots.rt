// The nodes of filters, each with its mark.
use crate::operators::PredicateOperator;

// Some of a table's cells, one after another.
#[derive(Clone, Copy)]
pub struct Run {
    pub start: u16,
    pub count: u16,
}

// A node; inputs are the numbers of other nodes, literals those of the table of literals.
#[derive(Clone, Copy)]
pub enum Node<T> {
    AlwaysTrue,
    AlwaysFalse,
    And(u16, u16),
    Or(u16, u16),
    Not(u16),
    Unary(PredicateOperator, T),
    Binary(PredicateOperator, T, u16),
    Set(PredicateOperator, T, Run),
}

#[derive(Clone, Copy, PartialEq, Eq)]
pub enum Mark {
    // a filter
    Standing,
    // part of another
    Joined,
    Struck,
}

#[derive(Clone, Copy)]
pub struct Slot<T> {
    pub node: Node<T>,
    pub mark: Mark,
}
