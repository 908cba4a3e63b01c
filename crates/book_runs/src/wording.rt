// Filters as the ledger on paper has them. What is true of them is asked under 64 assignments at once, a bit for each.
use crate::chance::mixed;

// A condition: the places of its column, operator and literals.
#[derive(Clone, Drop)]
pub struct Condition {
    pub column: usize,
    pub operator: usize,
    pub kept: Vec<usize>,
}

#[derive(Clone, Copy, PartialEq, Eq)]
pub enum Connective {
    And,
    Or,
}

#[derive(Drop)]
pub enum Wording {
    Constant(bool),
    Condition(Condition),
    Join(Connective, Box<Wording>, Box<Wording>),
    Not(Box<Wording>),
}

// Where a condition on the column is true, by an operator or its opposite.
pub fn on_column(column: usize, operator: usize) -> u64 {
    mixed((column as u64).wrapping_mul(256) ^ (operator as u64 / 2))
}

// The same with one literal more.
pub fn with_literal(truth: u64, literal: usize) -> u64 {
    mixed(truth.wrapping_add(literal as u64))
}

// The same by the operator itself: what one says, its opposite denies.
pub fn by_operator(truth: u64, operator: usize) -> u64 {
    if operator % 2 == 0 { truth } else { !truth }
}

pub fn of_constant(value: bool) -> u64 {
    if value { u64::MAX } else { 0 }
}

impl Condition {
    pub fn truth(&self) -> u64 {
        let mut truth = on_column(self.column, self.operator);
        for literal in self.kept.as_slice() {
            truth = with_literal(truth, *literal);
        }
        by_operator(truth, self.operator)
    }

    // Makes the condition say the opposite.
    pub fn turn(&mut self) {
        self.operator ^= 1;
    }
}

impl Connective {
    pub fn joined(self, left: u64, right: u64) -> u64 {
        match self {
            Connective::And => left & right,
            Connective::Or => left | right,
        }
    }

    pub fn exchanged(self) -> Connective {
        match self {
            Connective::And => Connective::Or,
            Connective::Or => Connective::And,
        }
    }

    // The constant that an input of this kind makes of the whole.
    pub fn decisive(self) -> bool {
        self == Connective::Or
    }
}

impl Wording {
    pub fn truth(&self) -> u64 {
        match self {
            Wording::Constant(value) => of_constant(*value),
            Wording::Condition(condition) => condition.truth(),
            Wording::Join(connective, left, right) => {
                connective.joined(left.truth(), right.truth())
            }
            Wording::Not(inner) => !inner.truth(),
        }
    }
}
