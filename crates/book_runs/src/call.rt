// The calls on a book.
use crate::offers::{Family, OPERATORS, literal};
use crate::wording::Connective;
use std::alloc::{AllocError, Global};
use std::fmt;
use values::literals::Literal;

// A condition as it is handed in: the places of its column, operator and literals.
#[derive(Drop)]
pub struct Leaf {
    pub family: Family,
    pub column: usize,
    pub operator: usize,
    pub offered: Vec<usize>,
}

#[derive(Drop)]
pub enum Call {
    Constant(bool),
    Condition(Leaf),
    Join(Connective, u16, u16),
    Not(u16),
    Negate(u16),
    Rewrite { filter: u16, folds: bool },
}

// The names of the calls.
pub static NAMES: [&str; 10] = [
    "lay_constant",
    "lay_unary",
    "lay_binary",
    "lay_set",
    "and",
    "or",
    "not",
    "negate",
    "rewrite_not",
    "rewrite_unfolded",
];

impl Leaf {
    pub fn literals(&self, alloc: Global) -> Result<Vec<Literal>, AllocError> {
        let mut literals = Vec::new(alloc);
        for place in self.offered.as_slice() {
            if let Some(offer) = literal(*place) {
                literals.push(offer)?;
            }
        }
        Ok(literals)
    }
}

impl Call {
    // Its place among the names.
    pub fn kind(&self) -> usize {
        match self {
            Call::Constant(_) => 0,
            Call::Condition(leaf) => match leaf.family {
                Family::Unary => 1,
                Family::Binary => 2,
                Family::Set => 3,
            },
            Call::Join(Connective::And, _, _) => 4,
            Call::Join(Connective::Or, _, _) => 5,
            Call::Not(_) => 6,
            Call::Negate(_) => 7,
            Call::Rewrite { folds: true, .. } => 8,
            Call::Rewrite { folds: false, .. } => 9,
        }
    }
}

impl fmt::Display for Call {
    fn fmt<W: fmt::Write>(&self, f: &mut fmt::Formatter<W>) -> fmt::Result {
        f.write_str(NAMES.get(self.kind()).copied().unwrap_or(""))?;
        match self {
            Call::Constant(value) => write!(f, " {value}"),
            Call::Condition(leaf) => {
                let column = leaf.column;
                match OPERATORS.get(leaf.operator) {
                    Some(operator) => write!(f, " operator {}", operator.number())?,
                    None => f.write_str(" no operator")?,
                }
                write!(f, ", column {column}, literals")?;
                for place in leaf.offered.as_slice() {
                    write!(f, " {place}")?;
                }
                Ok(())
            }
            Call::Join(_, left, right) => write!(f, " {left} {right}"),
            Call::Not(filter) | Call::Negate(filter) => write!(f, " {filter}"),
            Call::Rewrite { filter, .. } => write!(f, " {filter}"),
        }
    }
}
