// The lent tables of a book, with their counts as the book has them.
use crate::call::{Call, Leaf};
use crate::ledger::{Answer, Refusal};
use crate::offers::{COLUMNS, Family, OPERATORS, TEXT, are_same_cells};
use crate::wording::Connective;
use book::book::Book;
use nodes::slots::{Mark, Node, Slot};
use std::alloc::{AllocError, Global};
use values::kinds::Kind;
use values::literals::{Literal, Span, Value};
use values::refusals::Refused;

// What cells hold that were never used.
pub const UNUSED: Slot<Span> = Slot {
    node: Node::Not(60000),
    mark: Mark::Joined,
};

pub const NO_LITERAL: Literal = Literal {
    kind: Kind::Int,
    value: Value::AboveMax,
};

#[derive(Drop)]
pub struct Tables {
    pub slots: Vec<Slot<Span>>,
    pub used: usize,
    pub literals: Vec<Literal>,
    pub stored: usize,
}

fn are_same_nodes(a: Node<Span>, b: Node<Span>) -> bool {
    match (a, b) {
        (Node::AlwaysTrue, Node::AlwaysTrue) | (Node::AlwaysFalse, Node::AlwaysFalse) => true,
        (Node::And(k, l), Node::And(m, n)) | (Node::Or(k, l), Node::Or(m, n)) => k == m && l == n,
        (Node::Not(m), Node::Not(n)) => m == n,
        (Node::Unary(o, x), Node::Unary(p, y)) => o.number() == p.number() && x == y,
        (Node::Binary(o, x, m), Node::Binary(p, y, n)) => {
            o.number() == p.number() && x == y && m == n
        }
        (Node::Set(o, x, m), Node::Set(p, y, n)) => {
            o.number() == p.number() && x == y && m.start == n.start && m.count == n.count
        }
        _ => false,
    }
}

fn are_same_slots(a: Slot<Span>, b: Slot<Span>) -> bool {
    a.mark == b.mark && are_same_nodes(a.node, b.node)
}

// The first place from one on at which two tables of nodes differ.
pub fn first_other_slot(from: usize, a: &[Slot<Span>], b: &[Slot<Span>]) -> Option<usize> {
    let mut cells = a.iter().zip(b.iter()).enumerate().skip(from);
    let (place, _) = cells.find(|(_, (x, y))| !are_same_slots(**x, **y))?;
    Some(place)
}

pub fn first_other_literal(a: &[Literal], b: &[Literal]) -> Option<usize> {
    a.iter()
        .zip(b.iter())
        .position(|(x, y)| !are_same_cells(*x, *y))
}

// Lays the condition, if its operator and column are there.
fn lay(
    book: &mut Book<'_, '_, Span>,
    leaf: &Leaf,
    given: &[Literal],
) -> Option<Result<u16, Refused>> {
    let operator = OPERATORS.get(leaf.operator).copied()?;
    let column = COLUMNS.get(leaf.column).copied()?;
    Some(match leaf.family {
        Family::Unary => book.lay_unary(operator, column),
        Family::Binary => book.lay_binary(operator, column, given.first().copied()?),
        Family::Set => book.lay_set(operator, column, given),
    })
}

impl Tables {
    // Tables as they are lent, of those lengths.
    pub fn lent(alloc: Global, nodes: usize, literals: usize) -> Result<Tables, AllocError> {
        Ok(Tables {
            slots: vec![in alloc; UNUSED; nodes]?,
            used: 0,
            literals: vec![in alloc; NO_LITERAL; literals]?,
            stored: 0,
        })
    }

    pub fn copy(&self, alloc: Global) -> Result<Tables, AllocError> {
        Ok(Tables {
            slots: Vec::from_slice(alloc, self.slots.as_slice())?,
            used: self.used,
            literals: Vec::from_slice(alloc, self.literals.as_slice())?,
            stored: self.stored,
        })
    }

    fn as_book(&mut self) -> Book<'_, 'static, Span> {
        let (used, stored) = (self.used, self.stored);
        Book {
            slots: self.slots.as_mut_slice(),
            used,
            literals: self.literals.as_mut_slice(),
            stored,
            text: &TEXT,
            places: &[],
        }
    }

    pub fn unsound(&mut self) -> Option<u16> {
        self.as_book().unsound()
    }

    pub fn stands(&mut self, number: u16) -> bool {
        self.as_book().stands(number)
    }

    // Makes the call on the book of these tables.
    pub fn perform(&mut self, alloc: Global, call: &Call) -> Result<Answer, AllocError> {
        let given = match call {
            Call::Condition(leaf) => leaf.literals(alloc)?,
            _ => Vec::new(alloc),
        };
        let (answer, used, stored) = {
            let mut book = self.as_book();
            let answer = match call {
                Call::Constant(value) => Some(book.lay_constant(*value)),
                Call::Condition(leaf) => lay(&mut book, leaf, given.as_slice()),
                Call::Join(Connective::And, a, b) => Some(book.and(*a, *b)),
                Call::Join(Connective::Or, a, b) => Some(book.or(*a, *b)),
                Call::Not(a) => Some(book.not(*a)),
                Call::Negate(a) => Some(book.negate(*a)),
                Call::Rewrite {
                    filter,
                    folds: true,
                } => Some(book.rewrite_not(*filter)),
                Call::Rewrite {
                    filter,
                    folds: false,
                } => Some(book.rewrite_unfolded(*filter)),
            };
            (answer, book.used, book.stored)
        };
        self.used = used;
        self.stored = stored;
        Ok(match answer {
            Some(Ok(number)) => Ok(number),
            Some(Err(refused)) => Err(Refusal {
                number: refused.reason.number(),
                place: refused.place,
            }),
            None => Err(Refusal {
                number: 0,
                place: 0,
            }),
        })
    }

    // Whether every cell and both counts are the other's.
    pub fn is(&self, other: &Tables) -> bool {
        self.used == other.used
            && self.stored == other.stored
            && self.slots.len() == other.slots.len()
            && self.literals.len() == other.literals.len()
            && first_other_slot(0, self.slots.as_slice(), other.slots.as_slice()).is_none()
            && first_other_literal(self.literals.as_slice(), other.literals.as_slice()).is_none()
    }
}
