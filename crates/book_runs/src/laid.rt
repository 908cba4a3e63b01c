// Filters as the rules lay them: each part with the number of its node.
use crate::wording::{Condition, Connective};
use std::alloc::{AllocError, Global};

#[derive(Drop)]
pub enum Laid {
    Constant(u16, bool),
    Condition(u16, Condition),
    Join(u16, Connective, Box<Laid>, Box<Laid>),
    Not(u16, Box<Laid>),
}

#[derive(Clone, Copy, PartialEq, Eq)]
pub enum Side {
    Left,
    Right,
}

// What one node is.
#[derive(Clone, Copy)]
pub enum Form<'a> {
    Constant(bool),
    Condition(&'a Condition),
    Join(Connective, u16, u16),
    Not(u16),
}

// A node of a filter, which stands or is part of another.
#[derive(Clone, Copy)]
pub struct Part<'a> {
    pub number: u16,
    pub is_standing: bool,
    pub form: Form<'a>,
}

// The side that a join keeps: a decisive constant, the left first; else the side beside the other constant, the left one
// counting first.
pub fn kept_side(connective: Connective, left: &Laid, right: &Laid) -> Option<Side> {
    let decisive = connective.decisive();
    let (left, right) = (left.constant(), right.constant());
    if left == Some(decisive) {
        Some(Side::Left)
    } else if right == Some(decisive) {
        Some(Side::Right)
    } else if left == Some(!decisive) {
        Some(Side::Right)
    } else if right == Some(!decisive) {
        Some(Side::Left)
    } else {
        None
    }
}

// The join laid at a number, or the side that is kept.
pub fn joined(
    alloc: Global,
    number: u16,
    connective: Connective,
    left: Laid,
    right: Laid,
) -> Result<Laid, AllocError> {
    match kept_side(connective, &left, &right) {
        Some(Side::Left) => Ok(left),
        Some(Side::Right) => Ok(right),
        None => Ok(Laid::Join(
            number,
            connective,
            Box::new(alloc, left)?,
            Box::new(alloc, right)?,
        )),
    }
}

impl Laid {
    pub fn number(&self) -> u16 {
        match self {
            Laid::Constant(number, _) => *number,
            Laid::Condition(number, _) => *number,
            Laid::Join(number, _, _, _) => *number,
            Laid::Not(number, _) => *number,
        }
    }

    pub fn constant(&self) -> Option<bool> {
        match self {
            Laid::Constant(_, value) => Some(*value),
            _ => None,
        }
    }

    // Negated: constants, joins and operators exchanged, a Not left off.
    pub fn negated(self, alloc: Global) -> Result<Laid, AllocError> {
        match self {
            Laid::Constant(number, value) => Ok(Laid::Constant(number, !value)),
            Laid::Condition(number, condition) => {
                let mut condition = condition;
                condition.turn();
                Ok(Laid::Condition(number, condition))
            }
            Laid::Join(number, connective, left, right) => {
                let left = Box::into_inner(left).negated(alloc)?;
                let right = Box::into_inner(right).negated(alloc)?;
                let exchanged = connective.exchanged();
                Ok(Laid::Join(
                    number,
                    exchanged,
                    Box::new(alloc, left)?,
                    Box::new(alloc, right)?,
                ))
            }
            Laid::Not(_, inner) => Ok(Box::into_inner(inner)),
        }
    }

    // Rewritten without Nots, inputs first; joins are folded where that is asked.
    pub fn rewritten(self, alloc: Global, folds: bool) -> Result<Laid, AllocError> {
        match self {
            Laid::Join(number, connective, left, right) => {
                let left = Box::into_inner(left).rewritten(alloc, folds)?;
                let right = Box::into_inner(right).rewritten(alloc, folds)?;
                if folds {
                    joined(alloc, number, connective, left, right)
                } else {
                    let (left, right) = (Box::new(alloc, left)?, Box::new(alloc, right)?);
                    Ok(Laid::Join(number, connective, left, right))
                }
            }
            Laid::Not(_, inner) => Box::into_inner(inner)
                .rewritten(alloc, folds)?
                .negated(alloc),
            other => Ok(other),
        }
    }

    fn form(&self) -> Form<'_> {
        match self {
            Laid::Constant(_, value) => Form::Constant(*value),
            Laid::Condition(_, condition) => Form::Condition(condition),
            Laid::Join(_, connective, left, right) => {
                Form::Join(*connective, left.number(), right.number())
            }
            Laid::Not(_, inner) => Form::Not(inner.number()),
        }
    }

    // Lists the nodes of the filter behind others.
    pub fn list<'a>(
        &'a self,
        is_standing: bool,
        parts: &mut Vec<Part<'a>>,
    ) -> Result<(), AllocError> {
        parts.push(Part {
            number: self.number(),
            is_standing,
            form: self.form(),
        })?;
        match self {
            Laid::Join(_, _, left, right) => {
                left.list(false, parts)?;
                right.list(false, parts)
            }
            Laid::Not(_, inner) => inner.list(false, parts),
            _ => Ok(()),
        }
    }
}
