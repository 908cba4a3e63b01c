// What the rules say of a run of calls: the ledger on paper, and where the filters are laid.
use crate::call::{Call, Leaf};
use crate::laid::{Laid, Part, joined, kept_side};
use crate::offers::{COLUMNS_INSIDE, Quality, family_of, quality_of};
use crate::wording::{Condition, Connective, Wording};
use std::alloc::{AllocError, Global};
use std::fmt;

// A refusal by its number, with its place.
#[derive(Clone, Copy, PartialEq, Eq)]
pub struct Refusal {
    pub number: u8,
    pub place: usize,
}

// The number of a filter, or a refusal.
pub type Answer = Result<u16, Refusal>;

#[derive(Drop)]
pub struct Entry {
    pub wording: Wording,
    pub laid: Laid,
}

#[derive(Drop)]
pub struct Ledger {
    alloc: Global,
    node_room: usize,
    literal_room: usize,
    // a cell for each node laid, the filter in it if one stands there
    entries: Vec<Option<Entry>>,
    // the literals kept, as their places among the offers
    kept: Vec<usize>,
}

fn refused(number: u8, place: usize) -> Answer {
    Err(Refusal { number, place })
}

// The first of equal literals.
fn first_of_equals(alloc: Global, offered: &[usize]) -> Result<Vec<usize>, AllocError> {
    let mut kept = Vec::new(alloc);
    for place in offered {
        let class = quality_of(*place);
        if !kept.iter().any(|earlier| quality_of(*earlier) == class) {
            kept.push(*place)?;
        }
    }
    Ok(kept)
}

impl Ledger {
    // A ledger for lent tables of those lengths.
    pub fn new(alloc: Global, nodes: usize, literals: usize) -> Ledger {
        Ledger {
            alloc,
            node_room: nodes.min(256),
            literal_room: literals.min(1024),
            entries: Vec::new(alloc),
            kept: Vec::new(alloc),
        }
    }

    pub fn literal_room(&self) -> usize {
        self.literal_room
    }

    // How many nodes are laid.
    pub fn used(&self) -> usize {
        self.entries.len()
    }

    // The places of the literals that are kept.
    pub fn kept(&self) -> &[usize] {
        self.kept.as_slice()
    }

    pub fn entry(&self, number: usize) -> Option<&Entry> {
        match self.entries.get(number) {
            Some(Some(entry)) => Some(entry),
            _ => None,
        }
    }

    // How many filters stand.
    pub fn standing(&self) -> usize {
        self.entries.iter().filter(|cell| cell.is_some()).count()
    }

    pub fn stands(&self, number: u16) -> bool {
        self.entry(number as usize).is_some()
    }

    // The first standing filter from a number on, or from 0 on.
    pub fn standing_from(&self, number: usize) -> Option<u16> {
        let used = self.used();
        let found = (number..used)
            .find(|n| self.entry(*n).is_some())
            .or_else(|| (0..used).find(|n| self.entry(*n).is_some()))?;
        u16::try_from(found).ok()
    }

    // The nodes of all standing filters.
    pub fn parts(&self) -> Result<Vec<Part<'_>>, AllocError> {
        let mut parts = Vec::new(self.alloc);
        for cell in self.entries.as_slice() {
            if let Some(entry) = cell {
                entry.laid.list(true, &mut parts)?;
            }
        }
        Ok(parts)
    }

    fn is_full(&self) -> bool {
        self.entries.len() >= self.node_room
    }

    fn next_number(&self) -> u16 {
        u16::try_from(self.entries.len()).unwrap_or(u16::MAX)
    }

    fn take(&mut self, number: u16) -> Option<Entry> {
        self.entries.get_mut(number as usize)?.take()
    }

    // Enters a filter at the number of its top node, which was laid before.
    fn enter(&mut self, wording: Wording, laid: Laid) -> Answer {
        let number = laid.number();
        if let Some(cell) = self.entries.get_mut(number as usize) {
            *cell = Some(Entry { wording, laid });
        }
        Ok(number)
    }

    // Enters a filter whose top node is new.
    fn enter_new(&mut self, wording: Wording, laid: Laid) -> Result<Answer, AllocError> {
        let number = laid.number();
        self.entries.push(Some(Entry { wording, laid }))?;
        Ok(Ok(number))
    }

    fn lay_constant(&mut self, value: bool) -> Result<Answer, AllocError> {
        if self.is_full() {
            return Ok(refused(12, 0));
        }
        let laid = Laid::Constant(self.next_number(), value);
        self.enter_new(Wording::Constant(value), laid)
    }

    fn lay_condition(&mut self, leaf: &Leaf) -> Result<Answer, AllocError> {
        let offered = leaf.offered.as_slice();
        if family_of(leaf.operator) != leaf.family {
            return Ok(refused(3, 0));
        }
        if leaf.column >= COLUMNS_INSIDE {
            return Ok(refused(5, 0));
        }
        for (number, fault) in [(5, Quality::TextOutside), (4, Quality::OtherStorage)] {
            if let Some(place) = offered.iter().position(|place| quality_of(*place) == fault) {
                return Ok(refused(number, place));
            }
        }
        if self.is_full() {
            return Ok(refused(12, 0));
        }
        let kept = first_of_equals(self.alloc, offered)?;
        if kept.len() > self.literal_room.saturating_sub(self.kept.len()) {
            return Ok(refused(13, 0));
        }
        self.kept.extend_from_slice(kept.as_slice())?;
        let condition = Condition {
            column: leaf.column,
            operator: leaf.operator,
            kept,
        };
        let laid = Laid::Condition(self.next_number(), condition.clone()?);
        self.enter_new(Wording::Condition(condition), laid)
    }

    fn join(&mut self, connective: Connective, a: u16, b: u16) -> Result<Answer, AllocError> {
        let Some(left) = self.entry(a as usize) else {
            return Ok(refused(1, a as usize));
        };
        let Some(right) = self.entry(b as usize) else {
            return Ok(refused(1, b as usize));
        };
        if a == b {
            return Ok(refused(2, a as usize));
        }
        let folds = kept_side(connective, &left.laid, &right.laid).is_some();
        if !folds && self.is_full() {
            return Ok(refused(12, 0));
        }
        let (Some(left), Some(right)) = (self.take(a), self.take(b)) else {
            return Ok(refused(1, a as usize));
        };
        let wording = Wording::Join(
            connective,
            Box::new(self.alloc, left.wording)?,
            Box::new(self.alloc, right.wording)?,
        );
        let number = self.next_number();
        let laid = joined(self.alloc, number, connective, left.laid, right.laid)?;
        if folds {
            Ok(self.enter(wording, laid))
        } else {
            self.enter_new(wording, laid)
        }
    }

    fn not(&mut self, a: u16) -> Result<Answer, AllocError> {
        if self.stands(a) && self.is_full() {
            return Ok(refused(12, 0));
        }
        let Some(Entry { wording, laid }) = self.take(a) else {
            return Ok(refused(1, a as usize));
        };
        let wording = Wording::Not(Box::new(self.alloc, wording)?);
        let laid = Laid::Not(self.next_number(), Box::new(self.alloc, laid)?);
        self.enter_new(wording, laid)
    }

    fn negate(&mut self, a: u16) -> Result<Answer, AllocError> {
        let Some(Entry { wording, laid }) = self.take(a) else {
            return Ok(refused(1, a as usize));
        };
        let wording = Wording::Not(Box::new(self.alloc, wording)?);
        let laid = laid.negated(self.alloc)?;
        Ok(self.enter(wording, laid))
    }

    fn rewrite(&mut self, a: u16, folds: bool) -> Result<Answer, AllocError> {
        let Some(Entry { wording, laid }) = self.take(a) else {
            return Ok(refused(1, a as usize));
        };
        let laid = laid.rewritten(self.alloc, folds)?;
        Ok(self.enter(wording, laid))
    }

    // Enters the call, and says what it answers.
    pub fn obey(&mut self, call: &Call) -> Result<Answer, AllocError> {
        match call {
            Call::Constant(value) => self.lay_constant(*value),
            Call::Condition(leaf) => self.lay_condition(leaf),
            Call::Join(connective, a, b) => self.join(*connective, *a, *b),
            Call::Not(a) => self.not(*a),
            Call::Negate(a) => self.negate(*a),
            Call::Rewrite { filter, folds } => self.rewrite(*filter, *folds),
        }
    }
}

impl fmt::Display for Refusal {
    fn fmt<W: fmt::Write>(&self, f: &mut fmt::Formatter<W>) -> fmt::Result {
        let Refusal { number, place } = *self;
        write!(f, "refused {number} at {place}")
    }
}
