// A book with tables of its own, and the calls on it.
use crate::failure::Failure;
use book::book::Book;
use nodes::operators::PredicateOperator;
use nodes::slots::{Mark, Node, Run, Slot};
use std::alloc::{AllocError, Global};
use values::kinds::Kind;
use values::literals::{Literal, Span, Value};
use values::refusals::Refused;

#[derive(Clone, Copy)]
pub enum Call<'a> {
    Constant(bool),
    Unary(PredicateOperator, Span),
    Binary(PredicateOperator, Span, Literal),
    Set(PredicateOperator, Span, &'a [Literal]),
    And(u16, u16),
    Or(u16, u16),
    Not(u16),
    Negate(u16),
    Rewrite(u16),
}

#[derive(Drop)]
pub struct Bench {
    pub heap: Global,
    slots: Vec<Slot<Span>>,
    used: usize,
    literals: Vec<Literal>,
    stored: usize,
    // what names and literals are places in
    pub text: Vec<u8>,
    // the filters that no call has taken, in the order they were laid
    pub laid: Vec<u16>,
}

impl Bench {
    pub fn new(heap: Global) -> Result<Bench, AllocError> {
        let slot = Slot {
            node: Node::AlwaysFalse,
            mark: Mark::Struck,
        };
        let literal = Literal {
            kind: Kind::Boolean,
            value: Value::Boolean(false),
        };
        Ok(Bench {
            heap,
            slots: vec![in heap; slot; 256]?,
            used: 0,
            literals: vec![in heap; literal; 1024]?,
            stored: 0,
            text: Vec::new(heap),
            laid: Vec::new(heap),
        })
    }

    // An empty book again.
    pub fn clear(&mut self) {
        self.used = 0;
        self.stored = 0;
        self.text.clear();
        self.laid.clear();
    }

    // Takes the filter that was laid last.
    pub fn take(&mut self) -> Result<u16, Failure> {
        self.laid.pop().ok_or(Failure::NotACase)
    }

    // Takes the two that were laid last, the left one first.
    pub fn take_two(&mut self) -> Result<(u16, u16), Failure> {
        let right = self.take()?;
        let left = self.take()?;
        Ok((left, right))
    }

    // Makes the call.
    pub fn obey(&mut self, call: Call) -> Result<u16, Refused> {
        let mut book = Book {
            slots: self.slots.as_mut_slice(),
            used: self.used,
            literals: self.literals.as_mut_slice(),
            stored: self.stored,
            text: self.text.as_slice(),
            places: &[],
        };
        let answer = match call {
            Call::Constant(value) => book.lay_constant(value),
            Call::Unary(op, name) => book.lay_unary(op, name),
            Call::Binary(op, name, literal) => book.lay_binary(op, name, literal),
            Call::Set(op, name, literals) => book.lay_set(op, name, literals),
            Call::And(left, right) => book.and(left, right),
            Call::Or(left, right) => book.or(left, right),
            Call::Not(filter) => book.not(filter),
            Call::Negate(filter) => book.negate(filter),
            Call::Rewrite(filter) => book.rewrite_not(filter),
        };
        let used = book.used;
        let stored = book.stored;
        self.used = used;
        self.stored = stored;
        answer
    }

    // How many nodes were laid.
    pub fn used(&self) -> usize {
        self.used
    }

    // The node of that number.
    pub fn node(&self, number: u16) -> Option<Node<Span>> {
        Some(self.slots.get(number as usize)?.node)
    }

    // The literals of the run.
    pub fn literals(&self, run: Run) -> Option<&[Literal]> {
        let start = run.start as usize;
        self.literals
            .as_slice()
            .get(start..start + run.count as usize)
    }
}
