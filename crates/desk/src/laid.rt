// The book of filters that is being typed: the tables that its calls are lent, and their text.
use crate::failure::Failure;
use crate::kept::{keep, keep_literal};
use crate::wording::{Nodes, say};
use book::book::Book;
use nodes::operators::PredicateOperator;
use nodes::slots::{Mark, Node, Slot};
use reading::literals::read_literal;
use reading::words::Words;
use std::alloc::{AllocError, Global};
use values::kinds::Kind;
use values::literals::{Literal, Span, Value};
use values::refusals::{Reason, Refused};

#[derive(Drop)]
pub struct Filters {
    slots: Vec<Slot<Span>>,
    used: usize,
    literals: Vec<Literal>,
    stored: usize,
    // grows as names and literals are laid
    text: Vec<u8>,
}

impl Filters {
    // A book as long as the rules allow.
    pub fn new(heap: Global) -> Result<Filters, AllocError> {
        let unused = Slot {
            node: Node::AlwaysTrue,
            mark: Mark::Struck,
        };
        let blank = Literal {
            kind: Kind::Boolean,
            value: Value::Boolean(false),
        };
        Ok(Filters {
            slots: vec![in heap; unused; 256]?,
            used: 0,
            literals: vec![in heap; blank; 1024]?,
            stored: 0,
            text: Vec::new(heap),
        })
    }

    fn lend(&mut self) -> Book<'_, '_, Span> {
        let used = self.used;
        let stored = self.stored;
        Book {
            slots: self.slots.as_mut_slice(),
            used,
            literals: self.literals.as_mut_slice(),
            stored,
            text: self.text.as_slice(),
            places: &[],
        }
    }

    // The nodes of a table of slots, which may be an older one.
    fn nodes_in<'a>(&'a self, slots: &'a [Slot<Span>]) -> Nodes<'a> {
        Nodes {
            slots,
            literals: self.literals.as_slice(),
            text: self.text.as_slice(),
        }
    }

    fn nodes(&self) -> Nodes<'_> {
        self.nodes_in(self.slots.as_slice())
    }

    // Makes a call on the book, and keeps its counts.
    fn call<F: FnOnce(&mut Book<'_, '_, Span>) -> Result<u16, Refused>>(
        &mut self,
        call: F,
    ) -> Result<u16, Refused>
        requires { F.IsAlwaysCallable call }
    {
        let mut book = self.lend();
        let answer = call(&mut book);
        let Book { used, stored, .. } = book;
        self.used = used;
        self.stored = stored;
        answer
    }

    // Makes a call on filters, and shows them as they were, and the one answered.
    fn change<F: FnOnce(&mut Book<'_, '_, Span>) -> Result<u16, Refused>>(
        &mut self,
        rt: &HostRuntime,
        given: &[u16],
        call: F,
    ) -> Result<(), Failure>
        requires { F.IsAlwaysCallable call }
    {
        let before = self.slots.clone()?;
        let answer = self.call(call)?;
        for number in given {
            say(rt, "was", self.nodes_in(before.as_slice()).filter(*number))?;
        }
        say(rt, "is", self.nodes().filter(answer))
    }

    pub fn lay_constant(&mut self, rt: &HostRuntime, value: bool) -> Result<(), Failure> {
        self.change(rt, &[], |book| book.lay_constant(value))
    }

    // Lays the condition by the family of its operator, or else by how many literals it is given.
    pub fn lay(
        &mut self,
        rt: &HostRuntime,
        name: &[u8],
        operator: PredicateOperator,
        given: Words,
    ) -> Result<(), Failure> {
        let term = keep(&mut self.text, name)?;
        let mut literals = Vec::new(rt.alloc());
        for literal in given.filter_map(read_literal) {
            literals.push(keep_literal(&mut self.text, literal, given.line)?)?;
        }
        self.change(rt, &[], |book| match literals.as_slice() {
            [] if !operator.is_set() => book.lay_unary(operator, term),
            [literal] if !operator.is_set() => book.lay_binary(operator, term, *literal),
            set => book.lay_set(operator, term, set),
        })
    }

    pub fn and(&mut self, rt: &HostRuntime, a: u16, b: u16) -> Result<(), Failure> {
        self.change(rt, &[a, b], |book| book.and(a, b))
    }

    pub fn or(&mut self, rt: &HostRuntime, a: u16, b: u16) -> Result<(), Failure> {
        self.change(rt, &[a, b], |book| book.or(a, b))
    }

    pub fn not(&mut self, rt: &HostRuntime, a: u16) -> Result<(), Failure> {
        self.change(rt, &[a], |book| book.not(a))
    }

    pub fn negate(&mut self, rt: &HostRuntime, a: u16) -> Result<(), Failure> {
        self.change(rt, &[a], |book| book.negate(a))
    }

    pub fn rewrite(&mut self, rt: &HostRuntime, a: u16) -> Result<(), Failure> {
        self.change(rt, &[a], |book| book.rewrite_not(a))
    }

    // Shows the filter in a row and as a tree.
    pub fn show(&mut self, rt: &HostRuntime, number: u16) -> Result<(), Failure> {
        if !self.lend().stands(number) {
            return Err(Failure::from(Reason::NoFilter.at(number as usize)));
        }
        let nodes = self.nodes();
        say(rt, "is", nodes.filter(number))?;
        let tree = nodes.tree(number);
        println!(rt; "{tree}")?;
        Ok(())
    }

    // Shows all nodes with their marks.
    pub fn list(&self, rt: &HostRuntime) -> Result<(), Failure> {
        let nodes = self.nodes();
        for (number, slot) in self.slots.iter().enumerate().take(self.used) {
            let mark = match slot.mark {
                Mark::Standing => "standing",
                Mark::Joined => "joined",
                Mark::Struck => "struck",
            };
            let node = nodes.node(slot.node);
            println!(rt; "   #{number} {mark:8} {node}")?;
        }
        let (used, slots) = (self.used, self.slots.len());
        let (stored, literals) = (self.stored, self.literals.len());
        println!(rt; "   {used} of {slots} nodes, {stored} of {literals} literals")?;
        Ok(())
    }
}
