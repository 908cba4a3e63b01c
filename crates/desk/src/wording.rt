// Filters in words.
use crate::failure::Failure;
use commands::operators::word_of;
use comparison::data::Datum;
use comparison::text::Text;
use nodes::operators::PredicateOperator;
use nodes::slots::{Node, Run, Slot};
use std::fmt;
use values::literals::{Literal, Span};

// A book's nodes, with what they refer to.
#[derive(Clone, Copy)]
pub struct Nodes<'a> {
    pub slots: &'a [Slot<Span>],
    pub literals: &'a [Literal],
    pub text: &'a [u8],
}

// A node alone: its inputs are numbers.
#[derive(Clone, Copy)]
pub struct Single<'a> {
    nodes: Nodes<'a>,
    node: Node<Span>,
}

// A filter in a row, each node with its number; a line feed stands where the row may be broken.
#[derive(Clone, Copy)]
pub struct Filter<'a> {
    nodes: Nodes<'a>,
    number: u16,
}

// A filter with a line for each node, the inputs further in.
#[derive(Clone, Copy)]
pub struct Tree<'a> {
    nodes: Nodes<'a>,
    number: u16,
}

fn join_word(node: Node<Span>) -> &'static str {
    if matches!(node, Node::And(..)) {
        "and"
    } else {
        "or"
    }
}

impl<'a> Nodes<'a> {
    pub fn node(self, node: Node<Span>) -> Single<'a> {
        Single { nodes: self, node }
    }

    pub fn filter(self, number: u16) -> Filter<'a> {
        Filter {
            nodes: self,
            number,
        }
    }

    pub fn tree(self, number: u16) -> Tree<'a> {
        Tree {
            nodes: self,
            number,
        }
    }

    // The node at a number; where the tables have none, one that never passes.
    fn at(self, number: u16) -> Node<Span> {
        match self.slots.get(number as usize) {
            Some(slot) => slot.node,
            None => Node::AlwaysFalse,
        }
    }

    fn write_test<W: fmt::Write>(
        self,
        f: &mut fmt::Formatter<W>,
        operator: PredicateOperator,
        name: Span,
    ) -> fmt::Result {
        let shown = Text(name.of(self.text));
        let word = word_of(operator);
        write!(f, "{shown} {word}")
    }

    fn write_literals<W: fmt::Write>(self, f: &mut fmt::Formatter<W>, run: Run) -> fmt::Result {
        let literals = self
            .literals
            .iter()
            .skip(run.start as usize)
            .take(run.count as usize);
        for (place, literal) in literals.enumerate() {
            let between = if place == 0 { "" } else { ", " };
            let datum = Datum::new(*literal, self.text);
            write!(f, "{between}{datum}")?;
        }
        Ok(())
    }

    // The filter at the number, in brackets if it is an input of another, which a Not needs none of.
    fn write_filter<W: fmt::Write>(
        self,
        f: &mut fmt::Formatter<W>,
        number: u16,
        is_input: bool,
    ) -> fmt::Result {
        let node = self.at(number);
        let bracketed = is_input && !matches!(node, Node::Not(_));
        if bracketed {
            f.write_str("(")?;
        }
        write!(f, "#{number} ")?;
        match node {
            Node::And(l, r) | Node::Or(l, r) if l < number && r < number => {
                let word = join_word(node);
                self.write_filter(f, l, true)?;
                write!(f, "\n{word} ")?;
                self.write_filter(f, r, true)?;
            }
            Node::Not(x) if x < number => {
                f.write_str("not ")?;
                self.write_filter(f, x, true)?;
            }
            // no input, or one that is not below its node, as in no sound table
            other => {
                let single = self.node(other);
                write!(f, "{single}")?;
            }
        }
        if bracketed {
            f.write_str(")")?;
        }
        Ok(())
    }

    // The filter at the number, so far in.
    fn write_tree<W: fmt::Write>(
        self,
        f: &mut fmt::Formatter<W>,
        number: u16,
        indent: usize,
    ) -> fmt::Result {
        for _ in 0..indent {
            f.write_str(" ")?;
        }
        write!(f, "#{number} ")?;
        let further = indent.saturating_add(3);
        let node = self.at(number);
        match node {
            Node::And(l, r) | Node::Or(l, r) if l < number && r < number => {
                let word = join_word(node);
                writeln!(f, "{word}")?;
                self.write_tree(f, l, further)?;
                f.write_str("\n")?;
                self.write_tree(f, r, further)
            }
            Node::Not(x) if x < number => {
                f.write_str("not\n")?;
                self.write_tree(f, x, further)
            }
            other => {
                let single = self.node(other);
                write!(f, "{single}")
            }
        }
    }
}

impl fmt::Display for Single<'_> {
    fn fmt<W: fmt::Write>(&self, f: &mut fmt::Formatter<W>) -> fmt::Result {
        let nodes = self.nodes;
        match self.node {
            Node::AlwaysTrue => f.write_str("always-true"),
            Node::AlwaysFalse => f.write_str("always-false"),
            Node::And(l, r) | Node::Or(l, r) => {
                let word = join_word(self.node);
                write!(f, "#{l} {word} #{r}")
            }
            Node::Not(x) => write!(f, "not #{x}"),
            Node::Unary(operator, name) => nodes.write_test(f, operator, name),
            Node::Binary(operator, name, literal) => {
                nodes.write_test(f, operator, name)?;
                f.write_str(" ")?;
                nodes.write_literals(
                    f,
                    Run {
                        start: literal,
                        count: 1,
                    },
                )
            }
            Node::Set(operator, name, run) => {
                nodes.write_test(f, operator, name)?;
                f.write_str(" {")?;
                nodes.write_literals(f, run)?;
                f.write_str("}")
            }
        }
    }
}

impl fmt::Display for Filter<'_> {
    fn fmt<W: fmt::Write>(&self, f: &mut fmt::Formatter<W>) -> fmt::Result {
        self.nodes.write_filter(f, self.number, false)
    }
}

impl fmt::Display for Tree<'_> {
    fn fmt<W: fmt::Write>(&self, f: &mut fmt::Formatter<W>) -> fmt::Result {
        self.nodes.write_tree(f, self.number, 3)
    }
}

// Prints the filter behind a word; what would pass column 80 goes to the lines after, further in.
pub fn say(rt: &HostRuntime, word: &str, filter: Filter) -> Result<(), Failure> {
    let row = format!(in rt.alloc(); "   {word} {filter}")?;
    let mut column: usize = 0;
    for part in row.as_str().split('\n') {
        let end = column.saturating_add(1).saturating_add(part.len());
        if column == 0 {
            print!(rt; "{part}")?;
            column = part.len();
        } else if end > 80 {
            print!(rt; "\n      {part}")?;
            column = part.len().saturating_add(6);
        } else {
            print!(rt; " {part}")?;
            column = end;
        }
    }
    println!(rt; "")?;
    Ok(())
}
