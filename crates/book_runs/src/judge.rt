// A book's tables after a call, beside what the ledger says.
use crate::call::Call;
use crate::laid::{Form, Part};
use crate::ledger::{Answer, Ledger};
use crate::meaning::{cells, meanings, nodes_of};
use crate::offers::{COLUMNS, Family, OPERATORS, are_same_cells, family_of, literal};
use crate::tables::{Tables, first_other_slot};
use crate::wording::{Condition, Connective};
use nodes::operators::PredicateOperator;
use nodes::slots::{Mark, Node, Run};
use std::alloc::{AllocError, Global};
use std::fmt;
use values::literals::{Literal, Span};

// Where a book differs from the rules.
#[derive(Clone, Copy)]
pub enum Difference<'a> {
    Answer {
        expected: Answer,
        found: Answer,
    },
    Nodes {
        expected: usize,
        found: usize,
    },
    Literals {
        expected: usize,
        found: usize,
    },
    // a refused call wrote
    Written,
    // a cell in no use was written
    Tail {
        cell: usize,
    },
    Literal {
        cell: usize,
    },
    Mark {
        node: usize,
        expected: Mark,
        found: Mark,
    },
    Node {
        node: u16,
        expected: Form<'a>,
        found: Node<Span>,
    },
    Meaning {
        node: usize,
        expected: u64,
        found: Option<u64>,
    },
    Standing {
        node: u16,
        expected: bool,
    },
    NotLeft {
        node: usize,
    },
    ConstantInside {
        node: usize,
    },
    Unsound {
        node: u16,
    },
}

fn is_condition(
    condition: &Condition,
    wanted: Family,
    operator: PredicateOperator,
    column: Span,
    found: Option<&[Literal]>,
) -> bool {
    let Some(found) = found else {
        return false;
    };
    let kept = condition.kept.as_slice();
    family_of(condition.operator) == wanted
        && OPERATORS
            .get(condition.operator)
            .is_some_and(|listed| listed.number() == operator.number())
        && COLUMNS.get(condition.column).copied() == Some(column)
        && kept.len() == found.len()
        && kept.iter().zip(found.iter()).all(|(place, cell)| literal(*place).is_some_and(
            |offer| are_same_cells(offer, *cell),
        ))
}

// Whether the node is what the rules lay.
fn is_form(form: Form<'_>, node: Node<Span>, literals: &[Literal]) -> bool {
    match (form, node) {
        (Form::Constant(true), Node::AlwaysTrue) => true,
        (Form::Constant(false), Node::AlwaysFalse) => true,
        (Form::Join(Connective::And, a, b), Node::And(l, r)) => a == l && b == r,
        (Form::Join(Connective::Or, a, b), Node::Or(l, r)) => a == l && b == r,
        (Form::Not(a), Node::Not(i)) => a == i,
        (Form::Condition(c), Node::Unary(operator, column)) => {
            is_condition(c, Family::Unary, operator, column, Some(&[]))
        }
        (Form::Condition(c), Node::Binary(operator, column, n)) => {
            is_condition(c, Family::Binary, operator, column, cells(literals, n, 1))
        }
        (Form::Condition(c), Node::Set(operator, column, Run { start, count })) => {
            let found = cells(literals, start, count);
            is_condition(c, Family::Set, operator, column, found)
        }
        _ => false,
    }
}

fn judge_counts(ledger: &Ledger, tables: &Tables) -> Option<Difference<'static>> {
    if tables.used != ledger.used() {
        Some(Difference::Nodes {
            expected: ledger.used(),
            found: tables.used,
        })
    } else if tables.stored != ledger.kept().len() {
        Some(Difference::Literals {
            expected: ledger.kept().len(),
            found: tables.stored,
        })
    } else {
        None
    }
}

// The literals kept are those offered, and no other cell is written.
fn judge_literals(
    ledger: &Ledger,
    before: &Tables,
    tables: &Tables,
) -> Option<Difference<'static>> {
    for (cell, found) in tables.literals.iter().enumerate() {
        let expected = match ledger.kept().get(cell) {
            Some(place) => literal(*place),
            None => before.literals.get(cell).copied(),
        };
        if !expected.is_some_and(|expected| are_same_cells(expected, *found)) {
            return Some(Difference::Literal { cell });
        }
    }
    None
}

// The nodes of the standing filters are what the rules lay.
fn judge_nodes<'a>(parts: &[Part<'a>], tables: &Tables) -> Option<Difference<'a>> {
    for part in parts {
        let slot = tables.slots.get(part.number as usize)?;
        if !is_form(part.form, slot.node, tables.literals.as_slice()) {
            return Some(Difference::Node {
                node: part.number,
                expected: part.form,
                found: slot.node,
            });
        }
    }
    None
}

// Those nodes are standing or joined, and every other one is struck.
fn judge_marks(
    alloc: Global,
    parts: &[Part<'_>],
    tables: &Tables,
) -> Result<Option<Difference<'static>>, AllocError> {
    let mut marks = vec![in alloc; Mark::Struck; tables.used]?;
    for part in parts {
        if let Some(mark) = marks.get_mut(part.number as usize) {
            *mark = if part.is_standing {
                Mark::Standing
            } else {
                Mark::Joined
            };
        }
    }
    for (node, (expected, slot)) in marks.iter().zip(tables.slots.iter()).enumerate() {
        if *expected != slot.mark {
            return Ok(Some(Difference::Mark {
                node,
                expected: *expected,
                found: slot.mark,
            }));
        }
    }
    Ok(None)
}

// Each standing filter means its wording.
fn judge_meanings(
    alloc: Global,
    ledger: &Ledger,
    tables: &Tables,
) -> Result<Option<Difference<'static>>, AllocError> {
    for (node, found) in meanings(alloc, tables)?.iter().enumerate() {
        if let Some(entry) = ledger.entry(node) {
            let expected = entry.wording.truth();
            if *found != Some(expected) {
                return Ok(Some(Difference::Meaning {
                    node,
                    expected,
                    found: *found,
                }));
            }
        }
    }
    Ok(None)
}

fn judge_standing(ledger: &Ledger, tables: &mut Tables) -> Option<Difference<'static>> {
    for node in 0..300u16 {
        let expected = ledger.stands(node);
        if tables.stands(node) != expected {
            return Some(Difference::Standing { node, expected });
        }
    }
    None
}

// No Not is left, and where joins are folded a constant stands alone.
fn judge_rewritten(
    alloc: Global,
    tables: &Tables,
    top: u16,
    folds: bool,
) -> Result<Option<Difference<'static>>, AllocError> {
    let nodes = nodes_of(alloc, tables, top)?;
    for (node, found) in nodes.iter() {
        match found {
            Node::Not(_) => return Ok(Some(Difference::NotLeft { node: *node })),
            Node::AlwaysTrue | Node::AlwaysFalse if folds && *node != top as usize => {
                return Ok(Some(Difference::ConstantInside { node: *node }));
            }
            _ => {}
        }
    }
    Ok(None)
}

// The first difference, after a call that should have answered as expected.
pub fn judge<'a>(
    alloc: Global,
    call: &Call,
    ledger: &'a Ledger,
    before: &Tables,
    tables: &mut Tables,
    expected: Answer,
    found: Answer,
) -> Result<Option<Difference<'a>>, AllocError> {
    if expected != found {
        return Ok(Some(Difference::Answer { expected, found }));
    }
    if expected.is_err() && !tables.is(before) {
        return Ok(Some(Difference::Written));
    }
    if let Some(difference) = judge_counts(ledger, tables) {
        return Ok(Some(difference));
    }
    let used = tables.used;
    if let Some(cell) = first_other_slot(used, before.slots.as_slice(), tables.slots.as_slice()) {
        return Ok(Some(Difference::Tail { cell }));
    }
    if let Some(difference) = judge_literals(ledger, before, tables) {
        return Ok(Some(difference));
    }
    let parts = ledger.parts()?;
    if let Some(difference) = judge_nodes(parts.as_slice(), tables) {
        return Ok(Some(difference));
    }
    if let Some(difference) = judge_marks(alloc, parts.as_slice(), tables)? {
        return Ok(Some(difference));
    }
    if let Some(difference) = judge_meanings(alloc, ledger, tables)? {
        return Ok(Some(difference));
    }
    if let Some(difference) = judge_standing(ledger, tables) {
        return Ok(Some(difference));
    }
    if let (Call::Rewrite { folds, .. }, Ok(top)) = (call, found) {
        if let Some(difference) = judge_rewritten(alloc, tables, top, *folds)? {
            return Ok(Some(difference));
        }
    }
    Ok(tables.unsound().map(|node| Difference::Unsound { node }))
}

fn mark_name(mark: Mark) -> &'static str {
    match mark {
        Mark::Standing => "standing",
        Mark::Joined => "joined",
        Mark::Struck => "struck",
    }
}

#[derive(Clone, Copy)]
struct Shown(Answer);

impl fmt::Display for Shown {
    fn fmt<W: fmt::Write>(&self, f: &mut fmt::Formatter<W>) -> fmt::Result {
        match self.0 {
            Ok(number) => write!(f, "filter {number}"),
            Err(refusal) => write!(f, "{refusal}"),
        }
    }
}

#[derive(Clone, Copy)]
struct ShownNode(Node<Span>);

impl fmt::Display for ShownNode {
    fn fmt<W: fmt::Write>(&self, f: &mut fmt::Formatter<W>) -> fmt::Result {
        match self.0 {
            Node::AlwaysTrue => f.write_str("true"),
            Node::AlwaysFalse => f.write_str("false"),
            Node::And(l, r) => write!(f, "{l} and {r}"),
            Node::Or(l, r) => write!(f, "{l} or {r}"),
            Node::Not(i) => write!(f, "not {i}"),
            Node::Unary(operator, column) => {
                write!(f, "operator {} on byte {}", operator.number(), column.start)
            }
            Node::Binary(operator, column, literal) => {
                let (number, start) = (operator.number(), column.start);
                write!(f, "operator {number} on byte {start}, literal {literal}")
            }
            Node::Set(operator, column, Run { start, count }) => {
                let (number, byte) = (operator.number(), column.start);
                write!(
                    f,
                    "operator {number} on byte {byte}, {count} literals from {start}"
                )
            }
        }
    }
}

impl fmt::Display for Form<'_> {
    fn fmt<W: fmt::Write>(&self, f: &mut fmt::Formatter<W>) -> fmt::Result {
        match self {
            Form::Constant(value) => write!(f, "{value}"),
            Form::Join(Connective::And, l, r) => write!(f, "{l} and {r}"),
            Form::Join(Connective::Or, l, r) => write!(f, "{l} or {r}"),
            Form::Not(i) => write!(f, "not {i}"),
            Form::Condition(condition) => {
                let (operator, column) = (condition.operator, condition.column);
                write!(f, "operator at {operator} on column {column}, offers")?;
                for place in condition.kept.as_slice() {
                    write!(f, " {place}")?;
                }
                Ok(())
            }
        }
    }
}

impl fmt::Display for Difference<'_> {
    fn fmt<W: fmt::Write>(&self, f: &mut fmt::Formatter<W>) -> fmt::Result {
        match *self {
            Difference::Answer { expected, found } => {
                let (expected, found) = (Shown(expected), Shown(found));
                write!(f, "expected {expected}, found {found}")
            }
            Difference::Nodes { expected, found } => {
                write!(f, "expected {expected} nodes, found {found}")
            }
            Difference::Literals { expected, found } => {
                write!(f, "expected {expected} literals, found {found}")
            }
            Difference::Written => f.write_str("the refused call wrote to the tables"),
            Difference::Tail { cell } => write!(f, "the unused cell {cell} was written"),
            Difference::Literal { cell } => write!(
                f,
                "another literal than expected in cell {cell}"
            ),
            Difference::Mark {
                node,
                expected,
                found,
            } => {
                let (expected, found) = (mark_name(expected), mark_name(found));
                write!(f, "node {node}: expected {expected}, found {found}")
            }
            Difference::Node {
                node,
                expected,
                found,
            } => {
                let found = ShownNode(found);
                write!(f, "node {node}: expected {expected}, found {found}")
            }
            Difference::Meaning {
                node,
                expected,
                found,
            } => match found {
                Some(found) => write!(f, "filter {node}: expected {expected:x}, found {found:x}"),
                None => write!(f, "filter {node}: expected {expected:x}, found no meaning"),
            },
            Difference::Standing { node, expected } => {
                write!(f, "filter {node}: standing should be {expected}")
            }
            Difference::NotLeft { node } => write!(f, "a Not is left at {node}"),
            Difference::ConstantInside { node } => write!(f, "a constant is left inside at {node}"),
            Difference::Unsound { node } => write!(f, "node {node} is unsound"),
        }
    }
}
