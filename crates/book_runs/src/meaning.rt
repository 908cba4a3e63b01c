// What the filters in a book's tables mean, read from the tables alone.
use crate::offers::{column_place, operator_place, place_of};
use crate::tables::Tables;
use crate::wording::{Connective, by_operator, of_constant, on_column, with_literal};
use nodes::operators::PredicateOperator;
use nodes::slots::{Node, Run};
use std::alloc::{AllocError, Global};
use values::literals::{Literal, Span};

// Some cells of a table of literals, if all are there.
pub fn cells(literals: &[Literal], start: u16, count: u16) -> Option<&[Literal]> {
    let from = start as usize;
    let to = from.saturating_add(count as usize);
    literals.get(from..to)
}

fn of_condition(operator: PredicateOperator, column: Span, literals: &[Literal]) -> Option<u64> {
    let operator = operator_place(operator)?;
    let mut truth = on_column(column_place(column)?, operator);
    for literal in literals {
        truth = with_literal(truth, place_of(*literal)?);
    }
    Some(by_operator(truth, operator))
}

// What a node means over those below it.
fn of_node(below: &[Option<u64>], literals: &[Literal], node: Node<Span>) -> Option<u64> {
    let input = |n: u16| below.get(n as usize).copied().flatten();
    match node {
        Node::AlwaysTrue => Some(of_constant(true)),
        Node::AlwaysFalse => Some(of_constant(false)),
        Node::And(l, r) => Some(Connective::And.joined(input(l)?, input(r)?)),
        Node::Or(l, r) => Some(Connective::Or.joined(input(l)?, input(r)?)),
        Node::Not(i) => Some(!input(i)?),
        Node::Unary(operator, column) => of_condition(operator, column, &[]),
        Node::Binary(operator, column, literal) => {
            of_condition(operator, column, cells(literals, literal, 1)?)
        }
        Node::Set(operator, column, Run { start, count }) => {
            of_condition(operator, column, cells(literals, start, count)?)
        }
    }
}

// What each node means, inputs first; a node whose inputs are not below it means nothing.
pub fn meanings(alloc: Global, tables: &Tables) -> Result<Vec<Option<u64>>, AllocError> {
    let mut meanings = Vec::new(alloc);
    for slot in tables.slots.iter().take(tables.used) {
        let meaning = of_node(meanings.as_slice(), tables.literals.as_slice(), slot.node);
        meanings.push(meaning)?;
    }
    Ok(meanings)
}

// The nodes of the filter at a number, from the top down.
pub fn nodes_of(
    alloc: Global,
    tables: &Tables,
    top: u16,
) -> Result<Vec<(usize, Node<Span>)>, AllocError> {
    let mut wanted = Vec::new(alloc);
    let mut found = Vec::new(alloc);
    wanted.push(top)?;
    for (number, slot) in tables.slots.iter().enumerate().rev() {
        if !wanted.iter().any(|n| *n as usize == number) {
            continue;
        }
        found.push((number, slot.node))?;
        match slot.node {
            Node::And(l, r) | Node::Or(l, r) => {
                wanted.push(l)?;
                wanted.push(r)?;
            }
            Node::Not(i) => wanted.push(i)?,
            _ => {}
        }
    }
    Ok(found)
}
