// Small tables for the cases.
use book::book::Book;
use nodes::operators::PredicateOperator;
use nodes::slots::{Mark, Node, Slot};
use values::kinds::Kind;
use values::literals::{Literal, Span, Value};
use values::refusals::Refused;

// A cell that no node uses.
pub const FREE: Slot<Span> = Slot {
    node: Node::AlwaysTrue,
    mark: Mark::Struck,
};

pub const NONE: Literal = Literal {
    kind: Kind::Boolean,
    value: Value::Boolean(false),
};

// Columns, each a letter of the text "abc".
pub const A: Span = Span { start: 0, len: 1 };

pub const B: Span = Span { start: 1, len: 1 };

pub const C: Span = Span { start: 2, len: 1 };

pub fn slot(mark: Mark, node: Node<Span>) -> Slot<Span> {
    Slot { node, mark }
}

pub fn long(n: i64) -> Literal {
    Literal {
        kind: Kind::Long,
        value: Value::Long(n),
    }
}

pub fn text(start: usize, len: usize) -> Literal {
    Literal {
        kind: Kind::String,
        value: Value::String(Span { start, len }),
    }
}

// A book whose first nodes and literals are in use.
pub fn book<'a>(
    slots: &'a mut [Slot<Span>],
    used: usize,
    literals: &'a mut [Literal],
    stored: usize,
) -> Book<'a, 'static, Span> {
    Book {
        slots,
        used,
        literals,
        stored,
        text: b"abc",
        places: &[],
    }
}

// Lays `name < n`.
pub fn below(book: &mut Book<'_, '_, Span>, name: Span, n: i64) -> Result<u16, Refused> {
    book.lay_binary(PredicateOperator::LessThan, name, long(n))
}

// Whether the node is the condition with that operator on that column and literal.
pub fn is_binary(node: Node<Span>, op: PredicateOperator, name: Span, literal: u16) -> bool {
    match node {
        Node::Binary(found, term, number) => {
            found.number() == op.number() && term.start == name.start && number == literal
        }
        _ => false,
    }
}

// The number of the operator, if the node is a condition.
pub fn operator_of(node: Node<Span>) -> Option<u16> {
    match node {
        Node::Unary(op, _) => Some(op.number()),
        Node::Binary(op, _, _) => Some(op.number()),
        Node::Set(op, _, _) => Some(op.number()),
        _ => None,
    }
}

pub fn is_long(literal: Literal, n: i64) -> bool {
    matches!(literal.value, Value::Long(found) if found == n)
}

// The number and the place of a refusal.
pub fn refused(answer: Result<u16, Refused>) -> Option<(u8, usize)> {
    match answer {
        Ok(_) => None,
        Err(refused) => Some((refused.reason.number(), refused.place)),
    }
}
