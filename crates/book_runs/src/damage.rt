// Damage done to sound tables from outside.
use crate::chance::Chance;
use crate::laid::{Form, Part};
use crate::ledger::Ledger;
use crate::offers::{COLUMNS, COLUMNS_INSIDE};
use crate::tables::Tables;
use nodes::operators::PredicateOperator;
use nodes::slots::{Mark, Node, Run, Slot};
use values::kinds::Kind;
use values::literals::{Literal, Span, Value};

const PAST_THE_END: Literal = Literal {
    kind: Kind::String,
    value: Value::String(Span { start: 0, len: 29 }),
};

// The lowest input, or the node itself.
fn lowest_of(part: Part<'_>) -> u16 {
    match part.form {
        Form::Join(_, l, r) => l.min(r),
        Form::Not(i) => i,
        _ => part.number,
    }
}

fn is_leaf(part: Part<'_>) -> bool {
    matches!(part.form, Form::Constant(_) | Form::Condition(_))
}

fn set(tables: &mut Tables, number: u16, slot: Slot<Span>) {
    if let Some(cell) = tables.slots.get_mut(number as usize) {
        *cell = slot;
    }
}

// The condition over another column.
fn over(node: Node<Span>, column: Span) -> Option<Node<Span>> {
    match node {
        Node::Unary(operator, _) => Some(Node::Unary(operator, column)),
        Node::Binary(operator, _, literal) => Some(Node::Binary(operator, column, literal)),
        Node::Set(operator, _, run) => Some(Node::Set(operator, column, run)),
        _ => None,
    }
}

// The condition with a literal that is not stored.
fn past(node: Node<Span>, stored: u16) -> Option<Node<Span>> {
    match node {
        Node::Binary(operator, column, _) => Some(Node::Binary(operator, column, stored)),
        Node::Set(operator, column, Run { count, .. }) => {
            let run = Run {
                start: stored,
                count: count.saturating_add(1),
            };
            Some(Node::Set(operator, column, run))
        }
        _ => None,
    }
}

// The condition with an operator of another family.
fn misnamed(node: Node<Span>) -> Option<Node<Span>> {
    match node {
        Node::Unary(_, column) => Some(Node::Unary(PredicateOperator::In, column)),
        Node::Binary(_, column, n) => Some(Node::Binary(PredicateOperator::NotNan, column, n)),
        Node::Set(_, column, run) => Some(Node::Set(PredicateOperator::NotStartsWith, column, run)),
        _ => None,
    }
}

fn first_literal(node: Node<Span>) -> Option<u16> {
    match node {
        Node::Binary(_, _, literal) => Some(literal),
        Node::Set(_, _, Run { start, count }) if count != 0 => Some(start),
        _ => None,
    }
}

// Damages a node of a standing filter, and answers the lowest node that is then unsound.
fn damage_part(chance: &mut Chance, tables: &mut Tables, part: Part<'_>) -> Option<u16> {
    let number = part.number;
    let Slot { node, mark } = tables.slots.get(number as usize).copied()?;
    let (slot, lowest) = match chance.below(8) {
        0 => {
            let mark = if part.is_standing {
                Mark::Joined
            } else {
                Mark::Standing
            };
            (Slot { node, mark }, number)
        }
        // a standing leaf may be struck: it has no inputs that then lack a parent
        1 if part.is_standing && is_leaf(part) => return None,
        1 => {
            let mark = Mark::Struck;
            (Slot { node, mark }, lowest_of(part))
        }
        2 => {
            let node = Node::Not(number);
            (Slot { node, mark }, lowest_of(part))
        }
        3 if number == 0 || !is_leaf(part) => return None,
        3 => {
            let below = u16::try_from(chance.below(number as usize)).ok()?;
            let node = Node::Not(below);
            (Slot { node, mark }, below)
        }
        4 => {
            let node = misnamed(node)?;
            (Slot { node, mark }, number)
        }
        5 => {
            let node = over(node, COLUMNS.get(COLUMNS_INSIDE).copied()?)?;
            (Slot { node, mark }, number)
        }
        6 => {
            let node = past(node, u16::try_from(tables.stored).ok()?)?;
            (Slot { node, mark }, number)
        }
        _ => {
            let cell = first_literal(node)?;
            *tables.literals.get_mut(cell as usize)? = PAST_THE_END;
            (Slot { node, mark }, number)
        }
    };
    set(tables, number, slot);
    Some(lowest)
}

// Damages the tables, and answers the lowest node that is then unsound; nothing where they stay sound.
pub fn damage(
    chance: &mut Chance,
    tables: &mut Tables,
    ledger: &Ledger,
    parts: &[Part<'_>],
) -> Option<usize> {
    let used = ledger.used();
    match chance.below(12) {
        0 => {
            tables.used = used.saturating_add(1);
            Some(used)
        }
        1 => {
            tables.stored = ledger.literal_room().saturating_add(1);
            Some(used)
        }
        2 => {
            let place = chance.below(used);
            let number = u16::try_from(place).ok()?;
            if place >= used || parts.iter().any(|part| part.number == number) {
                return None;
            }
            let (node, mark) = (Node::AlwaysTrue, Mark::Joined);
            set(tables, number, Slot { node, mark });
            Some(place)
        }
        _ => {
            let part = chance.pick(parts)?;
            Some(damage_part(chance, tables, part)? as usize)
        }
    }
}
