// Edits of the filters in a table: striking, negating and rewriting them in place.
ghost use Rattle.std.specs.Prelude.{◌≡◌, ◌<◌, length};
ghost use Rattle.filters.specs.Placed.{root, negated_placed, rewritten_placed};
ghost use Rattle.nodes.specs.Conditions.{opposite};
ghost use Rattle.nodes.specs.Tables.{form, filter_at};
ghost use Rattle.nodes.specs.Filters.{Whole, constant_of};
ghost use Rattle.book.specs.Edits.{struck, negation, side_if, joined, folding, rewriting, join};

use nodes::slots::{Mark, Node, Slot};

#[derive(Clone, Copy, PartialEq, Eq)]
pub enum Connective {
    And,
    Or,
}

// What a join keeps of its sides.
#[derive(Clone, Copy)]
pub enum Keep {
    First,
    Second,
    Both,
}

// Strikes the filter whole. `Whole` is of a table and a number: an edit keeps it for other filters too, as no type of one can.
pub fn strike<T: Copy>(slots: &mut [Slot<T>], at: u16)
    requires { Whole slots.old at }
    ensures strikes_each_node { slots.new ≡ struck (filter_at slots.old at) slots.old }
{
    let i = at as usize;
    slots[i].mark = Mark::Struck;
    match slots[i].node {
        Node::And(l, r) | Node::Or(l, r) => {
            strike(slots, l);
            strike(slots, r);
        }
        Node::Not(x) => strike(slots, x),
        _ => {}
    }
}

// Negates the filter in place, and answers where it then is. `Whole`: as at `strike`.
pub fn flip<T: Copy>(slots: &mut [Slot<T>], at: u16) -> u16
    requires { Whole slots.old at }
    ensures answers_the_root { result ≡ root (negated_placed opposite (filter_at slots.old at)) }
    ensures negates_in_place { slots.new ≡ negation (filter_at slots.old at) slots.old }
{
    let i = at as usize;
    slots[i].node = match slots[i].node {
        Node::AlwaysTrue => Node::AlwaysFalse,
        Node::AlwaysFalse => Node::AlwaysTrue,
        Node::And(l, r) => Node::Or(flip(slots, l), flip(slots, r)),
        Node::Or(l, r) => Node::And(flip(slots, l), flip(slots, r)),
        Node::Not(x) => {
            slots[i].mark = Mark::Struck;
            return x;
        }
        Node::Unary(op, term) => Node::Unary(op.negate(), term),
        Node::Binary(op, term, literal) => Node::Binary(op.negate(), term, literal),
        Node::Set(op, term, literals) => Node::Set(op.negate(), term, literals),
    };
    at
}

// The constant that a node is, if it is one.
fn constant<T: Copy>(node: Node<T>) -> Option<bool>
    ensures is_the_nodes { result ≡ constant_of (form node) }
{
    match node {
        Node::AlwaysTrue => Some(true),
        Node::AlwaysFalse => Some(false),
        _ => None,
    }
}

// Which side a join keeps, if joins fold.
pub fn keeps<T: Copy>(folds: bool, connective: Connective, l: Node<T>, r: Node<T>) -> Keep
    ensures goes_by_the_constants { result ≡ side_if folds connective (constant_of (form l)) (constant_of (form r)) }
{
    if !folds {
        return Keep::Both;
    }
    // the constant that is kept whatever stands beside it
    let decisive = connective == Connective::Or;
    match (constant(l), constant(r)) {
        (Some(side), _) if side == decisive => Keep::First,
        (Some(_), _) => Keep::Second,
        (None, Some(side)) if side == decisive => Keep::Second,
        (None, Some(_)) => Keep::First,
        (None, None) => Keep::Both,
    }
}

pub fn joining<T: Copy>(connective: Connective, l: u16, r: u16) -> Node<T>
    ensures is_the_join { result ≡ join connective l r }
{
    match connective {
        Connective::And => Node::And(l, r),
        Connective::Or => Node::Or(l, r),
    }
}

// Folds the join at a node in place, and answers where the filter then is. `Whole`: as at `strike`.
fn fold<T: Copy>(
    slots: &mut [Slot<T>],
    at: u16,
    folds: bool,
    connective: Connective,
    l: u16,
    r: u16,
) -> u16
    requires inside { at < length slots.old }
    requires left { Whole slots.old l }
    requires right { Whole slots.old r }
    ensures answers_the_root { result ≡ root (joined folds connective at (filter_at slots.old l) (filter_at slots.old r)) }
    ensures folds_in_place { slots.new ≡ folding folds connective at (filter_at slots.old l) (filter_at slots.old r) slots.old }
{
    let i = at as usize;
    let left = slots[l as usize].node;
    let right = slots[r as usize].node;
    let (kept, dropped) = match keeps(folds, connective, left, right) {
        Keep::First => (l, r),
        Keep::Second => (r, l),
        Keep::Both => {
            slots[i].node = joining(connective, l, r);
            return at;
        }
    };
    slots[i].mark = Mark::Struck;
    strike(slots, dropped);
    kept
}

// Rewrites the filter in place without Nots, and answers where it then is. `Whole`: as at `strike`. Whether joins fold is
// a flag that `keeps` alone reads: a closure would hide that the two rewritings differ in nothing else.
pub fn rewrite<T: Copy>(slots: &mut [Slot<T>], at: u16, folds: bool) -> u16
    requires { Whole slots.old at }
    ensures answers_the_root { result ≡ root (rewritten_placed folds opposite (filter_at slots.old at)) }
    ensures rewrites_in_place { slots.new ≡ rewriting folds (filter_at slots.old at) slots.old }
{
    let i = at as usize;
    let (connective, l, r) = match slots[i].node {
        Node::And(l, r) => (Connective::And, l, r),
        Node::Or(l, r) => (Connective::Or, l, r),
        Node::Not(x) => {
            let y = rewrite(slots, x, folds);
            slots[i].mark = Mark::Struck;
            return flip(slots, y);
        }
        _ => return at,
    };
    let left = rewrite(slots, l, folds);
    let right = rewrite(slots, r, folds);
    fold(slots, at, folds, connective, left, right)
}
