// The walk over a bound filter, for every visitor.
ghost use Rattle.std.specs.Prelude.{◌≡◌, ◌<◌, ◌≤◌, length, nat_le};
ghost use Rattle.nodes.specs.Filters.{Whole};
ghost use Rattle.nodes.specs.Tables.{nodes as nodes_of, filter_at};
ghost use Rattle.columns.specs.Bound.{within, bound_of, cells_at};
ghost use Rattle.book.specs.Calls.{granted};
ghost use Rattle.book.specs.Ways.{tables, setting};
ghost use Rattle.walk.specs.Faults.{at_node};
ghost use Rattle.walk.specs.Tests.{tested, tested_by};
ghost use Rattle.walk.specs.Steps.{waiting, turned, visiting, awaiting, resuming, remaining, lent};
ghost use Rattle.walk.specs.Visits.{visited, size, barred_walk, walk_of, TellsWhatIsMeant};

use crate::conditions::Test;
use crate::faults::Fault;
use crate::frames::{Frame, Join, Stack, Turn};
use crate::visitor::Visitor;
use book::book::Book;
use columns::column::Column;
use columns::runs::cells;
use nodes::operators::PredicateOperator;
use nodes::slots::{Node, Run, Slot};
use values::refusals::{Reason, Refused};

// Whether the table has a frame for each node of the filter: the nodes still to be counted wait in it, as frames of theirs.
fn fits<T: Copy>(slots: &[Slot<Column>], n: u16, work: &mut [Frame<T>]) -> bool
    requires { Whole slots.now n }
    ensures counts_its_nodes { result ≡ nat_le (size (filter_at slots.now n)) (length work.old) }
{
    let mut rest = work.len();
    let mut stack = Stack {
        frames: work,
        count: 0,
    };
    let mut at = n;
    'nodes: loop {
        if rest == 0 {
            return false;
        }
        rest -= 1;
        let node = slots[at as usize].node;
        at = match node {
            Node::And(l, r) | Node::Or(l, r) => {
                stack.push(Frame::Not(r));
                l
            }
            Node::Not(i) => i,
            _ => match stack.pop() {
                Some(frame) => frame.node(),
                None => return true,
            },
        };
    }
}

// Refuses unsound tables, a filter that does not stand, and a working table with fewer frames than the filter has nodes.
fn check<T: Copy>(book: &Book<'_, '_, Column>, n: u16, work: &mut [Frame<T>]) -> Result<(), Refused>
    ensures asks_in_order { result ≡ granted (barred_walk (setting within book.now) (tables book.now) n (length work.old)) tt }
{
    if let Some(at) = book.unsound() {
        return Err(Reason::UnsoundTables.at(at as usize));
    }
    if !book.stands(n) {
        return Err(Reason::NoFilter.at(n as usize));
    }
    if fits(book.slots, n, work) {
        Ok(())
    } else {
        Err(Reason::WorkingTableTooShort.at(0))
    }
}

// A condition, as it is lent to a visitor.
fn lend<'b>(
    book: &'b Book<'_, '_, Column>,
    op: PredicateOperator,
    column: Column,
    literals: Run,
) -> Test<'b>
    ensures is_the_condition { tested result ≡ tested_by book.now.text.now op (bound_of book.now.places.now column) (cells_at book.now.literals.now literals) }
{
    Test {
        op,
        field: column.field,
        kind: column.kind,
        places: column.places_in(book.places),
        mandatory: column.mandatory,
        literals: cells(book.literals, literals),
        text: book.text,
    }
}

// An answer for what waits, or the fault refused at its node.
fn answered<T: Copy>(node: u16, answer: Result<T, Fault>) -> Result<Turn<T>, Refused>
    ensures is_refused_at_the_node { result ≡ turned (at_node node answer) }
{
    match answer {
        Ok(answer) => Ok(Turn::Answer(answer)),
        Err(fault) => Err(fault.reason().at(node as usize)),
    }
}

// Visits a node: what has inputs waits for them.
fn visit<V: Visitor>(
    book: &Book<'_, '_, Column>,
    at: u16,
    visitor: &V,
    stack: &mut Stack<'_, V::Answer>,
) -> Result<Turn<V::Answer>, Refused>
    requires inside { at < length book.now.slots.now }
    requires room { stack.old.count < length stack.old.frames.now }
    ensures goes_by_the_node { result ≡ visiting (V.meaning visitor.now) (lent book.now.places.now book.now.text.now book.now.literals.now) at (nodes_of book.now.slots.now at) }
    ensures waits_for_inputs { waiting stack.new ≡ awaiting at (nodes_of book.now.slots.now at) (waiting stack.old) }
    ensures keeps_the_table { length stack.new.frames.now ≡ length stack.old.frames.now }
{
    let test = match book.slots[at as usize].node {
        Node::AlwaysTrue => return answered(at, visitor.constant(true)),
        Node::AlwaysFalse => return answered(at, visitor.constant(false)),
        Node::And(l, r) => {
            stack.push(Frame::Left(at, Join::And, r));
            return Ok(Turn::Visit(l));
        }
        Node::Or(l, r) => {
            stack.push(Frame::Left(at, Join::Or, r));
            return Ok(Turn::Visit(l));
        }
        Node::Not(i) => {
            stack.push(Frame::Not(at));
            return Ok(Turn::Visit(i));
        }
        Node::Unary(op, column) => lend(book, op, column, Run { start: 0, count: 0 }),
        Node::Binary(op, column, literal) => {
            let literals = Run {
                start: literal,
                count: 1,
            };
            lend(book, op, column, literals)
        }
        Node::Set(op, column, literals) => lend(book, op, column, literals),
    };
    answered(at, visitor.condition(&test))
}

// Goes on with what waited for the answer.
fn resume<V: Visitor>(
    frame: Frame<V::Answer>,
    answer: V::Answer,
    visitor: &V,
    stack: &mut Stack<'_, V::Answer>,
) -> Result<Turn<V::Answer>, Refused>
    requires room { stack.old.count < length stack.old.frames.now }
    ensures goes_by_the_frame { result ≡ resuming (V.meaning visitor.now) answer frame }
    ensures waits_for_the_right { waiting stack.new ≡ remaining answer frame (waiting stack.old) }
    ensures keeps_the_table { length stack.new.frames.now ≡ length stack.old.frames.now }
{
    match frame {
        Frame::Left(node, join, right) => {
            stack.push(Frame::Right(node, join, answer));
            Ok(Turn::Visit(right))
        }
        Frame::Right(node, Join::And, left) => answered(node, visitor.and(left, answer)),
        Frame::Right(node, Join::Or, left) => answered(node, visitor.or(left, answer)),
        Frame::Not(node) => answered(node, visitor.not(answer)),
    }
}

// Turn by turn, from the filter's top node until nothing waits.
fn run<V: Visitor>(
    book: &Book<'_, '_, Column>,
    n: u16,
    visitor: &V,
    work: &mut [Frame<V::Answer>],
) -> Result<V::Answer, Refused>
    requires whole { Whole book.now.slots.now n }
    requires room { size (filter_at book.now.slots.now n) ≤ length work.old }
    ensures visits_the_filter { result ≡ visited (V.meaning visitor.now) (lent book.now.places.now book.now.text.now book.now.literals.now) (filter_at book.now.slots.now n) }
{
    let mut stack = Stack {
        frames: work,
        count: 0,
    };
    let mut turn = Turn::Visit(n);
    'turns: loop {
        turn = match turn {
            Turn::Visit(at) => visit(book, at, visitor, &mut stack)?,
            Turn::Answer(answer) => match stack.pop() {
                Some(frame) => resume(frame, answer, visitor, &mut stack)?,
                None => return Ok(answer),
            },
        };
    }
}

// Walks over the filter: its nodes alone, left, right, then the join, up to the first fault. The book is only read; the
// working table may hold anything before and after.
pub fn walk<V: Visitor>(
    book: &Book<'_, '_, Column>,
    n: u16,
    visitor: &V,
    work: &mut [Frame<V::Answer>],
) -> Result<V::Answer, Refused>
    ensures goes_by_the_rules { result ≡ walk_of (V.meaning visitor.now) book.now.places.now (setting within book.now) (tables book.now) n (length work.old) }
    ensures tells_what_the_filter_means { TellsWhatIsMeant (V.meaning visitor.now) book.now.places.now (setting within book.now) (tables book.now) n (length work.old) result }
{
    check(book, n, work)?;
    run(book, n, visitor, work)
}
