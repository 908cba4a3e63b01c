// Each test walks filters of one table, with a visitor that answers truths, and looks at what comes.
ghost use Rattle.walk_cases.specs.Truths.{truths};

use book::book::Book;
use columns::column::Column;
use nodes::operators::PredicateOperator;
use nodes::slots::{Mark, Node, Run, Slot};
use values::kinds::Kind;
use values::literals::{Literal, Value};
use values::refusals::{Reason, Refused};
use walk::conditions::Test;
use walk::faults::Fault;
use walk::frames::Frame;
use walk::visitor::Visitor;
use walk::walks::walk;

struct Truths;

impl Visitor for Truths {
    type Answer = bool;

    ghost meaning = { λ _. truths };

    fn constant(&self, value: bool) -> Result<bool, Fault> {
        Ok(value)
    }

    fn condition(&self, test: &Test) -> Result<bool, Fault> {
        if test.op.is_binary() {
            return Err(Fault::NoValue);
        }
        match test.op {
            PredicateOperator::IsNull => Ok(false),
            PredicateOperator::NotNull => Ok(true),
            PredicateOperator::IsNan => Err(Fault::Own(test.field)),
            PredicateOperator::In | PredicateOperator::NotIn => Ok(test.literals.len() == 2),
            _ => Err(Fault::NotMet),
        }
    }

    fn and(&self, left: bool, right: bool) -> Result<bool, Fault> {
        Ok(left && right)
    }

    fn or(&self, left: bool, right: bool) -> Result<bool, Fault> {
        Ok(left || right)
    }

    fn not(&self, answer: bool) -> Result<bool, Fault> {
        Ok(!answer)
    }
}

fn unary(op: PredicateOperator, field: u32) -> Node<Column> {
    let column = Column {
        field,
        kind: Kind::Float,
        places: Run { start: 0, count: 1 },
        mandatory: true,
    };
    Node::Unary(op, column)
}

fn standing(node: Node<Column>) -> Slot<Column> {
    Slot {
        node,
        mark: Mark::Standing,
    }
}

fn joined(node: Node<Column>) -> Slot<Column> {
    Slot {
        node,
        mark: Mark::Joined,
    }
}

// The walk over the filter at the number, with so many frames, eight at most.
fn walked(slots: &mut [Slot<Column>], n: u16, room: usize) -> Result<bool, Refused> {
    let mut literals = [Literal {
        kind: Kind::Int,
        value: Value::Int(7),
    }; 2];
    let used = slots.len();
    let book = Book {
        slots,
        used,
        literals: &mut literals,
        stored: 2,
        text: b"",
        places: &[0],
    };
    let mut work = [Frame::Not(0); 8];
    walk(&book, n, &Truths, &mut work[..room.min(8)])
}

fn is_refused(outcome: Result<bool, Refused>, reason: Reason, place: usize) -> bool {
    match outcome {
        Ok(_) => false,
        Err(refused) => refused.reason == reason && refused.place == place,
    }
}

#[test]
fn answers_of_the_filter(rt: HostRuntime) {
    let mut slots = [
        joined(unary(PredicateOperator::NotNull, 1)),
        joined(unary(PredicateOperator::IsNull, 2)),
        joined(Node::Not(1)),
        standing(Node::And(0, 2)),
        standing(unary(PredicateOperator::IsNan, 3)),
        standing(Node::AlwaysFalse),
    ];
    assert!(rt;
        matches!(walked(&mut slots, 3, 4), Ok(true)),
        "no other filter is asked"
    );
    assert!(rt; matches!(walked(&mut slots, 5, 1), Ok(false)));
    let own = Reason::VisitorFault { fault: 3 };
    assert!(rt; is_refused(walked(&mut slots, 4, 8), own, 4));
}

#[test]
fn faults_from_the_left(rt: HostRuntime) {
    let mut slots = [
        joined(unary(PredicateOperator::NotNull, 1)),
        joined(unary(PredicateOperator::IsNan, 2)),
        joined(unary(PredicateOperator::NotNan, 3)),
        joined(Node::Or(0, 1)),
        standing(Node::And(3, 2)),
    ];
    let own = Reason::VisitorFault { fault: 2 };
    assert!(rt;
        is_refused(walked(&mut slots, 4, 5), own, 1),
        "the right side is asked whatever the left one answers"
    );
    slots[4].node = Node::And(2, 3);
    assert!(rt; is_refused(walked(&mut slots, 4, 5), Reason::NotMet, 2));
}

#[test]
fn literals_are_lent(rt: HostRuntime) {
    let Node::Unary(_, column) = unary(PredicateOperator::IsNull, 1) else {
        return;
    };
    let two = Run { start: 0, count: 2 };
    let one = Run { start: 1, count: 1 };
    let mut slots = [
        standing(Node::Set(PredicateOperator::In, column, two)),
        standing(Node::Set(PredicateOperator::NotIn, column, one)),
        standing(Node::Binary(PredicateOperator::Eq, column, 1)),
    ];
    assert!(rt; matches!(walked(&mut slots, 0, 1), Ok(true)));
    assert!(rt; matches!(walked(&mut slots, 1, 1), Ok(false)));
    assert!(rt; is_refused(walked(&mut slots, 2, 1), Reason::NoValue, 2));
}

#[test]
fn refusals_in_order(rt: HostRuntime) {
    let mut slots = [
        joined(unary(PredicateOperator::IsNan, 1)),
        joined(Node::AlwaysTrue),
        standing(Node::Or(0, 1)),
    ];
    let own = Reason::VisitorFault { fault: 1 };
    assert!(rt; is_refused(walked(&mut slots, 2, 3), own, 0));
    assert!(rt; is_refused(walked(&mut slots, 2, 2), Reason::WorkingTableTooShort, 0));
    assert!(rt; is_refused(walked(&mut slots, 1, 0), Reason::NoFilter, 1));
    assert!(rt; is_refused(walked(&mut slots, 3, 0), Reason::NoFilter, 3));
    slots[0].mark = Mark::Standing;
    assert!(rt; is_refused(walked(&mut slots, 1, 0), Reason::UnsoundTables, 0));
}
