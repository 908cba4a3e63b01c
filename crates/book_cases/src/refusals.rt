// When calls are refused, in which order, and at which place.
use crate::tables::{A, B, FREE, NONE, below, book, is_long, long, refused, slot, text};
use nodes::operators::PredicateOperator;
use nodes::slots::{Mark, Node, Slot};
use values::kinds::Kind;
use values::literals::{Literal, Span, Value};

const STANDING: Slot<Span> = Slot {
    node: Node::AlwaysTrue,
    mark: Mark::Standing,
};

// An int kept as a long.
const MISKEPT: Literal = Literal {
    kind: Kind::Int,
    value: Value::Long(1),
};

// Two bytes under a fixed of three.
const SHORT: Literal = Literal {
    kind: Kind::Fixed(3),
    value: Value::Binary(Span { start: 0, len: 2 }),
};

const EXTREME: Literal = Literal {
    kind: Kind::Long,
    value: Value::AboveMax,
};

#[test]
fn unsound_before_all_else(rt: HostRuntime) {
    let mut slots = [STANDING, slot(Mark::Joined, Node::AlwaysTrue), FREE];
    let mut literals = [NONE];
    let mut book = book(&mut slots, 2, &mut literals, 0);
    assert_eq!(rt; refused(book.and(9, 9)), Some((16, 1)));
    assert_eq!(rt; refused(book.lay_constant(true)), Some((16, 1)));
    assert_eq!(rt; refused(book.rewrite_not(9)), Some((16, 1)));
    assert_eq!(rt;
        refused(below(&mut book, Span { start: 9, len: 9 }, 1)),
        Some((16, 1))
    );
}

#[test]
fn filters_that_do_not_stand(rt: HostRuntime) {
    let mut slots = [
        slot(Mark::Joined, Node::AlwaysTrue),
        slot(Mark::Standing, Node::Not(0)),
        slot(Mark::Struck, Node::AlwaysTrue),
        FREE,
    ];
    let mut literals = [NONE];
    let mut book = book(&mut slots, 3, &mut literals, 0);
    assert_eq!(rt; refused(book.not(0)), Some((1, 0)));
    assert_eq!(rt; refused(book.negate(2)), Some((1, 2)));
    assert_eq!(rt;
        refused(book.rewrite_not(3)),
        Some((1, 3)),
        "past those in use"
    );
    assert_eq!(rt; refused(book.and(2, 0)), Some((1, 2)), "the left first");
    assert_eq!(rt; refused(book.or(1, 0)), Some((1, 0)));
    assert_eq!(rt;
        refused(book.and(0, 0)),
        Some((1, 0)),
        "before one filter twice"
    );
    assert_eq!(rt; refused(book.and(1, 1)), Some((2, 1)));
    assert!(rt; book.stands(1) && book.used == 3);
}

#[test]
fn conditions_at_fault(rt: HostRuntime) {
    // no node is left: that comes after each of these
    let mut slots = [STANDING; 1];
    let mut literals = [NONE; 1];
    let mut book = book(&mut slots, 1, &mut literals, 0);
    let past = Span { start: 3, len: 1 };
    assert_eq!(rt;
        refused(book.lay_unary(PredicateOperator::Eq, past)),
        Some((3, 0))
    );
    assert_eq!(rt;
        refused(book.lay_unary(PredicateOperator::IsNull, past)),
        Some((5, 0))
    );
    assert_eq!(rt;
        refused(book.lay_set(PredicateOperator::In, past, &[MISKEPT])),
        Some((5, 0)),
        "the name before the literals"
    );
    assert_eq!(rt;
        refused(book.lay_set(PredicateOperator::In, A, &[long(1), MISKEPT, text(3, 1)])),
        Some((5, 2)),
        "every text before any storage"
    );
    assert_eq!(rt;
        refused(book.lay_set(PredicateOperator::In, A, &[long(1), MISKEPT])),
        Some((4, 1))
    );
    assert_eq!(rt;
        refused(book.lay_binary(PredicateOperator::In, A, MISKEPT)),
        Some((3, 0)),
        "the family before the storage"
    );
    for literal in [MISKEPT, SHORT, EXTREME] {
        assert_eq!(rt;
            refused(book.lay_binary(PredicateOperator::Eq, A, literal)),
            Some((4, 0))
        );
    }
    assert_eq!(rt;
        refused(book.lay_binary(PredicateOperator::Eq, A, long(1))),
        Some((12, 0))
    );
    assert!(rt; book.used == 1 && book.stored == 0);
}

#[test]
fn no_room(rt: HostRuntime) {
    let mut slots = [FREE; 2];
    let mut literals = [NONE; 2];
    let mut book = book(&mut slots, 0, &mut literals, 0);
    let three = [long(1), long(2), long(3)];
    assert_eq!(rt;
        refused(book.lay_set(PredicateOperator::In, A, &three)),
        Some((13, 0))
    );
    assert!(rt; book.used == 0 && book.stored == 0);
    assert_eq!(rt;
        refused(book.lay_set(PredicateOperator::In, A, &[long(1), long(2), long(1)])),
        None,
        "those kept fit"
    );
    assert_eq!(rt; refused(below(&mut book, B, 1)), Some((13, 0)));
    assert_eq!(rt; refused(book.lay_set(PredicateOperator::In, B, &[])), None);
    assert_eq!(rt;
        refused(below(&mut book, B, 1)),
        Some((12, 0)),
        "nodes before literals"
    );
    assert_eq!(rt; refused(book.and(0, 1)), Some((12, 0)));
    assert_eq!(rt; refused(book.not(0)), Some((12, 0)));
    assert!(rt; book.stands(0) && book.stands(1));
    assert!(rt; is_long(literals[0], 1));
}

#[test]
fn node_257(rt: HostRuntime) {
    let mut slots = [STANDING; 300];
    let mut literals = [NONE; 1];
    let mut book = book(&mut slots, 256, &mut literals, 0);
    assert_eq!(rt; refused(book.lay_constant(true)), Some((12, 0)));
    assert_eq!(rt; refused(book.not(7)), Some((12, 0)));
    assert!(rt;
        matches!(book.and(7, 8), Ok(8)),
        "a constant is joined all the same"
    );
    assert!(rt; !book.stands(7) && book.stands(8));
    assert!(rt;
        matches!(slots[256].mark, Mark::Standing),
        "the unused tail stays"
    );
}
