// Each way in which tables are unsound, and the node that is named.
use crate::tables::{A, NONE, book, long, slot};
use nodes::operators::PredicateOperator;
use nodes::slots::{Mark, Node, Run, Slot};
use values::kinds::Kind;
use values::literals::{Literal, Span, Value};

const JOINED: Slot<Span> = Slot {
    node: Node::AlwaysTrue,
    mark: Mark::Joined,
};

const STANDING: Slot<Span> = Slot {
    node: Node::AlwaysTrue,
    mark: Mark::Standing,
};

const STRUCK: Slot<Span> = Slot {
    node: Node::AlwaysTrue,
    mark: Mark::Struck,
};

// The unsound node of tables in which every node is used, beside one literal.
fn unsound<const N: usize>(mut slots: [Slot<Span>; N]) -> Option<u16> {
    let mut literals = [long(1)];
    book(&mut slots, N, &mut literals, 1).unsound()
}

#[test]
fn sound_tables(rt: HostRuntime) {
    assert_eq!(rt; unsound::<0>([]), None);
    assert_eq!(rt; unsound([STANDING, STRUCK]), None);
    assert_eq!(rt; unsound([JOINED, slot(Mark::Standing, Node::Not(0))]), None);
    assert_eq!(rt;
        unsound([
            JOINED,
            slot(Mark::Struck, Node::Not(0)),
            slot(Mark::Standing, Node::Not(0))
        ]),
        None,
        "a struck parent does not count"
    );
}

#[test]
fn child_not_below(rt: HostRuntime) {
    assert_eq!(rt; unsound([slot(Mark::Standing, Node::Not(0))]), Some(0));
    assert_eq!(rt;
        unsound([JOINED, slot(Mark::Standing, Node::And(0, 2)), JOINED]),
        Some(1)
    );
    assert_eq!(rt;
        unsound([STANDING, slot(Mark::Struck, Node::Or(1, 0))]),
        Some(1)
    );
}

#[test]
fn two_parents(rt: HostRuntime) {
    assert_eq!(rt;
        unsound([
            JOINED,
            slot(Mark::Standing, Node::Not(0)),
            slot(Mark::Standing, Node::Not(0))
        ]),
        Some(0)
    );
    assert_eq!(rt;
        unsound([JOINED, slot(Mark::Standing, Node::And(0, 0))]),
        Some(0)
    );
}

#[test]
fn mark_that_the_parents_belie(rt: HostRuntime) {
    assert_eq!(rt;
        unsound([STANDING, JOINED]),
        Some(1),
        "joined without a parent"
    );
    assert_eq!(rt;
        unsound([JOINED, slot(Mark::Struck, Node::Not(0))]),
        Some(0),
        "a struck parent is none"
    );
    assert_eq!(rt;
        unsound([STANDING, slot(Mark::Standing, Node::Not(0))]),
        Some(0)
    );
    assert_eq!(rt;
        unsound([STRUCK, slot(Mark::Standing, Node::Not(0))]),
        Some(0)
    );
}

#[test]
fn operator_of_another_family(rt: HostRuntime) {
    let unary = |op| slot(Mark::Standing, Node::Unary(op, A));
    let binary = |op| slot(Mark::Standing, Node::Binary(op, A, 0));
    let set = |op| slot(Mark::Standing, Node::Set(op, A, Run { start: 0, count: 1 }));
    assert_eq!(rt; unsound([unary(PredicateOperator::NotNan)]), None);
    assert_eq!(rt; unsound([unary(PredicateOperator::LessThan)]), Some(0));
    assert_eq!(rt; unsound([binary(PredicateOperator::NotStartsWith)]), None);
    assert_eq!(rt; unsound([binary(PredicateOperator::NotNan)]), Some(0));
    assert_eq!(rt; unsound([binary(PredicateOperator::In)]), Some(0));
    assert_eq!(rt; unsound([set(PredicateOperator::NotIn)]), None);
    assert_eq!(rt; unsound([STANDING, set(PredicateOperator::Eq)]), Some(1));
}

#[test]
fn places_outside(rt: HostRuntime) {
    let name = |start, len| {
        let column = Span { start, len };
        slot(
            Mark::Standing,
            Node::Unary(PredicateOperator::IsNull, column),
        )
    };
    let set = |start, count| {
        slot(
            Mark::Struck,
            Node::Set(PredicateOperator::In, A, Run { start, count }),
        )
    };
    assert_eq!(rt; unsound([name(0, 3)]), None);
    assert_eq!(rt; unsound([name(0, 4)]), Some(0));
    assert_eq!(rt; unsound([name(usize::MAX, 2)]), Some(0));
    assert_eq!(rt; unsound([set(1, 0)]), None);
    assert_eq!(rt; unsound([set(0, 2)]), Some(0), "of a struck node too");
    assert_eq!(rt;
        unsound([slot(Mark::Standing, Node::Binary(PredicateOperator::Eq, A, 1))]),
        Some(0)
    );
}

#[test]
fn text_of_a_literal_outside(rt: HostRuntime) {
    let mut slots = [slot(Mark::Standing, Node::Binary(PredicateOperator::Eq, A, 0))];
    let mut literals = [Literal {
        kind: Kind::String,
        value: Value::String(Span { start: 1, len: 3 }),
    }];
    assert_eq!(rt; book(&mut slots, 1, &mut literals, 1).unsound(), Some(0));
    assert_eq!(rt;
        book(&mut [STANDING], 1, &mut literals, 1).unsound(),
        None,
        "no condition has it"
    );
}

#[test]
fn counts_beyond_the_tables(rt: HostRuntime) {
    let mut slots = [STANDING; 257];
    let mut literals = [NONE; 1025];
    assert_eq!(rt; book(&mut slots, 256, &mut literals, 1024).unsound(), None);
    assert_eq!(rt;
        book(&mut slots, 257, &mut literals, 0).unsound(),
        Some(256)
    );
    assert_eq!(rt; book(&mut slots, 2, &mut literals, 1025).unsound(), Some(2));
    assert_eq!(rt;
        book(&mut slots[..3], 4, &mut literals, 0).unsound(),
        Some(3)
    );
    assert_eq!(rt;
        book(&mut slots[..3], 1, &mut literals[..2], 3).unsound(),
        Some(1)
    );
}
