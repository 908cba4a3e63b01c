// What calls lay, and where filters then stand.
use crate::tables::{
    A, B, C, FREE, NONE, below, book, is_binary, is_long, long, operator_of, text,
};
use nodes::operators::PredicateOperator;
use nodes::slots::{Mark, Node, Run};
use values::kinds::Kind;
use values::literals::{Literal, Span, Value};

const LESS: PredicateOperator = PredicateOperator::LessThan;

const NOT_LESS: PredicateOperator = PredicateOperator::GreaterThanOrEq;

// a < 10 and b < 20
#[test]
fn documented_and(rt: HostRuntime) {
    let mut slots = [FREE; 4];
    let mut literals = [NONE; 4];
    let mut book = book(&mut slots, 0, &mut literals, 0);
    assert!(rt; matches!(below(&mut book, A, 10), Ok(0)));
    assert!(rt; matches!(below(&mut book, B, 20), Ok(1)));
    assert!(rt; matches!(book.and(0, 1), Ok(2)));
    assert!(rt; book.stands(2) && !book.stands(0) && !book.stands(1));
    assert!(rt; matches!(slots[2].node, Node::And(0, 1)));
    assert!(rt; is_binary(slots[0].node, LESS, A, 0) && is_long(literals[0], 10));
    assert!(rt; is_binary(slots[1].node, LESS, B, 1) && is_long(literals[1], 20));
}

// a < 10 or b < 20
#[test]
fn documented_or(rt: HostRuntime) {
    let mut slots = [FREE; 4];
    let mut literals = [NONE; 4];
    let mut book = book(&mut slots, 0, &mut literals, 0);
    assert!(rt; matches!(below(&mut book, A, 10), Ok(0)));
    assert!(rt; matches!(below(&mut book, B, 20), Ok(1)));
    assert!(rt; matches!(book.or(0, 1), Ok(2)));
    assert!(rt; matches!(slots[2].node, Node::Or(0, 1)));
}

// the negation of a < 10 is a >= 10, that of b < 5 and c < 10 is b >= 5 or c >= 10
#[test]
fn documented_negate(rt: HostRuntime) {
    let mut slots = [FREE; 4];
    let mut literals = [NONE; 4];
    let mut book = book(&mut slots, 0, &mut literals, 0);
    assert!(rt; matches!(below(&mut book, A, 10), Ok(0)));
    assert!(rt; matches!(book.negate(0), Ok(0)));
    assert!(rt; matches!(below(&mut book, B, 5), Ok(1)));
    assert!(rt; matches!(below(&mut book, C, 10), Ok(2)));
    assert!(rt; matches!(book.and(1, 2), Ok(3)));
    assert!(rt; matches!(book.negate(3), Ok(3)));
    assert!(rt; is_binary(slots[0].node, NOT_LESS, A, 0));
    assert!(rt; matches!(slots[3].node, Node::Or(1, 2)));
    assert!(rt; is_binary(slots[1].node, NOT_LESS, B, 1));
    assert!(rt; is_binary(slots[2].node, NOT_LESS, C, 2));
}

// not over a < 10 lays a Not, and rewrites nothing
#[test]
fn documented_not(rt: HostRuntime) {
    let mut slots = [FREE; 4];
    let mut literals = [NONE; 4];
    let mut book = book(&mut slots, 0, &mut literals, 0);
    assert!(rt; matches!(below(&mut book, A, 10), Ok(0)));
    assert!(rt; matches!(book.not(0), Ok(1)));
    assert!(rt; book.stands(1) && !book.stands(0));
    assert!(rt; matches!(slots[1].node, Node::Not(0)));
    assert!(rt; is_binary(slots[0].node, LESS, A, 0));
}

// the rewriting of not (a < 5) is a >= 5
#[test]
fn documented_rewrite_not(rt: HostRuntime) {
    let mut slots = [FREE; 4];
    let mut literals = [NONE; 4];
    let mut book = book(&mut slots, 0, &mut literals, 0);
    assert!(rt; matches!(below(&mut book, A, 5), Ok(0)));
    assert!(rt; matches!(book.not(0), Ok(1)));
    assert!(rt; matches!(book.rewrite_not(1), Ok(0)));
    assert!(rt; book.stands(0) && !book.stands(1));
    assert!(rt; is_binary(slots[0].node, NOT_LESS, A, 0));
    assert!(rt; matches!(slots[1].mark, Mark::Struck));
}

// the negation of (not a) and b < 5, where a is a test for null, is a or b >= 5
#[test]
fn negation_takes_a_not_off(rt: HostRuntime) {
    let mut slots = [FREE; 4];
    let mut literals = [NONE; 4];
    let mut book = book(&mut slots, 0, &mut literals, 0);
    assert!(rt; matches!(book.lay_unary(PredicateOperator::IsNull, A), Ok(0)));
    assert!(rt; matches!(book.not(0), Ok(1)));
    assert!(rt; matches!(below(&mut book, B, 5), Ok(2)));
    assert!(rt; matches!(book.and(1, 2), Ok(3)));
    assert!(rt; matches!(book.negate(3), Ok(3)));
    assert!(rt; matches!(slots[3].node, Node::Or(0, 2)));
    assert!(rt; matches!(slots[0].node, Node::Unary(PredicateOperator::IsNull, _)));
    assert!(rt; matches!(slots[1].mark, Mark::Struck));
    assert!(rt; is_binary(slots[2].node, NOT_LESS, B, 0));
}

// the rewriting of (not AlwaysTrue) and a is AlwaysFalse, where the Not's inner node was
#[test]
fn rewriting_folds_a_constant(rt: HostRuntime) {
    let mut slots = [FREE; 4];
    let mut literals = [NONE; 4];
    let mut book = book(&mut slots, 0, &mut literals, 0);
    assert!(rt; matches!(book.lay_constant(true), Ok(0)));
    assert!(rt; matches!(book.not(0), Ok(1)));
    assert!(rt; matches!(below(&mut book, A, 5), Ok(2)));
    assert!(rt; matches!(book.and(1, 2), Ok(3)));
    assert!(rt; matches!(book.rewrite_not(3), Ok(0)));
    assert!(rt; matches!(slots[0].node, Node::AlwaysFalse));
    assert!(rt; matches!(slots[0].mark, Mark::Standing));
    assert!(rt; matches!(slots[2].mark, Mark::Struck) && matches!(slots[3].mark, Mark::Struck));
}

// without folding the join stays, and the Not of the constant is the other constant
#[test]
fn rewriting_unfolded_keeps_the_join(rt: HostRuntime) {
    let mut slots = [FREE; 4];
    let mut literals = [NONE; 4];
    let mut book = book(&mut slots, 0, &mut literals, 0);
    assert!(rt; matches!(book.lay_constant(true), Ok(0)));
    assert!(rt; matches!(book.not(0), Ok(1)));
    assert!(rt; matches!(below(&mut book, A, 5), Ok(2)));
    assert!(rt; matches!(book.and(1, 2), Ok(3)));
    assert!(rt; matches!(book.rewrite_unfolded(3), Ok(3)));
    assert!(rt; matches!(slots[3].node, Node::And(0, 2)));
    assert!(rt; matches!(slots[0].node, Node::AlwaysFalse));
}

// a constant side: the left AlwaysFalse first; else the side beside an AlwaysTrue, the left one counting first
#[test]
fn joins_fold_constants(rt: HostRuntime) {
    let mut slots = [FREE; 8];
    let mut literals = [NONE; 4];
    let mut book = book(&mut slots, 0, &mut literals, 0);
    assert!(rt; matches!(book.lay_constant(true), Ok(0)));
    assert!(rt; matches!(book.lay_constant(true), Ok(1)));
    assert!(rt;
        matches!(book.and(0, 1), Ok(1)),
        "true and true is the right one"
    );
    assert!(rt; matches!(below(&mut book, A, 5), Ok(2)));
    assert!(rt; matches!(book.and(2, 1), Ok(2)), "a and true is a");
    assert!(rt; matches!(book.lay_constant(false), Ok(3)));
    assert!(rt; matches!(book.or(3, 2), Ok(2)), "false or a is a");
    assert!(rt; matches!(book.lay_constant(false), Ok(4)));
    assert!(rt; matches!(book.and(2, 4), Ok(4)), "a and false is false");
    assert!(rt; matches!(book.lay_constant(false), Ok(5)));
    assert!(rt;
        matches!(book.and(4, 5), Ok(4)),
        "false and false is the left one"
    );
    assert!(rt; matches!(book.lay_constant(true), Ok(6)));
    assert!(rt; matches!(book.or(4, 6), Ok(6)), "false or true is true");
    assert!(rt; matches!(book.lay_constant(true), Ok(7)));
    assert!(rt;
        matches!(book.or(6, 7), Ok(6)),
        "true or true is the left one"
    );
    assert!(rt; book.stands(6) && book.used == 8);
}

// what a constant decides is struck whole
#[test]
fn the_other_side_is_struck_whole(rt: HostRuntime) {
    let mut slots = [FREE; 5];
    let mut literals = [NONE; 4];
    let mut book = book(&mut slots, 0, &mut literals, 0);
    assert!(rt; matches!(below(&mut book, A, 5), Ok(0)));
    assert!(rt; matches!(book.not(0), Ok(1)));
    assert!(rt; matches!(below(&mut book, B, 5), Ok(2)));
    assert!(rt; matches!(book.or(1, 2), Ok(3)));
    assert!(rt; matches!(book.lay_constant(false), Ok(4)));
    assert!(rt; matches!(book.and(3, 4), Ok(4)));
    for slot in &slots[..4] {
        assert!(rt; matches!(slot.mark, Mark::Struck));
    }
    assert!(rt; matches!(slots[4].mark, Mark::Standing));
}

// the negation of (not AlwaysFalse) or a is AlwaysFalse and not a, with no join folded
#[test]
fn negation_folds_nothing(rt: HostRuntime) {
    let mut slots = [FREE; 4];
    let mut literals = [NONE; 4];
    let mut book = book(&mut slots, 0, &mut literals, 0);
    assert!(rt; matches!(book.lay_constant(false), Ok(0)));
    assert!(rt; matches!(book.not(0), Ok(1)));
    assert!(rt; matches!(below(&mut book, A, 5), Ok(2)));
    assert!(rt; matches!(book.or(1, 2), Ok(3)));
    assert!(rt; matches!(book.negate(3), Ok(3)));
    assert!(rt; matches!(slots[3].node, Node::And(0, 2)));
    assert!(rt; matches!(slots[0].node, Node::AlwaysFalse));
    assert!(rt; matches!(slots[1].mark, Mark::Struck));
}

// each operator beside the one that says the opposite
#[test]
fn negation_exchanges_operators(rt: HostRuntime) {
    let pairs = [
        (PredicateOperator::IsNull, PredicateOperator::NotNull),
        (PredicateOperator::IsNan, PredicateOperator::NotNan),
        (
            PredicateOperator::LessThan,
            PredicateOperator::GreaterThanOrEq,
        ),
        (
            PredicateOperator::LessThanOrEq,
            PredicateOperator::GreaterThan,
        ),
        (PredicateOperator::Eq, PredicateOperator::NotEq),
        (
            PredicateOperator::StartsWith,
            PredicateOperator::NotStartsWith,
        ),
        (PredicateOperator::In, PredicateOperator::NotIn),
    ];
    for (one, other) in pairs {
        for (laid, opposite) in [(one, other), (other, one)] {
            let mut slots = [FREE; 1];
            let mut literals = [NONE; 1];
            let mut book = book(&mut slots, 0, &mut literals, 0);
            let answer = if laid.is_unary() {
                book.lay_unary(laid, A)
            } else if laid.is_binary() {
                book.lay_binary(laid, A, long(1))
            } else {
                book.lay_set(laid, A, &[long(1)])
            };
            assert!(rt; matches!(answer, Ok(0)));
            assert!(rt; matches!(book.negate(0), Ok(0)));
            assert_eq!(rt; operator_of(slots[0].node), Some(opposite.number()));
        }
    }
}

// not folds nothing
#[test]
fn not_of_a_constant_stays(rt: HostRuntime) {
    let mut slots = [FREE; 4];
    let mut literals = [NONE; 4];
    let mut book = book(&mut slots, 0, &mut literals, 0);
    assert!(rt; matches!(book.lay_constant(true), Ok(0)));
    assert!(rt; matches!(book.not(0), Ok(1)));
    assert!(rt; matches!(slots[1].node, Node::Not(0)));
}

// a set keeps the first of equal literals: zeros of two signs are two, not-a-number is one
#[test]
fn set_keeps_the_first_of_equals(rt: HostRuntime) {
    let mut slots = [FREE; 4];
    let mut literals = [NONE; 4];
    let mut book = book(&mut slots, 0, &mut literals, 0);
    let double = |x| Literal {
        kind: Kind::Double,
        value: Value::Double(x),
    };
    let nan = double(f64::NAN);
    let given = [
        double(0.0),
        nan,
        double(-0.0),
        nan,
        double(0.0),
        double(-0.0),
    ];
    assert!(rt; matches!(book.lay_set(PredicateOperator::In, A, &given), Ok(0)));
    assert!(rt; book.stored == 3);
    assert!(rt;
        matches!(
            slots[0].node,
            Node::Set(PredicateOperator::In, _, Run { start: 0, count: 3 })
        )
    );
    assert!(rt;
        matches!(literals[0].value, Value::Double(x) if !x.is_nan() && !x.is_sign_negative())
    );
    assert!(rt; matches!(literals[1].value, Value::Double(x) if x.is_nan()));
    assert!(rt;
        matches!(literals[2].value, Value::Double(x) if !x.is_nan() && x.is_sign_negative())
    );
}

// literals of two kinds are two, and so are fixeds of two lengths; texts are one wherever they lie
#[test]
fn set_tells_kinds_apart(rt: HostRuntime) {
    let mut slots = [FREE; 4];
    let mut literals = [NONE; 8];
    let mut book = book(&mut slots, 0, &mut literals, 0);
    let time = Literal {
        kind: Kind::Time,
        value: Value::Long(1),
    };
    let (first, again) = (text(0, 0), text(3, 0));
    let given = [long(1), time, text(0, 1), text(1, 1), first, again];
    assert!(rt; matches!(book.lay_set(PredicateOperator::NotIn, A, &given), Ok(0)));
    assert!(rt; book.stored == 5);
    assert!(rt; matches!(literals[4].value, Value::String(Span { start: 0, len: 0 })));
    assert!(rt; matches!(literals[5].value, Value::Boolean(false)));
}
