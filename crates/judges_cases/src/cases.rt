// Each test judges rows of one cell by a condition on it, or by Not of one.
use book::book::Book;
use columns::column::Column;
use judges::evaluator::eval;
use judges::page::{Page, Words};
use judges::three_valued::ThreeValued;
use judges::verdicts::Verdict;
use nodes::operators::PredicateOperator;
use nodes::slots::{Mark, Node, Run, Slot};
use rows::cell_row::CellRow;
use rows::cells::Cell;
use values::kinds::Kind;
use values::literals::{Literal, Value};
use values::refusals::{Reason, Refused};
use walk::frames::Frame;
use walk::visitor::Visitor;
use walk::walks::walk;

const FIVE: Cell = Cell::Value(Value::Int(5));

const SEVEN: Cell = Cell::Value(Value::Int(7));

fn row(cells: &[Cell]) -> CellRow<'_> {
    CellRow {
        cells,
        top: 1,
        text: b"",
    }
}

// The condition on the first column, of the literal's kind.
fn condition(op: PredicateOperator, literal: Literal) -> Node<Column> {
    let column = Column {
        field: 1,
        kind: literal.kind,
        places: Run { start: 0, count: 1 },
        mandatory: false,
    };
    Node::Binary(op, column, 0)
}

// What the evaluator answers of the condition.
fn evaluated(op: PredicateOperator, cell: Cell, literal: Literal) -> Result<bool, Refused> {
    let mut slots = [Slot {
        node: condition(op, literal),
        mark: Mark::Standing,
    }];
    let mut literals = [literal];
    let book = Book {
        slots: &mut slots,
        used: 1,
        literals: &mut literals,
        stored: 1,
        text: b"",
        places: &[0],
    };
    eval(&book, 0, &row(&[cell]), &mut [Frame::Not(0)])
}

// What the visitor answers of Not of the condition.
fn turned<V: Visitor>(
    visitor: &V,
    op: PredicateOperator,
    literal: Literal,
    work: &mut [Frame<V::Answer>],
) -> Result<V::Answer, Refused> {
    let mut slots = [
        Slot {
            node: condition(op, literal),
            mark: Mark::Joined,
        },
        Slot {
            node: Node::Not(0),
            mark: Mark::Standing,
        },
    ];
    let mut literals = [literal];
    let book = Book {
        slots: &mut slots,
        used: 2,
        literals: &mut literals,
        stored: 1,
        text: b"",
        places: &[0],
    };
    walk(&book, 1, visitor, work)
}

fn turned_verdict(op: PredicateOperator, cell: Cell, literal: Literal) -> Result<Verdict, Refused> {
    turned(
        &ThreeValued::new(&row(&[cell])),
        op,
        literal,
        &mut [Frame::Not(0); 2],
    )
}

fn turned_words(
    rows: &[CellRow],
    op: PredicateOperator,
    literal: Literal,
) -> Result<Words, Refused> {
    turned(&Page::new(rows), op, literal, &mut [Frame::Not(0); 2])
}

fn double(x: f64) -> Literal {
    Literal {
        kind: Kind::Double,
        value: Value::Double(x),
    }
}

fn int(value: Value) -> Literal {
    Literal {
        kind: Kind::Int,
        value,
    }
}

#[test]
fn zeros_are_apart(rt: HostRuntime) {
    let minus = Cell::Value(Value::Double(-0.0));
    let plus = double(0.0);
    assert!(rt; evaluated(PredicateOperator::Eq, minus, plus) == Ok(false));
    assert!(rt; evaluated(PredicateOperator::LessThan, minus, plus) == Ok(true));
    assert!(rt; evaluated(PredicateOperator::GreaterThanOrEq, minus, plus) == Ok(false));
}

#[test]
fn not_a_number_is_above_all(rt: HostRuntime) {
    let not_a_number = Cell::Value(Value::Double(f64::NAN));
    assert!(rt; evaluated(PredicateOperator::GreaterThan, not_a_number, double(5.0)) == Ok(true));
}

#[test]
fn absent_is_unknown(rt: HostRuntime) {
    let five = int(Value::Int(5));
    assert!(rt; evaluated(PredicateOperator::LessThan, Cell::Null, five) == Ok(false));
    assert!(rt; evaluated(PredicateOperator::NotEq, Cell::Null, five) == Ok(true));
    assert!(rt;
        turned_verdict(PredicateOperator::LessThan, Cell::Null, five) == Ok(Verdict::Unknown)
    );
}

#[test]
fn extremes_decide(rt: HostRuntime) {
    let above = int(Value::AboveMax);
    let below = int(Value::BelowMin);
    assert!(rt;
        turned_verdict(PredicateOperator::LessThan, Cell::Null, above) == Ok(Verdict::False)
    );
    assert!(rt; turned_verdict(PredicateOperator::LessThan, SEVEN, below) == Ok(Verdict::True));
    assert!(rt; turned_verdict(PredicateOperator::Eq, SEVEN, below) == Ok(Verdict::True));
    assert!(rt; evaluated(PredicateOperator::LessThan, SEVEN, above) == Ok(false));
}

#[test]
fn refusals_are_at_the_node(rt: HostRuntime) {
    let five = int(Value::Int(5));
    assert!(rt;
        evaluated(PredicateOperator::Eq, Cell::ListOrMap, five) == Err(Reason::NoValue.at(0))
    );
}

#[test]
fn a_bit_for_each_row(rt: HostRuntime) {
    let rows = [row(&[SEVEN]), row(&[Cell::Null]), row(&[FIVE])];
    let words = turned_words(&rows, PredicateOperator::LessThan, int(Value::Int(6)));
    assert!(rt; words == Ok(Words { yes: 1, no: 4 }));
}

#[test]
fn sixty_four_rows_alone(rt: HostRuntime) {
    let mut rows = [row(&[SEVEN]); 65];
    // never asked
    rows[64] = row(&[Cell::ListOrMap]);
    let words = turned_words(&rows, PredicateOperator::Eq, int(Value::Int(7)));
    assert!(rt;
        words
            == Ok(Words {
                yes: 0,
                no: u64::MAX
            })
    );
}
