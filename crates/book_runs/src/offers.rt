// What the calls are given: a text, columns, operators and literals, each with what the rules say of it.
use nodes::operators::PredicateOperator;
use values::kinds::Kind;
use values::literals::{Literal, Span, Value};

// The bytes that names and literals lie in.
pub static TEXT: [u8; 28] = *b"depot weight glass glass abx";

// The columns, the last one past the text's end.
pub static COLUMNS: [Span; 4] = [
    Span { start: 0, len: 5 },
    Span { start: 6, len: 6 },
    Span { start: 13, len: 5 },
    Span { start: 24, len: 5 },
];

// The columns that lie inside the text.
pub const COLUMNS_INSIDE: usize = 3;

// Each operator beside the one that says the opposite: their places differ in the last bit.
pub static OPERATORS: [PredicateOperator; 14] = [
    PredicateOperator::IsNull,
    PredicateOperator::NotNull,
    PredicateOperator::IsNan,
    PredicateOperator::NotNan,
    PredicateOperator::LessThan,
    PredicateOperator::GreaterThanOrEq,
    PredicateOperator::LessThanOrEq,
    PredicateOperator::GreaterThan,
    PredicateOperator::Eq,
    PredicateOperator::NotEq,
    PredicateOperator::StartsWith,
    PredicateOperator::NotStartsWith,
    PredicateOperator::In,
    PredicateOperator::NotIn,
];

#[derive(Clone, Copy, PartialEq, Eq)]
pub enum Family {
    Unary,
    Binary,
    Set,
}

// The family of the operator at a place.
pub fn family_of(operator: usize) -> Family {
    match operator {
        0..4 => Family::Unary,
        4..12 => Family::Binary,
        _ => Family::Set,
    }
}

// What the rules say of a literal.
#[derive(Clone, Copy, PartialEq, Eq)]
pub enum Quality {
    // kept; those of one class are equal
    Kept(u8),
    OtherStorage,
    TextOutside,
}

// Places in the text, and past its end.
const GLASS: Span = Span { start: 13, len: 5 };

const GLASS_AGAIN: Span = Span { start: 19, len: 5 };

const S: Span = Span { start: 16, len: 1 };

const LAST_S: Span = Span { start: 23, len: 1 };

const EMPTY: Span = Span { start: 0, len: 0 };

const EMPTY_AT_END: Span = Span { start: 28, len: 0 };

const GLAS: Span = Span { start: 13, len: 4 };

const NEXT_S: Span = Span { start: 17, len: 1 };

const EMPTY_INSIDE: Span = Span { start: 3, len: 0 };

const DEPOT: Span = Span { start: 0, len: 5 };

const ONE_PAST: Span = Span { start: 28, len: 1 };

const BEGUN_PAST: Span = Span { start: 29, len: 0 };

const ENDING_PAST: Span = Span { start: 24, len: 5 };

const WRAPPED: Span = Span {
    start: usize::MAX,
    len: 2,
};

// The literals, those that are kept first. No two are the same cell.
pub static OFFERS: [(Kind, Value, Quality); 52] = [
    (Kind::Boolean, Value::Boolean(false), Quality::Kept(0)),
    (Kind::Boolean, Value::Boolean(true), Quality::Kept(1)),
    (Kind::Int, Value::Int(1), Quality::Kept(2)),
    (Kind::Int, Value::Int(-2147483648), Quality::Kept(3)),
    (Kind::Date, Value::Int(1), Quality::Kept(4)),
    (Kind::Long, Value::Long(1), Quality::Kept(5)),
    (Kind::Long, Value::Long(900), Quality::Kept(6)),
    (Kind::Time, Value::Long(1), Quality::Kept(7)),
    (Kind::Timestamp, Value::Long(1), Quality::Kept(8)),
    (Kind::Timestamptz, Value::Long(1), Quality::Kept(9)),
    (Kind::TimestampNs, Value::Long(1), Quality::Kept(10)),
    (Kind::TimestamptzNs, Value::Long(1), Quality::Kept(11)),
    (Kind::Float, Value::Float(0.0), Quality::Kept(12)),
    (Kind::Float, Value::Float(-0.0), Quality::Kept(13)),
    (Kind::Float, Value::Float(f32::NAN), Quality::Kept(14)),
    (Kind::Float, Value::Float(1.5), Quality::Kept(15)),
    (Kind::Double, Value::Double(0.0), Quality::Kept(16)),
    (Kind::Double, Value::Double(-0.0), Quality::Kept(17)),
    (Kind::Double, Value::Double(f64::NAN), Quality::Kept(18)),
    (Kind::Double, Value::Double(1.5), Quality::Kept(19)),
    (Kind::String, Value::String(GLASS), Quality::Kept(20)),
    (Kind::String, Value::String(GLASS_AGAIN), Quality::Kept(20)),
    (Kind::String, Value::String(S), Quality::Kept(21)),
    (Kind::String, Value::String(LAST_S), Quality::Kept(21)),
    (Kind::String, Value::String(EMPTY), Quality::Kept(22)),
    (Kind::String, Value::String(EMPTY_AT_END), Quality::Kept(22)),
    (Kind::String, Value::String(GLAS), Quality::Kept(23)),
    (Kind::Binary, Value::Binary(GLASS), Quality::Kept(24)),
    (Kind::Binary, Value::Binary(GLASS_AGAIN), Quality::Kept(24)),
    (Kind::Fixed(5), Value::Binary(GLASS), Quality::Kept(25)),
    (
        Kind::Fixed(5),
        Value::Binary(GLASS_AGAIN),
        Quality::Kept(25),
    ),
    (Kind::Fixed(1), Value::Binary(S), Quality::Kept(26)),
    (Kind::Fixed(1), Value::Binary(NEXT_S), Quality::Kept(26)),
    (
        Kind::Fixed(0),
        Value::Binary(EMPTY_AT_END),
        Quality::Kept(27),
    ),
    (Kind::Binary, Value::Binary(EMPTY_INSIDE), Quality::Kept(28)),
    (Kind::Int, Value::Long(1), Quality::OtherStorage),
    (Kind::Long, Value::Int(1), Quality::OtherStorage),
    (Kind::Boolean, Value::Int(0), Quality::OtherStorage),
    (Kind::Float, Value::Double(1.5), Quality::OtherStorage),
    (Kind::Double, Value::Float(1.5), Quality::OtherStorage),
    (Kind::String, Value::Binary(GLASS), Quality::OtherStorage),
    (Kind::Binary, Value::String(GLASS), Quality::OtherStorage),
    (Kind::Fixed(4), Value::Binary(GLASS), Quality::OtherStorage),
    (
        Kind::Fixed(18446744073709551615),
        Value::Binary(GLASS),
        Quality::OtherStorage,
    ),
    (Kind::Date, Value::String(DEPOT), Quality::OtherStorage),
    (Kind::Long, Value::AboveMax, Quality::OtherStorage),
    (Kind::Int, Value::BelowMin, Quality::OtherStorage),
    (Kind::String, Value::String(ONE_PAST), Quality::TextOutside),
    (
        Kind::String,
        Value::String(BEGUN_PAST),
        Quality::TextOutside,
    ),
    (
        Kind::Binary,
        Value::Binary(ENDING_PAST),
        Quality::TextOutside,
    ),
    (
        Kind::Fixed(2),
        Value::Binary(ENDING_PAST),
        Quality::TextOutside,
    ),
    (Kind::Int, Value::String(WRAPPED), Quality::TextOutside),
];

pub const KEPT: usize = 35;

// The literal at a place.
pub fn literal(place: usize) -> Option<Literal> {
    let (kind, value, _) = OFFERS.get(place).copied()?;
    Some(Literal { kind, value })
}

// What the rules say of the literal at a place.
pub fn quality_of(place: usize) -> Quality {
    match OFFERS.get(place) {
        Some((_, _, quality)) => *quality,
        None => Quality::TextOutside,
    }
}

fn are_same_numbers(a: f64, b: f64) -> bool {
    if a.is_nan() || b.is_nan() {
        return a.is_nan() && b.is_nan();
    }
    a == b && a.is_sign_negative() == b.is_sign_negative()
}

// Whether two cells hold the same, places in the text and not the bytes there.
pub fn are_same_cells(a: Literal, b: Literal) -> bool {
    a.kind == b.kind
        && match (a.value, b.value) {
            (Value::Boolean(x), Value::Boolean(y)) => x == y,
            (Value::Int(x), Value::Int(y)) => x == y,
            (Value::Long(x), Value::Long(y)) => x == y,
            (Value::Float(x), Value::Float(y)) => are_same_numbers(f64::from(x), f64::from(y)),
            (Value::Double(x), Value::Double(y)) => are_same_numbers(x, y),
            (Value::String(x), Value::String(y)) | (Value::Binary(x), Value::Binary(y)) => x == y,
            (Value::AboveMax, Value::AboveMax) | (Value::BelowMin, Value::BelowMin) => true,
            _ => false,
        }
}

// The place of the literal that a cell holds.
pub fn place_of(found: Literal) -> Option<usize> {
    OFFERS.iter().position(|(kind, value, _)| are_same_cells(
        Literal {
            kind: *kind,
            value: *value,
        },
        found,
    ))
}

// The place of the operator.
pub fn operator_place(operator: PredicateOperator) -> Option<usize> {
    OPERATORS
        .iter()
        .position(|listed| listed.number() == operator.number())
}

// The place of the column.
pub fn column_place(column: Span) -> Option<usize> {
    COLUMNS.iter().position(|listed| *listed == column)
}
