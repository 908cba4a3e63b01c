// Conversion by the table of storages and kinds.
ghost use Rattle.std.specs.Prelude.{◌≡◌, ℕ, List};
ghost use Rattle.values.specs.Contents.{content_of, datum_of};
ghost use Rattle.conversion.specs.Table.{micros, narrowed, stamped, converted};
ghost use Rattle.conversion.specs.Misfits.{reason_of, read};
ghost use Rattle.conversion.specs.Laws.{Conversion};

use values::kinds::Kind;
use values::literals::{Literal, Value};
use values::refusals::Reason;

// Why a literal does not go to a column's kind.
#[derive(Clone, Copy)]
pub enum Misfit {
    // no rule brings the literal's kind to the column's
    NotConvertible,
    // text is not read as another kind
    TextNotRead,
}

impl Misfit {
    // The refusal of a filter in which the literal of that index does not convert.
    pub fn at(self, literal: usize) -> Reason
        ensures names_the_literal { result ≡ reason_of self literal }
    {
        match self {
            Misfit::NotConvertible => Reason::NotConvertible { literal },
            Misfit::TextNotRead => Reason::TextNotRead { literal },
        }
    }
}

// Nanoseconds as microseconds.
fn to_micros(nanos: i64) -> i64
    ensures divides { result ≡ micros nanos }
{
    nanos.div_euclid(1000)
}

// A long as an int, or beyond every int.
fn to_int(n: i64) -> Value
    ensures narrows { (t : List ℕ) → content_of t result ≡ narrowed n }
{
    match i32::try_from(n) {
        Ok(int) => Value::Int(int),
        Err(_) if n < 0 => Value::BelowMin,
        Err(_) => Value::AboveMax,
    }
}

// A long of the kind `from` as a timestamp: a time of day is none, nanoseconds become microseconds.
fn to_stamp(from: Kind, n: i64) -> Result<i64, Misfit>
    ensures goes_by_the_unit { result ≡ stamped from n }
{
    match from {
        Kind::Time => Err(Misfit::NotConvertible),
        Kind::TimestampNs | Kind::TimestamptzNs => Ok(to_micros(n)),
        _ => Ok(n),
    }
}

// The literal at the column's kind, or why there is none.
#[tactic(auto, using(crate::proofs::Lawful::lawful))]
pub fn convert(literal: Literal, to: Kind) -> Result<Literal, Misfit>
    ensures goes_by_the_table { (t : List ℕ) → read t result ≡ converted (datum_of t literal) to }
    ensures obeys_the_laws { Conversion }
{
    let value = match (literal.value, to) {
        (Value::Int(n), Kind::Int | Kind::Date) => Value::Int(n),
        (Value::Int(n), Kind::Long) => Value::Long(i64::from(n)),
        (Value::Long(n), Kind::Int) => to_int(n),
        (Value::Long(n), Kind::Timestamp | Kind::Timestamptz) => {
            Value::Long(to_stamp(literal.kind, n)?)
        }
        (
            Value::String(_),
            Kind::Boolean | Kind::Int | Kind::Long | Kind::Timestamp | Kind::Timestamptz,
        ) => return Err(Misfit::TextNotRead),
        // any other stays, if its kind and fixed length are the column's
        (value, _) if literal.kind.is(to) => value,
        _ => return Err(Misfit::NotConvertible),
    };
    Ok(Literal { kind: to, value })
}
