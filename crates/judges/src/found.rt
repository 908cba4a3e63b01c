// What a condition finds in a row, and the tests of it.
ghost use Rattle.std.specs.Prelude.{◌≡◌, map};
ghost use Rattle.values.specs.Contents.{content_of, datum_of};
ghost use Rattle.walk.specs.Tests.{tested};
ghost use Rattle.judges.specs.Reading.{fault_of, value_at, column, held, held_if};
ghost use Rattle.judges.specs.Answers.{is_nan_content, begins_with, found_nan, found_one_of, found_beginning, stands, stands_or_beyond};

use comparison::data::Datum;
use floats::order::Floating;
use rows::row::Row;
use std::cmp::Ordering;
use values::literals::{Literal, Value};
use values::refusals::Reason;
use walk::conditions::Test;
use walk::faults::Fault;

// A value of a row with the row's text, or none where it is absent.
#[derive(Clone, Copy)]
pub(crate) struct Found<'a> {
    pub(crate) literal: Option<Literal>,
    pub(crate) text: &'a [u8],
}

// A row's refusal as a fault.
fn fault(reason: Reason) -> Fault
    ensures is_the_rows { result ≡ fault_of reason }
{
    match reason {
        Reason::PlacePastGroup => Fault::PlacePastGroup,
        Reason::NoGroup => Fault::NoGroup,
        Reason::NoValue => Fault::NoValue,
        Reason::OutsideRow => Fault::OutsideRow,
        _ => Fault::Own(u32::from(reason.number())),
    }
}

fn is_not_a_number(value: Value, text: &[u8]) -> bool
    ensures asks_the_storage { result ≡ is_nan_content (content_of text.now value) }
{
    match value {
        Value::Float(x) => x.is_not_a_number(),
        Value::Double(x) => x.is_not_a_number(),
        _ => false,
    }
}

// Whether both are strings and the second begins the first, each in its own text.
fn begins_with(value: Value, text: &[u8], prefix: Value, prefix_text: &[u8]) -> bool
    ensures compares_strings { result ≡ begins_with (content_of text.now value) (content_of prefix_text.now prefix) }
{
    match (value, prefix) {
        (Value::String(value), Value::String(prefix)) => {
            value.of(text).starts_with(prefix.of(prefix_text))
        }
        _ => false,
    }
}

impl<'a> Found<'a> {
    // What the row holds in the condition's column.
    pub(crate) fn read<R: Row>(row: &'a R, test: &Test) -> Result<Found<'a>, Fault>
        ensures is_what_the_row_reaches { held_if result ≡ value_at (R.reached row.now) (column (tested test.now)) }
    {
        match row.get(test.places, test.kind) {
            Ok(literal) => Ok(Found {
                literal,
                text: row.text(),
            }),
            Err(reason) => Err(fault(reason)),
        }
    }

    pub(crate) fn is_not_a_number(&self) -> bool
        ensures asks_a_value { result ≡ found_nan (held self.now) }
    {
        match self.literal {
            Some(literal) => is_not_a_number(literal.value, self.text),
            None => false,
        }
    }

    // Whether it is one of the literals.
    pub(crate) fn is_one_of(&self, literals: &[Literal], text: &[u8]) -> bool
        ensures asks_for_an_equal { result ≡ found_one_of (map (datum_of text.now) literals.now) (held self.now) }
    {
        match self.literal {
            Some(literal) => {
                let value = Datum::new(literal, self.text);
                literals
                    .iter()
                    .any(|literal| value == Datum::new(*literal, text))
            }
            None => false,
        }
    }

    // Whether it begins with the first literal.
    pub(crate) fn begins_with(&self, literals: &[Literal], text: &[u8]) -> bool
        ensures asks_of_two_strings { result ≡ found_beginning (map (datum_of text.now) literals.now) (held self.now) }
    {
        match (self.literal, literals) {
            (Some(literal), [prefix, ..]) => {
                begins_with(literal.value, self.text, prefix.value, text)
            }
            _ => false,
        }
    }

    // Where it stands to the first literal, if the two compare.
    pub(crate) fn standing(&self, literals: &[Literal], text: &[u8]) -> Option<Ordering>
        ensures goes_by_the_order { result ≡ stands (held self.now) (map (datum_of text.now) literals.now) }
    {
        match (self.literal, literals) {
            (Some(value), [literal, ..]) => {
                Datum::new(value, self.text).partial_cmp(&Datum::new(*literal, text))
            }
            _ => None,
        }
    }

    // The same, but that every value, and an absent one, stands below AboveMax and above BelowMin.
    pub(crate) fn standing_or_beyond(&self, literals: &[Literal], text: &[u8]) -> Option<Ordering>
        ensures goes_by_the_extremes { result ≡ stands_or_beyond (held self.now) (map (datum_of text.now) literals.now) }
    {
        match literals.first()?.value {
            Value::AboveMax => Some(Ordering::Less),
            Value::BelowMin => Some(Ordering::Greater),
            _ => self.standing(literals, text),
        }
    }
}
