// Values compared, for order and for equality, wherever their text lies.
ghost use Rattle.std.specs.Prelude.{◌≡◌, Decides};
ghost use Rattle.values.specs.Contents.{Datum as Held, datum_of};
ghost use Rattle.comparison.specs.Orders.{content_order, in_storage, comparable, compared};
ghost use Rattle.comparison.specs.Equality.{same_extreme, same_content, same_datum};
ghost use Rattle.comparison.specs.Laws.{Ordered};
ghost use Rattle.comparison.specs.Equal.{datum_per, datum_equivalence};

use crate::text::Text;
use floats::order::{same, total_cmp};
use std::cmp::Ordering;
use std::fmt;
use std::marker::Model;
use values::literals::{Literal, Value};

// A literal with the bytes that its text lies in: what it holds is its kind and its content.
#[derive(Drop)]
pub struct Datum<'a> {
    literal: Literal,
    text: &'a [u8],
}

impl<'a> Model for Datum<'a> {
    ghost Value = { Held };

    ghost view = { λ d. datum_of d.text.now d.literal };
}

impl<'a> Datum<'a> {
    pub fn new(literal: Literal, text: &'a [u8]) -> Datum<'a>
        ensures holds_the_literal { result ≡ datum_of text.now literal }
    {
        Datum { literal, text }
    }

    fn is_in_storage(&self) -> bool
        ensures asks_the_kinds_storage { result ≡ in_storage self.now }
    {
        self.literal.value.is_kept_in(self.literal.kind.storage())
    }

    // Whether the two are of one kind, fixed lengths aside, and both in its storage.
    fn is_comparable(&self, other: &Datum) -> bool
        ensures asks_kind_and_storage { result ≡ comparable self.now other.now }
    {
        self.literal.kind.same_family(other.literal.kind)
            && self.is_in_storage()
            && other.is_in_storage()
    }

    #[tactic(auto, using(crate::proofs::ByteOrders::first_difference))]
    fn content_cmp(&self, other: &Datum) -> Option<Ordering>
        ensures goes_by_content { result ≡ content_order self.now.content other.now.content }
    {
        match (self.literal.value, other.literal.value) {
            (Value::Boolean(x), Value::Boolean(y)) => Some(x.cmp(&y)),
            (Value::Int(x), Value::Int(y)) => Some(x.cmp(&y)),
            (Value::Long(x), Value::Long(y)) => Some(x.cmp(&y)),
            (Value::Float(x), Value::Float(y)) => Some(total_cmp(x, y)),
            (Value::Double(x), Value::Double(y)) => Some(total_cmp(x, y)),
            (Value::String(x), Value::String(y)) | (Value::Binary(x), Value::Binary(y)) => {
                Some(x.of(self.text).cmp(&y.of(other.text)))
            }
            _ => None,
        }
    }

    // Whether both are beyond every value, on one side.
    fn is_same_extreme(&self, other: &Datum) -> bool
        ensures asks_the_case { result ≡ same_extreme self.now.content other.now.content }
    {
        matches!(
            (self.literal.value, other.literal.value),
            (Value::AboveMax, Value::AboveMax) | (Value::BelowMin, Value::BelowMin)
        )
    }

    // Whether the contents agree. Not by their order, which reads texts of two lengths as far as they agree.
    fn same_content(&self, other: &Datum) -> bool
        ensures compares_contents { result ≡ same_content self.now.content other.now.content }
    {
        match (self.literal.value, other.literal.value) {
            (Value::Boolean(x), Value::Boolean(y)) => x == y,
            (Value::Int(x), Value::Int(y)) => x == y,
            (Value::Long(x), Value::Long(y)) => x == y,
            (Value::Float(x), Value::Float(y)) => same(x, y),
            (Value::Double(x), Value::Double(y)) => same(x, y),
            (Value::String(x), Value::String(y)) | (Value::Binary(x), Value::Binary(y)) => {
                x.of(self.text) == y.of(other.text)
            }
            _ => self.is_same_extreme(other),
        }
    }

    // Where the value stands to the other, if the two are comparable.
    // No `PartialOrd`, which asks "level" exactly of equals: an extreme compares with nothing, fixeds of two lengths may be level.
    pub fn partial_cmp(&self, other: &Datum) -> Option<Ordering>
        ensures goes_by_content { result ≡ compared self.now other.now }
        ensures is_an_order { Ordered self.now other.now }
    {
        if self.is_comparable(other) {
            self.content_cmp(other)
        } else {
            None
        }
    }
}

impl PartialEq for Datum<'_> {
    ghost eq = { same_datum };

    ghost laws = { datum_per };

    fn eq(&self, other: &Self) -> bool
        ensures compares_kind_and_content { result ≡ same_datum self.now other.now }
        ensures tells_equal_data { Decides result (self.now ≡ other.now) }
    {
        self.literal.kind.is(other.literal.kind) && self.same_content(other)
    }
}

impl Eq for Datum<'_> {
    ghost laws = { datum_equivalence };
}

// The value in plain words.
impl fmt::Display for Datum<'_> {
    fn fmt<W: fmt::Write>(&self, f: &mut fmt::Formatter<W>) -> fmt::Result {
        let kind = self.literal.kind;
        match self.literal.value {
            Value::Boolean(truth) => write!(f, "{kind} {truth}"),
            Value::Int(number) => write!(f, "{kind} {number}"),
            Value::Long(number) => write!(f, "{kind} {number}"),
            Value::Float(number) => write!(f, "{kind} {number}"),
            Value::Double(number) => write!(f, "{kind} {number}"),
            Value::String(span) | Value::Binary(span) => {
                let text = Text(span.of(self.text));
                write!(f, "{kind} \"{text}\"")
            }
            Value::AboveMax => write!(f, "above every {kind}"),
            Value::BelowMin => write!(f, "below every {kind}"),
        }
    }
}
