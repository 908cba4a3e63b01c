// Values as a filter or a row holds them. Text is a place in bytes that are lent beside the value.
ghost use Rattle.std.specs.Prelude.{◌≡◌, ℕ, ◌-◌, min, true, List, length};
ghost use Rattle.values.specs.Contents.{bytes_at, inside, text_inside, content_of, datum_of};
ghost use Rattle.values.specs.Kept.{kept_in, length_fits, well_kept, well_kept_datum};

use crate::kinds::{Kind, Storage};

// A place in lent bytes.
#[derive(Clone, Copy, PartialEq, Eq)]
pub struct Span {
    pub start: usize,
    pub len: usize,
}

#[derive(Clone, Copy)]
pub enum Value {
    Boolean(bool),
    Int(i32),
    Long(i64),
    Float(f32),
    Double(f64),
    String(Span),
    Binary(Span),
    // beyond every value of a kind: these two arise only by conversion
    AboveMax,
    BelowMin,
}

// A value under a kind.
#[derive(Clone, Copy)]
pub struct Literal {
    pub kind: Kind,
    pub value: Value,
}

impl Span {
    // Whether the place lies inside that many bytes.
    pub fn lies_inside(self, bytes: usize) -> bool
        ensures ends_within { result ≡ inside bytes self }
    {
        self.start <= bytes && self.len <= bytes - self.start
    }

    // The part of the place that lies inside that many bytes.
    fn cut(self, bytes: usize) -> Span
        ensures starts_inside { result.start ≡ min self.start bytes }
        ensures ends_inside { result.len ≡ min self.len (bytes - result.start) }
    {
        let start = self.start.min(bytes);
        let len = self.len.min(bytes - start);
        Span { start, len }
    }

    // The bytes at the place: fewer than its length where it passes the text's end.
    pub fn of(self, text: &[u8]) -> &[u8]
        ensures are_the_bytes_there { result.now ≡ bytes_at text.now self }
    {
        let Span { start, len } = self.cut(text.len());
        &text[start..start + len]
    }
}

impl Value {
    // Whether the value is kept in the storage; an extreme is kept in none.
    pub fn is_kept_in(self, storage: Storage) -> bool
        ensures asks_the_case { (t : List ℕ) → result ≡ kept_in storage (content_of t self) }
    {
        matches!(
            (self, storage),
            (Value::Boolean(_), Storage::Boolean)
                | (Value::Int(_), Storage::Int)
                | (Value::Long(_), Storage::Long)
                | (Value::Float(_), Storage::Float)
                | (Value::Double(_), Storage::Double)
                | (Value::String(_), Storage::String)
                | (Value::Binary(_), Storage::Binary)
        )
    }

    // Whether the text, if the value has any, lies inside that many bytes.
    pub fn text_lies_inside(self, bytes: usize) -> bool
        ensures asks_text_alone { result ≡ text_inside bytes self }
    {
        match self {
            Value::String(span) | Value::Binary(span) => span.lies_inside(bytes),
            _ => true,
        }
    }
}

impl Literal {
    // Whether the value is in the storage of the kind and, if the kind is a fixed, of its length.
    pub fn is_well_kept(self) -> bool
        ensures is_kept_as_the_kind_says { result ≡ well_kept self }
        ensures judges_the_content { (t : List ℕ) → text_inside (length t) self.value ≡ true → result ≡ well_kept_datum (datum_of t self) }
    {
        self.value.is_kept_in(self.kind.storage()) && self.length_fits()
    }

    // Whether text under a fixed is of its length.
    fn length_fits(self) -> bool
        ensures asks_text_alone { result ≡ length_fits self.kind self.value }
    {
        match (self.kind, self.value) {
            (Kind::Fixed(len), Value::String(span) | Value::Binary(span)) => span.len as u64 == len,
            _ => true,
        }
    }
}
