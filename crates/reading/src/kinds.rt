// Kinds by name.
ghost use Rattle.std.specs.Prelude.{◌≡◌, Decides};
ghost use Rattle.reading.specs.Writing.{Reads, KindWord, FixedWord};

use crate::numbers::Number;
use values::kinds::Kind;

// A fixed, by its length in brackets.
fn fixed(text: &[u8]) -> Option<Kind>
    ensures reads_the_length { Reads FixedWord text.now result }
{
    let digits = text.strip_prefix(b"fixed(")?.strip_suffix(b")")?;
    Some(Kind::Fixed(u64::read(digits)?))
}

// Whether the text is that word.
fn spells(text: &[u8], word: &[u8]) -> bool
    ensures tells_equal_bytes { Decides result (text.now ≡ word.now) }
{
    text == word
}

// The kind of that name. One test after another, each of the length first: for a match on text the bytes would have to be
// read as text before, however many they are.
pub fn read_kind(text: &[u8]) -> Option<Kind>
    ensures reads_the_name { Reads KindWord text.now result }
{
    if spells(text, b"boolean") {
        Some(Kind::Boolean)
    } else if spells(text, b"int") {
        Some(Kind::Int)
    } else if spells(text, b"date") {
        Some(Kind::Date)
    } else if spells(text, b"long") {
        Some(Kind::Long)
    } else if spells(text, b"time") {
        Some(Kind::Time)
    } else if spells(text, b"timestamp") {
        Some(Kind::Timestamp)
    } else if spells(text, b"timestamptz") {
        Some(Kind::Timestamptz)
    } else if spells(text, b"timestamp_ns") {
        Some(Kind::TimestampNs)
    } else if spells(text, b"timestamptz_ns") {
        Some(Kind::TimestamptzNs)
    } else if spells(text, b"float") {
        Some(Kind::Float)
    } else if spells(text, b"double") {
        Some(Kind::Double)
    } else if spells(text, b"string") {
        Some(Kind::String)
    } else if spells(text, b"binary") {
        Some(Kind::Binary)
    } else {
        fixed(text)
    }
}
