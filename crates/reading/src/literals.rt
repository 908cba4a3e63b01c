// Literals: a kind, a colon and a value.
ghost use Rattle.std.specs.Prelude.{◌≡◌, cond, codes};
ghost use Rattle.reading.specs.Literals.{quoteless, enclosed};
ghost use Rattle.reading.specs.Writing.{Reads};
ghost use Rattle.reading.specs.Placed.{TextRead, ValueRead, LiteralRead, FirstColon};

use crate::kinds::read_kind;
use crate::numbers::{Number, parse};
use crate::words::Word;
use values::kinds::Storage;
use values::literals::{Literal, Span, Value};

fn is_quoteless(text: &[u8]) -> bool
    ensures has_no_quote { result ≡ quoteless text.now }
{
    !text.contains(&b'"')
}

// Whether a quote stands first and another last.
fn is_enclosed(text: &[u8]) -> bool
    ensures begins_and_ends_with_one { result ≡ enclosed text.now }
{
    matches!(text, [b'"', .., b'"'])
}

// The place of the bytes that a word is, bare or between quotes.
pub fn read_text(word: Word) -> Option<Span>
    ensures takes_the_quotes_off { TextRead word.entry.line.now word.entry.place result }
{
    let Word { line, place } = word;
    let text = word.text();
    let bare = if is_enclosed(text) {
        Span {
            start: place.start + 1,
            len: text.len() - 2,
        }
    } else {
        place
    };
    is_quoteless(bare.of(line)).then_some(bare)
}

// The truth value of that name.
fn truth(text: &[u8]) -> Option<bool>
    ensures reads_the_name { Reads (λ b t. t ≡ cond b (codes "true") (codes "false")) text.now result }
{
    match text {
        b"true" => Some(true),
        b"false" => Some(false),
        _ => None,
    }
}

// The value of a storage that a word is.
fn read_value(word: Word, storage: Storage) -> Option<Value>
    ensures goes_by_the_storage { ValueRead word.entry.line.now storage word.entry.place result }
{
    let text = word.text();
    match storage {
        Storage::Boolean => truth(text).map(Value::Boolean),
        Storage::Int => i32::read(text).map(Value::Int),
        Storage::Long => i64::read(text).map(Value::Long),
        Storage::Float => parse(text).map(Value::Float),
        Storage::Double => parse(text).map(Value::Double),
        Storage::String => read_text(word).map(Value::String),
        Storage::Binary => read_text(word).map(Value::Binary),
    }
}

// The place of the first colon.
fn first_colon(text: &[u8]) -> Option<usize>
    ensures is_the_first { FirstColon text.now result }
{
    text.iter().position(|byte| *byte == b':')
}

// The literal that a word of the line writes.
pub fn read_literal(word: Word) -> Option<Literal>
    ensures is_written_so { LiteralRead word.entry.line.now word.entry.place result }
{
    let text = word.text();
    let colon = first_colon(text)?;
    let kind = read_kind(&text[..colon])?;
    let rest = Word {
        line: word.line,
        place: Span {
            start: word.place.start + colon + 1,
            len: text.len() - colon - 1,
        },
    };
    let value = read_value(rest, kind.storage())?;
    Some(Literal { kind, value })
}
