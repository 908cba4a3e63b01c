// Literals in the words of a case: KIND:CONTENT, and KIND@STORAGE:CONTENT where the storage is not the kind's own.
use crate::bits::{double, double_bits, single, single_bits};
use crate::failure::Failure;
use reading::kinds::read_kind;
use std::alloc::Global;
use std::fmt;
use values::kinds::{Kind, Storage};
use values::literals::{Literal, Span, Value};

pub fn kind(word: &str) -> Result<Kind, Failure> {
    read_kind(word.as_bytes()).ok_or(Failure::NotACase)
}

const STORAGES: [Storage; 7] = [
    Storage::Boolean,
    Storage::Int,
    Storage::Long,
    Storage::Float,
    Storage::Double,
    Storage::String,
    Storage::Binary,
];

fn storage_word(storage: Storage) -> &'static str {
    match storage {
        Storage::Boolean => "boolean",
        Storage::Int => "int",
        Storage::Long => "long",
        Storage::Float => "float",
        Storage::Double => "double",
        Storage::String => "string",
        Storage::Binary => "binary",
    }
}

fn storage(word: &str) -> Result<Storage, Failure> {
    let named = STORAGES
        .iter()
        .find(|storage| storage_word(**storage) == word);
    Ok(*named.ok_or(Failure::NotACase)?)
}

// Copies the bytes behind a text, and says where they lie there.
pub fn keep(text: &mut Vec<u8>, bytes: &[u8]) -> Result<Span, Failure> {
    let start = text.len();
    let len = bytes.len();
    text.extend_from_slice(bytes)?;
    Ok(Span { start, len })
}

// The bytes that the digits write, behind a text.
fn keep_hex(heap: Global, text: &mut Vec<u8>, digits: &str) -> Result<Span, Failure> {
    match hex::decode(heap, digits) {
        Ok(bytes) => keep(text, bytes.as_slice()),
        Err(_) => Err(Failure::NotACase),
    }
}

// Numbers stand in decimal, floats by their bits and text by its bytes, both in hexadecimal.
fn value(
    heap: Global,
    text: &mut Vec<u8>,
    storage: Storage,
    content: &str,
) -> Result<Value, Failure> {
    let value = match (content, storage) {
        ("above", _) => Some(Value::AboveMax),
        ("below", _) => Some(Value::BelowMin),
        (_, Storage::Boolean) => content.parse().ok().map(Value::Boolean),
        (_, Storage::Int) => content.parse().ok().map(Value::Int),
        (_, Storage::Long) => content.parse().ok().map(Value::Long),
        (_, Storage::Float) => {
            let bits = u32::from_str_radix(content, 16).ok();
            bits.map(|bits| Value::Float(single(bits)))
        }
        (_, Storage::Double) => {
            let bits = u64::from_str_radix(content, 16).ok();
            bits.map(|bits| Value::Double(double(bits)))
        }
        (_, Storage::String) => Some(Value::String(keep_hex(heap, text, content)?)),
        (_, Storage::Binary) => Some(Value::Binary(keep_hex(heap, text, content)?)),
    };
    value.ok_or(Failure::NotACase)
}

// The literal that the word writes, its text copied behind another.
pub fn literal(heap: Global, text: &mut Vec<u8>, word: &str) -> Result<Literal, Failure> {
    let (kept, content) = word.split_once(':').ok_or(Failure::NotACase)?;
    let (kind, storage) = match kept.split_once('@') {
        Some((name, forced)) => (kind(name)?, storage(forced)?),
        None => {
            let kind = kind(kept)?;
            (kind, kind.storage())
        }
    };
    let value = value(heap, text, storage, content)?;
    Ok(Literal { kind, value })
}

// A literal to be printed as its word, its text lying in these bytes.
#[derive(Clone, Copy)]
pub struct Word<'a> {
    pub literal: Literal,
    pub text: &'a [u8],
}

impl fmt::Display for Word<'_> {
    fn fmt<W: fmt::Write>(&self, f: &mut fmt::Formatter<W>) -> fmt::Result {
        let Literal { kind, value } = self.literal;
        let kept = STORAGES.iter().find(|storage| value.is_kept_in(**storage));
        match kept {
            Some(storage) if *storage != kind.storage() => {
                let word = storage_word(*storage);
                write!(f, "{kind}@{word}:")?
            }
            // an extreme is in no storage
            _ => write!(f, "{kind}:")?,
        }
        match value {
            Value::Boolean(truth) => write!(f, "{truth}"),
            Value::Int(number) => write!(f, "{number}"),
            Value::Long(number) => write!(f, "{number}"),
            Value::Float(number) => {
                let bits = single_bits(number);
                write!(f, "{bits:08x}")
            }
            Value::Double(number) => {
                let bits = double_bits(number);
                write!(f, "{bits:016x}")
            }
            Value::String(span) | Value::Binary(span) => {
                for byte in span.of(self.text) {
                    let byte = *byte;
                    write!(f, "{byte:02x}")?;
                }
                Ok(())
            }
            Value::AboveMax => f.write_str("above"),
            Value::BelowMin => f.write_str("below"),
        }
    }
}
