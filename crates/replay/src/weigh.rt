// Literals converted and compared.
use crate::failure::Failure;
use crate::literals::{Word, kind, literal};
use comparison::data::Datum;
use conversion::convert::convert;
use std::alloc::Global;
use std::cmp::Ordering;

pub fn converted(heap: Global, words: &str) -> Result<String, Failure> {
    let (word, to) = words.split_once(' ').ok_or(Failure::NotACase)?;
    let mut text = Vec::new(heap);
    let literal = literal(heap, &mut text, word)?;
    let to = kind(to)?;
    let literal = convert(literal, to).map_err(|misfit| misfit.at(0))?;
    let shown = Word {
        literal,
        text: text.as_slice(),
    };
    Ok(format!(in heap; "{shown}")?)
}

pub fn compared(heap: Global, words: &str) -> Result<String, Failure> {
    let (first, second) = words.split_once(' ').ok_or(Failure::NotACase)?;
    let mut text = Vec::new(heap);
    let first = literal(heap, &mut text, first)?;
    let second = literal(heap, &mut text, second)?;
    let first = Datum::new(first, text.as_slice());
    let second = Datum::new(second, text.as_slice());
    let equality = if first == second { "equal" } else { "unequal" };
    let order = match first.partial_cmp(&second) {
        Some(Ordering::Less) => "before",
        Some(Ordering::Equal) => "level",
        Some(Ordering::Greater) => "after",
        None => "apart",
    };
    Ok(format!(in heap; "{equality} {order}")?)
}
