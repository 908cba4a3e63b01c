// Names found where case is ignored, and rows read.
use crate::failure::Failure;
use crate::literals::{Word, keep, literal};
use rows::cell_row::CellRow;
use rows::cells::Cell;
use schema::fields::{Field, Schema, Shape};
use std::alloc::Global;
use values::kinds::Kind;

// The field of that name among optional ints.
pub fn found(heap: Global, words: &str) -> Result<String, Failure> {
    let (name, names) = words.split_once(' ').ok_or(Failure::NotACase)?;
    let mut text = Vec::new(heap);
    let mut fields = Vec::new(heap);
    for (number, name) in (1u32..).zip(names.split(' ')) {
        fields.push(Field {
            number,
            name: keep(&mut text, name.as_bytes())?,
            required: false,
            parent: None,
            shape: Shape::Primitive(Kind::Int),
        })?;
    }
    let schema = Schema {
        fields: fields.as_slice(),
        text: text.as_slice(),
    };
    schema.check()?;
    let field = schema.field_by_name_case_insensitive(name.as_bytes())?;
    Ok(format!(in heap; "field {field}")?)
}

// What stands at the place of a row of such cells, under an int.
pub fn read(heap: Global, words: &str) -> Result<String, Failure> {
    let (place, words) = words.split_once(' ').ok_or(Failure::NotACase)?;
    let place: u16 = place.parse().ok().ok_or(Failure::NotACase)?;
    let mut text = Vec::new(heap);
    let mut cells = Vec::new(heap);
    for word in words.split(' ') {
        let literal = literal(heap, &mut text, word)?;
        cells.push(Cell::Value(literal.value))?;
    }
    let row = CellRow {
        cells: cells.as_slice(),
        top: cells.len(),
        text: text.as_slice(),
    };
    match row.look_up(&[place], Kind::Int)? {
        Some(literal) => {
            let shown = Word {
                literal,
                text: text.as_slice(),
            };
            Ok(format!(in heap; "{shown}")?)
        }
        None => Ok(format!(in heap; "absent")?),
    }
}
