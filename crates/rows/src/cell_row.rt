// A row of cells, in tables that the caller lends.
ghost use Rattle.std.specs.Prelude.{◌≡◌};
ghost use Rattle.rows.specs.Reached.{said};
ghost use Rattle.rows.specs.Cells.{row_cells, followed, read as read_cell, looked_up};
ghost use Rattle.rows.specs.Paths.{row_spot, Caused};

use crate::cells::Cell;
use crate::row::Row;
use values::kinds::Kind;
use values::literals::{Literal, Value};
use values::refusals::Reason;

// How many cells of its table a row may use.
const LIMIT: usize = 1024;

// The first cells of a table: `top` of them are the columns, and the groups that columns hold stand after them.
#[derive(Clone, Copy)]
pub struct CellRow<'a> {
    pub cells: &'a [Cell],
    // no length of the table: how far the first group goes in it
    pub top: usize,
    // what the values name places of
    pub text: &'a [u8],
}

fn row_cells(cells: &[Cell]) -> &[Cell]
    ensures are_the_first { result.now ≡ row_cells cells.now }
{
    &cells[..LIMIT.min(cells.len())]
}

// The cell that the places lead to from a cell, one place fewer at each call. A group is asked first whether it lies
// inside the row, beginning at `after` or later, and then for the place.
fn follow(cells: &[Cell], cell: Cell, after: usize, places: &[u16]) -> Result<Cell, Reason>
    ensures is_followed { result ≡ followed cells.now cell after places.now }
{
    let [place, rest @ ..] = places else {
        return Ok(cell);
    };
    let Cell::Group { start, count } = cell else {
        return Err(Reason::NoGroup);
    };
    if start < after || start > cells.len() || count > cells.len() - start {
        return Err(Reason::OutsideRow);
    }
    let place = usize::from(*place);
    if place >= count {
        return Err(Reason::PlacePastGroup);
    }
    let at = start + place;
    follow(cells, cells[at], at + 1, rest)
}

// The answer at the cell that the places lead to.
fn read(cell: Cell, text: &[u8], kind: Kind) -> Result<Option<Literal>, Reason>
    ensures is_read { result ≡ read_cell text.now kind cell }
{
    match cell {
        Cell::Null => Ok(None),
        Cell::Value(Value::AboveMax | Value::BelowMin) => Err(Reason::NoValue),
        Cell::Value(value) => {
            if value.text_lies_inside(text.len()) {
                Ok(Some(Literal { kind, value }))
            } else {
                Err(Reason::OutsideRow)
            }
        }
        Cell::Group { .. } | Cell::ListOrMap => Err(Reason::NoValue),
    }
}

impl<'a> CellRow<'a> {
    // The value at the places, counted from the top, under the kind, whatever its storage. The row itself counts as
    // a group, so that no places lead to no value.
    pub fn look_up(&self, places: &[u16], kind: Kind) -> Result<Option<Literal>, Reason>
        ensures is_looked_up { result ≡ looked_up self.now.cells.now self.now.top self.now.text.now places.now kind }
        ensures comes_exactly_from_its_cause { Caused (row_cells self.now.cells.now) (row_spot self.now.top) self.now.text.now places.now kind result }
    {
        let CellRow { cells, top, text } = *self;
        let row = Cell::Group {
            start: 0,
            count: top,
        };
        let cell = follow(row_cells(cells), row, 0, places)?;
        read(cell, text, kind)
    }
}

impl<'a> Row for CellRow<'a> {
    ghost words = { λ s. s.text.now };

    ghost reached = { λ s places kind. said s.text.now (looked_up s.cells.now s.top s.text.now places kind) };

    fn text(&self) -> &[u8] {
        self.text
    }

    fn get(&self, places: &[u16], kind: Kind) -> Result<Option<Literal>, Reason> {
        self.look_up(places, kind)
    }
}
