// The row that is being typed: its cells, and the text that they name places of.
use crate::failure::Failure;
use crate::kept::keep_literal;
use commands::command::CellWord;
use comparison::data::Datum;
use rows::cell_row::CellRow;
use rows::cells::Cell;
use std::alloc::Global;
use std::io;

#[derive(Drop)]
pub struct RowSheet {
    cells: Vec<Cell>,
    text: Vec<u8>,
    top: usize,
}

fn say(rt: &HostRuntime, word: CellWord, line: &[u8], place: usize) -> io::Result<()> {
    match word {
        CellWord::Null => println!(rt; "   cell {place} is null"),
        CellWord::Value(literal) => {
            let value = Datum::new(literal, line);
            println!(rt; "   cell {place} holds {value}")
        }
        CellWord::Group { start, count } => println!(rt;
            "   cell {place} is a group of {count} cells from cell {start}"
        ),
        CellWord::List => println!(rt; "   cell {place} is a list or map"),
    }
}

impl RowSheet {
    pub fn new(heap: Global) -> RowSheet {
        RowSheet {
            cells: Vec::new(heap),
            text: Vec::new(heap),
            top: 0,
        }
    }

    // A new row, with so many cells at the top.
    pub fn begin(&mut self, rt: &HostRuntime, top: usize) -> Result<(), Failure> {
        self.cells.clear();
        self.text.clear();
        self.top = top;
        println!(rt; "   a new row of {top} top cells")?;
        Ok(())
    }

    // One cell more.
    pub fn add(&mut self, rt: &HostRuntime, word: CellWord, line: &[u8]) -> Result<(), Failure> {
        let place = self.cells.len();
        let cell = match word {
            CellWord::Null => Cell::Null,
            CellWord::Value(literal) => {
                Cell::Value(keep_literal(&mut self.text, literal, line)?.value)
            }
            CellWord::Group { start, count } => Cell::Group { start, count },
            CellWord::List => Cell::ListOrMap,
        };
        self.cells.push(cell)?;
        say(rt, word, line, place)?;
        Ok(())
    }

    pub fn as_row(&self) -> CellRow<'_> {
        CellRow {
            cells: self.cells.as_slice(),
            top: self.top,
            text: self.text.as_slice(),
        }
    }
}
