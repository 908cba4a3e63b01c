// One line after another: read, called, and answered in plain words.
use crate::columns::{Columns, shape_of};
use crate::failure::Failure;
use crate::laid::Filters;
use crate::row::RowSheet;
use crate::show::advice;
use crate::tally::Outcome;
use crate::weigh;
use commands::command::{Command, Malformed, Presence};
use commands::parse;
use reading::words::Words;
use schema::fields::Field;
use std::alloc::{AllocError, Global};
use std::io;
use values::literals::Span;

// What has been handed in so far.
#[derive(Drop)]
pub struct Desk {
    columns: Columns,
    row: RowSheet,
    filters: Filters,
}

impl Desk {
    pub fn new(heap: Global) -> Result<Desk, AllocError> {
        Ok(Desk {
            columns: Columns::new(heap),
            row: RowSheet::new(heap),
            filters: Filters::new(heap)?,
        })
    }

    // Does what the line says; nothing where it is blank or a comment.
    pub fn obey(
        &mut self,
        rt: &HostRuntime,
        number: u64,
        line: &str,
    ) -> io::Result<Option<Outcome>> {
        let Some(command) = parse(line.as_bytes()).transpose() else {
            return Ok(None);
        };
        println!(rt; "{number}> {line}")?;
        match self.answer(rt, command, line.as_bytes()) {
            Ok(()) => Ok(Some(Outcome::Granted)),
            Err(Failure::Malformed(Malformed { what, at })) => {
                println!(rt; "   not understood, line {number}, byte {at}: {what}")?;
                Ok(Some(Outcome::NotUnderstood))
            }
            Err(Failure::Refused(refused)) => {
                let words = advice(refused.reason);
                println!(rt; "   {refused}: {words}")?;
                Ok(Some(Outcome::Refused))
            }
            Err(Failure::Io(error)) => Err(error),
        }
    }

    fn answer(
        &mut self,
        rt: &HostRuntime,
        command: Result<Command, Malformed>,
        line: &[u8],
    ) -> Result<(), Failure> {
        match command? {
            Command::Equal(a, b) => weigh::equal(rt, a, b, line),
            Command::Compare(a, b) => weigh::compare(rt, a, b, line),
            Command::Convert(literal, kind) => weigh::convert(rt, literal, kind, line),
            Command::Field {
                number,
                name,
                column,
                presence,
                parent,
            } => {
                let field = Field {
                    number,
                    name: Span { start: 0, len: 0 },
                    required: matches!(presence, Presence::Required),
                    parent,
                    shape: shape_of(column),
                };
                self.columns.add(rt, name.of(line), field)
            }
            Command::Schema => self.columns.check(rt),
            Command::Find { name, any_case } => self.columns.find(rt, name.of(line), any_case),
            Command::Row { top } => self.row.begin(rt, top),
            Command::Cell(word) => self.row.add(rt, word, line),
            Command::Get { name } => self.columns.get(rt, &self.row, name.of(line)),
            Command::Constant(value) => self.filters.lay_constant(rt, value),
            Command::Lay {
                name,
                operator,
                literals,
            } => {
                let given = Words { line, at: literals };
                self.filters.lay(rt, name.of(line), operator, given)
            }
            Command::And(a, b) => self.filters.and(rt, a, b),
            Command::Or(a, b) => self.filters.or(rt, a, b),
            Command::Not(a) => self.filters.not(rt, a),
            Command::Negate(a) => self.filters.negate(rt, a),
            Command::Rewrite(a) => self.filters.rewrite(rt, a),
            Command::Show(a) => self.filters.show(rt, a),
            Command::Book => self.filters.list(rt),
        }
    }
}
