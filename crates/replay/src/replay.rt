// One line after another: a case with its answer, run and compared.
use crate::bench::Bench;
use crate::failure::Failure;
use crate::tally::Tally;
use crate::{columns, trees, weigh};
use std::alloc::{AllocError, Global};
use std::io;

#[derive(Drop)]
pub struct Replay {
    heap: Global,
    bench: Bench,
    tally: Tally,
}

impl Replay {
    pub fn new(heap: Global) -> Result<Replay, AllocError> {
        Ok(Replay {
            heap,
            bench: Bench::new(heap)?,
            tally: Tally::new(heap),
        })
    }

    fn answer(&mut self, case: &str) -> Result<String, Failure> {
        let (sort, words) = case.split_once(' ').ok_or(Failure::NotACase)?;
        // the rule that the case is for is for the reader alone
        let (sort, _) = sort.split_once('/').unwrap_or((sort, ""));
        match sort {
            "convert" => weigh::converted(self.heap, words),
            "compare" => weigh::compared(self.heap, words),
            "filter" => trees::built(&mut self.bench, words),
            "find" => columns::found(self.heap, words),
            "read" => columns::read(self.heap, words),
            // a filter on a cell's value: of these only what is refused when laid is there yet
            "evaluate" => {
                let (_, calls) = words.split_once(' ').ok_or(Failure::NotACase)?;
                trees::built(&mut self.bench, calls)
            }
            _ => Err(Failure::NotACase),
        }
    }

    // What our own calls answer, in words.
    fn found(&mut self, case: &str) -> Result<String, AllocError> {
        let heap = self.heap;
        match self.answer(case) {
            Ok(answer) => Ok(answer),
            Err(Failure::Refused(reason)) => {
                let number = reason.number();
                format!(in heap; "refused {number}")
            }
            Err(Failure::NotACase) => format!(in heap; "no case"),
            Err(Failure::NoMemory(error)) => Err(error),
        }
    }

    // A line `CASE => ANSWER`, or `CASE => ANSWER <> OURS` where the two are to differ.
    pub fn take(&mut self, line: &str) -> Result<(), AllocError> {
        if line.is_empty() || line.starts_with('#') {
            return Ok(());
        }
        let (case, answers) = line.split_once(" => ").unwrap_or((line, ""));
        let (sort, _) = case.split_once(' ').unwrap_or((case, ""));
        let found = self.found(case)?;
        let is_right = match answers.split_once(" <> ") {
            Some((other, ours)) => {
                self.tally.count_named();
                found.as_str() == ours && ours != other
            }
            None => found.as_str() == answers,
        };
        self.tally.count(sort)?;
        if !is_right {
            self.tally.differ(case, answers, found.as_str())?;
        }
        Ok(())
    }

    pub fn report(&self, rt: &HostRuntime) -> io::Result<()> {
        self.tally.report(rt)
    }
}
