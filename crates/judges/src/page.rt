// The page visitor: which rows of a page meet a filter, and which do not.
ghost use Rattle.std.specs.Prelude.{◌≡◌, ◌<◌, ◌≤◌, length, map};
ghost use Rattle.filters.specs.Meanings.{EvenHanded};
ghost use Rattle.nodes.specs.Conditions.{opposite};
ghost use Rattle.walk.specs.Tests.{tested};
ghost use Rattle.judges.specs.Answers.{stands_or_beyond};
ghost use Rattle.judges.specs.Agreement.{AgreesWithEachRow};
ghost use Rattle.judges.specs.Visitors.{condition};
ghost use Rattle.judges.specs.Pages.{no_row, every_yes, every_no, marked, marking, paging};

use crate::three_valued::ThreeValued;
use crate::verdicts::Verdict;
use rows::row::Row;
use walk::conditions::Test;
use walk::faults::Fault;
use walk::visitor::Visitor;

// How many rows a page may have.
const LIMIT: usize = 64;

// Of each row a bit in a word, the first row's lowest.
#[derive(Clone, Copy, PartialEq, Eq)]
pub struct Words {
    pub yes: u64,
    pub no: u64,
}

#[derive(Clone, Copy)]
pub struct Page<'a, R> {
    rows: &'a [R],
}

impl Words {
    // With the row's bit set, if the verdict is known.
    fn mark(self, at: usize, verdict: Verdict) -> Words
        requires { at < 64 }
        ensures sets_one_bit { result ≡ marked at verdict self }
    {
        let bit = 1u64 << at;
        match verdict {
            Verdict::True => Words {
                yes: self.yes | bit,
                no: self.no,
            },
            Verdict::False => Words {
                yes: self.yes,
                no: self.no | bit,
            },
            Verdict::Unknown => self,
        }
    }
}

// Judges row after row, up to the first fault.
fn judge_each<R: Row>(rows: &[R], test: &Test) -> Result<Words, Fault>
    requires { length rows.now ≤ 64 }
    ensures marks_each_row { result ≡ marking (λ row. condition stands_or_beyond row (tested test.now)) 0 (map R.reached rows.now) no_row }
{
    let mut words = Words { yes: 0, no: 0 };
    for (at, row) in rows.iter().enumerate() {
        let verdict = ThreeValued::new(row).condition(test)?;
        words = words.mark(at, verdict);
    }
    Ok(words)
}

impl<'a, R: Row> Page<'a, R> {
    // Of the rows the first 64 are judged.
    pub fn new(rows: &'a [R]) -> Page<'a, R>
        ensures judges_the_rows { result.rows.now ≡ rows.now }
        ensures is_even_handed { EvenHanded opposite (paging (map R.reached rows.now)) }
        ensures says_each_rows_verdict { AgreesWithEachRow (map R.reached rows.now) }
    {
        Page { rows }
    }
}

impl<'a, R: Row> Visitor for Page<'a, R> {
    type Answer = Words;

    ghost meaning = { λ s. paging (map R.reached s.rows.now) };

    fn constant(&self, value: bool) -> Result<Words, Fault> {
        Ok(if value {
            Words {
                yes: u64::MAX,
                no: 0,
            }
        } else {
            Words {
                yes: 0,
                no: u64::MAX,
            }
        })
    }

    fn condition(&self, test: &Test) -> Result<Words, Fault> {
        let count = LIMIT.min(self.rows.len());
        judge_each(&self.rows[..count], test)
    }

    fn and(&self, left: Words, right: Words) -> Result<Words, Fault> {
        Ok(Words {
            yes: left.yes & right.yes,
            no: left.no | right.no,
        })
    }

    fn or(&self, left: Words, right: Words) -> Result<Words, Fault> {
        Ok(Words {
            yes: left.yes | right.yes,
            no: left.no & right.no,
        })
    }

    fn not(&self, answer: Words) -> Result<Words, Fault> {
        Ok(Words {
            yes: answer.no,
            no: answer.yes,
        })
    }
}
