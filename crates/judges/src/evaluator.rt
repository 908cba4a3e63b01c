// The evaluator: whether a row meets a filter that has no Not.
ghost use Rattle.std.specs.Prelude.{◌≡◌, length};
ghost use Rattle.columns.specs.Bound.{within};
ghost use Rattle.book.specs.Ways.{tables, setting};
ghost use Rattle.walk.specs.Visits.{walk_of, TellsWhatIsMeant};
ghost use Rattle.judges.specs.Visitors.{evaluating};
ghost use Rattle.judges.specs.Agreement.{CountsUnknownAsFalse};

use crate::answers::{answer, literals};
use crate::found::Found;
use book::book::Book;
use columns::column::Column;
use rows::row::Row;
use values::refusals::Refused;
use walk::conditions::Test;
use walk::faults::Fault;
use walk::frames::Frame;
use walk::visitor::Visitor;
use walk::walks::walk;

#[derive(Clone, Copy)]
pub struct Evaluator<'a, R> {
    pub row: &'a R,
}

impl<'a, R: Row> Visitor for Evaluator<'a, R> {
    type Answer = bool;

    ghost meaning = { λ s. evaluating (R.reached s.row.now) };

    fn constant(&self, value: bool) -> Result<bool, Fault> {
        Ok(value)
    }

    fn condition(&self, test: &Test) -> Result<bool, Fault> {
        let found = Found::read(self.row, test)?;
        let literals = literals(test);
        let standing = found.standing(literals, test.text);
        Ok(answer(test.op, standing, &found, literals, test.text).is_true())
    }

    fn and(&self, left: bool, right: bool) -> Result<bool, Fault> {
        Ok(left && right)
    }

    fn or(&self, left: bool, right: bool) -> Result<bool, Fault> {
        Ok(left || right)
    }

    fn not(&self, _answer: bool) -> Result<bool, Fault> {
        Err(Fault::NotMet)
    }
}

// Whether the row meets the filter, which is to have no Not.
pub fn eval<R: Row>(
    book: &Book<'_, '_, Column>,
    n: u16,
    row: &R,
    work: &mut [Frame<bool>],
) -> Result<bool, Refused>
    ensures goes_by_the_rules { result ≡ walk_of (evaluating (R.reached row.now)) book.now.places.now (setting within book.now) (tables book.now) n (length work.old) }
    ensures tells_what_the_filter_means { TellsWhatIsMeant (evaluating (R.reached row.now)) book.now.places.now (setting within book.now) (tables book.now) n (length work.old) result }
    ensures counts_unknown_as_false { CountsUnknownAsFalse (R.reached row.now) }
{
    walk(book, n, &Evaluator { row }, work)
}
