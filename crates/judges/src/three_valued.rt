// The three-valued visitor: whether a row meets a filter, or it is unknown.
ghost use Rattle.std.specs.Prelude.{◌≡◌};
ghost use Rattle.filters.specs.Meanings.{EvenHanded};
ghost use Rattle.nodes.specs.Conditions.{opposite};
ghost use Rattle.judges.specs.Visitors.{judging};

use crate::answers::{answer, literals};
use crate::found::Found;
use crate::verdicts::Verdict;
use rows::row::Row;
use walk::conditions::Test;
use walk::faults::Fault;
use walk::visitor::Visitor;

#[derive(Clone, Copy)]
pub struct ThreeValued<'a, R> {
    row: &'a R,
}

impl<'a, R: Row> ThreeValued<'a, R> {
    pub fn new(row: &'a R) -> ThreeValued<'a, R>
        ensures judges_the_row { result.row.now ≡ row.now }
        ensures is_even_handed { EvenHanded opposite (judging (R.reached row.now)) }
    {
        ThreeValued { row }
    }
}

impl<'a, R: Row> Visitor for ThreeValued<'a, R> {
    type Answer = Verdict;

    ghost meaning = { λ s. judging (R.reached s.row.now) };

    fn constant(&self, value: bool) -> Result<Verdict, Fault> {
        Ok(Verdict::sure(value))
    }

    fn condition(&self, test: &Test) -> Result<Verdict, Fault> {
        let found = Found::read(self.row, test)?;
        let literals = literals(test);
        let standing = found.standing_or_beyond(literals, test.text);
        Ok(answer(test.op, standing, &found, literals, test.text))
    }

    fn and(&self, left: Verdict, right: Verdict) -> Result<Verdict, Fault> {
        Ok(left.and(right))
    }

    fn or(&self, left: Verdict, right: Verdict) -> Result<Verdict, Fault> {
        Ok(left.or(right))
    }

    fn not(&self, answer: Verdict) -> Result<Verdict, Fault> {
        Ok(answer.not())
    }
}
