// Literals of one text under equality.
ghost use Rattle.book.specs.Equality.{same_literal};
ghost use Rattle.book.specs.Equal.{literal_reflexive, literal_symmetric, literal_transitive};

use comparison::data::Datum;
use lists::policy::{Equality, Reflexive, Test};
use values::literals::Literal;

#[derive(Clone, Copy)]
pub struct Literals<'a> {
    pub text: &'a [u8],
}

impl<'a> Test for Literals<'a> {
    type Item = Literal;

    ghost passed = { λ s a b. same_literal s.text.now a b };

    fn passes(&self, earlier: &Literal, later: &Literal) -> bool {
        Datum::new(*earlier, self.text) == Datum::new(*later, self.text)
    }
}

impl<'a> Reflexive for Literals<'a> {
    ghost reflexive = { λ s x. literal_reflexive s.text.now x };
}

impl<'a> Equality for Literals<'a> {
    ghost symmetric = { λ s x y. literal_symmetric s.text.now x y };

    ghost transitive = { λ s x y z. literal_transitive s.text.now x y z };
}
