// Fields that count as equal by their full names.
ghost use Rattle.std.specs.Str.{bytes_eq};
ghost use Rattle.schema.specs.Names.{full_name};
ghost use Rattle.schema.specs.Equals.{bytes_reflexive, bytes_symmetric, bytes_transitive};

use crate::fields::Schema;
use crate::names::Case;
use lists::policy::{Equality, Reflexive, Test};

// Fields of a schema by their places in its table.
#[derive(Clone, Copy)]
pub struct FullNames<'a> {
    pub schema: Schema<'a>,
}

impl<'a> Test for FullNames<'a> {
    type Item = usize;

    ghost passed = { λ s i j. bytes_eq (full_name s.schema.fields.now s.schema.text.now i) (full_name s.schema.fields.now s.schema.text.now j) };

    fn passes(&self, earlier: &usize, later: &usize) -> bool {
        Case::Sensitive.is_same(self.schema.name_of(*earlier), self.schema.name_of(*later))
    }
}

impl<'a> Reflexive for FullNames<'a> {
    ghost reflexive = { λ s x. bytes_reflexive (full_name s.schema.fields.now s.schema.text.now x) };
}

impl<'a> Equality for FullNames<'a> {
    ghost symmetric = { λ s x y. bytes_symmetric (full_name s.schema.fields.now s.schema.text.now x) (full_name s.schema.fields.now s.schema.text.now y) };

    ghost transitive = { λ s x y z. bytes_transitive (full_name s.schema.fields.now s.schema.text.now x) (full_name s.schema.fields.now s.schema.text.now y) (full_name s.schema.fields.now s.schema.text.now z) };
}
