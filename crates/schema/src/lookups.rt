// Lookups by full name.
ghost use Rattle.std.specs.Prelude.{◌≡◌, ℕ, ◌<◌, length, Ok};
ghost use Rattle.schema.specs.declared.names.Case.TheVariants.{Sensitive, Insensitive};
ghost use Rattle.schema.specs.Names.{full_name};
ghost use Rattle.schema.specs.Lookups.{is_named, named, first_of, only_of, Named, NamedOnce};
ghost use Rattle.schema.specs.Rules.{Sound};

use crate::fields::Schema;
use crate::names::{Case, Tail};
use values::refusals::Reason;

impl<'a> Schema<'a> {
    // Whether the field has the name.
    fn is_named(&self, case: Case, field: usize, name: &[u8]) -> bool
        ensures compares_the_full_name { result ≡ is_named case self.now.fields.now self.now.text.now name.now field }
    {
        let wanted = Tail {
            schema: *self,
            left: name,
            above: None,
        };
        case.is_same(self.name_of(field), wanted)
    }

    // The first field of that full name.
    pub fn field_by_name(&self, name: &[u8]) -> Result<usize, Reason>
        ensures is_the_first_of_that_name { result ≡ first_of (named Sensitive self.now.fields.now self.now.text.now name.now) }
        ensures tells_of_full_names { Named self.now.fields.now self.now.text.now name.now result }
        ensures is_the_only_one_in_a_sound_schema { (i j : ℕ) → Sound self.now.fields.now self.now.text.now → result ≡ Ok i → j < length self.now.fields.now → full_name self.now.fields.now self.now.text.now j ≡ name.now → j ≡ i }
    {
        (0..self.fields.len())
            .find(|&field| self.is_named(Case::Sensitive, field, name))
            .ok_or(Reason::NameNotFound)
    }

    // The one field of that full name, where A to Z count as a to z.
    pub fn field_by_name_case_insensitive(&self, name: &[u8]) -> Result<usize, Reason>
        ensures is_the_only_one_of_that_name { result ≡ only_of (named Insensitive self.now.fields.now self.now.text.now name.now) }
        ensures tells_of_lowered_names { NamedOnce self.now.fields.now self.now.text.now name.now result }
    {
        let mut found = (0..self.fields.len()).filter(|&field| self.is_named(
            Case::Insensitive,
            field,
            name,
        ));
        let field = found.next().ok_or(Reason::NameNotFound)?;
        match found.next() {
            None => Ok(field),
            Some(_) => Err(Reason::NameAmbiguous),
        }
    }
}
