// The places on the way from the top of a row to a primitive field.
ghost use Rattle.std.specs.Prelude.{◌≡◌, ℕ, ◌<◌, map, length, take, Ok, MatchOption};
ghost use Rattle.schema.specs.Lines.{line, place};
ghost use Rattle.schema.specs.Accessors.{Access, read, accessor_of};

use crate::accessor::StructAccessor;
use crate::fields::{MAX_FIELDS, Schema, Shape};
use values::kinds::Kind;
use values::refusals::Reason;

impl<'a> Schema<'a> {
    // The accessor of the places from the top down to a field; or nothing, where they are more than fit.
    fn path_to(&self, field: usize, kind: Kind) -> Option<StructAccessor>
        requires is_small { field < 128 }
        ensures goes_down_the_line { MatchOption result (8 < length (line self.now.fields.now field)) (λ a. (a.count ≡ length (line self.now.fields.now field)) × (take a.count a.places ≡ map (place self.now.fields.now) (line self.now.fields.now field)) × (a.kind ≡ kind)) }
    {
        let above = match self.parent_of(field) {
            None => StructAccessor::of_kind(kind),
            Some(parent) => self.path_to(parent, kind)?,
        };
        // a place is counted only where it fits
        if above.is_full() {
            return None;
        }
        above.then(self.place_of(field) as u16)
    }

    // The accessor of a field; a struct, a list or a map has none.
    pub fn accessor(&self, field: usize) -> Result<StructAccessor, Reason>
        ensures is_the_fields { read result ≡ accessor_of self.now.fields.now field }
        ensures leads_to_no_other_field { (other : ℕ) (a b : Access) → read result ≡ Ok a → accessor_of self.now.fields.now other ≡ Ok b → a.places ≡ b.places → other ≡ field }
    {
        match self.field_at(field).shape {
            Shape::Primitive(kind) if field < MAX_FIELDS => {
                self.path_to(field, kind).ok_or(Reason::NoAccessor)
            }
            _ => Err(Reason::NoAccessor),
        }
    }
}
