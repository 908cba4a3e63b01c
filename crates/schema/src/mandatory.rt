// Which fields a row may not leave out.
ghost use Rattle.std.specs.Prelude.{◌≡◌};
ghost use Rattle.schema.specs.Mandatory.{mandatory};

use crate::fields::Schema;

impl<'a> Schema<'a> {
    // Whether no row may leave the field out.
    pub fn is_mandatory(&self, field: usize) -> bool
        ensures asks_the_field { result ≡ mandatory self.now.fields.now field }
    {
        self.field_at(field).required
    }
}
