// The line of fields from the top down to a field, and the places along it.
ghost use Rattle.std.specs.Prelude.{◌≡◌, ◌≤◌};
ghost use Rattle.schema.specs.Lines.{field_at, parent_of, place};

use crate::fields::{Field, Schema, Shape};
use values::literals::Span;

// What stands past the end of a table: a field that no lookup finds and no row holds.
const NOWHERE: Field = Field {
    number: 0,
    name: Span { start: 0, len: 0 },
    required: false,
    parent: None,
    shape: Shape::ListOrMap,
};

impl<'a> Schema<'a> {
    // The field at a place of the table.
    pub(crate) fn field_at(&self, i: usize) -> Field
        ensures is_the_field_there { result ≡ field_at self.now.fields.now i }
    {
        self.fields.get(i).copied().unwrap_or(NOWHERE)
    }

    // The parent of a field, where it is an earlier one.
    pub(crate) fn parent_of(&self, i: usize) -> Option<usize>
        ensures is_the_earlier_parent { result ≡ parent_of self.now.fields.now i }
    {
        self.fields.get(i)?.parent.filter(|&parent| parent < i)
    }

    // How many earlier fields have the same parent.
    pub(crate) fn place_of(&self, i: usize) -> usize
        ensures counts_the_earlier_of_its_parent { result ≡ place self.now.fields.now i }
        ensures is_no_more_than_the_earlier { result ≤ i }
    {
        let parent = self.parent_of(i);
        (0..i).filter(|&j| self.parent_of(j) == parent).count()
    }
}
