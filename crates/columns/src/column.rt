// A bound column: a field with its accessor, whose places lie in a table that is lent beside it.
ghost use Rattle.std.specs.Prelude.{◌≡◌};
ghost use Rattle.columns.specs.Bound.{bound_of, within as within_tables};

use crate::runs::cells;
use nodes::slots::Run;
use nodes::term::{Extent, Term};
use values::kinds::Kind;

#[derive(Clone, Copy)]
pub struct Column {
    // the field's number
    pub field: u32,
    pub kind: Kind,
    // the accessor's places, of those in the table
    pub places: Run,
    // whether no row may leave the field out
    pub mandatory: bool,
}

impl Column {
    // The accessor's places: fewer than the run counts where it passes the table's end.
    pub fn places_in(self, table: &[u16]) -> &[u16]
        ensures are_the_bound_columns { result.now ≡ (bound_of table.now self).places }
    {
        cells(table, self.places)
    }
}

// It lies within its tables if its places do.
impl Term for Column {
    ghost within = { within_tables };

    fn lies_within(self, extent: Extent) -> bool {
        self.places.start as usize + self.places.count as usize <= extent.places
    }
}
