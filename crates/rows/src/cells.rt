// The cells that a row is made of.
use values::literals::Value;

#[derive(Clone, Copy)]
pub enum Cell {
    Null,
    Value(Value),
    // so many cells of the same table, all after this one
    Group { start: usize, count: usize },
    ListOrMap,
}
