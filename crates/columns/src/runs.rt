// Runs of cells read from the table that they lie in.
ghost use Rattle.std.specs.Prelude.{◌≡◌};
ghost use Rattle.columns.specs.Bound.{cells_at};

use nodes::slots::Run;

// The cells of the run: fewer than its count where it passes the table's end.
pub fn cells<T: Copy>(table: &[T], run: Run) -> &[T]
    ensures are_the_cells_there { result.now ≡ cells_at table.now run }
{
    let start = (run.start as usize).min(table.len());
    let count = (run.count as usize).min(table.len() - start);
    &table[start..start + count]
}
