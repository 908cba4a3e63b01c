// One offer, under any test.
ghost use Rattle.std.specs.Prelude.{◌≡◌};
ghost use Rattle.lists.specs.Keep.{against, run, offered, stored};

use crate::list::Offered;
use crate::policy::Test;
use std::ops::Range;

// The elements held, from `start` to `end`: cut out of the table, since a chain of `skip` and `take` asks of every element
// again where it stands.
fn held<T>(items: &[T], start: usize, end: usize) -> &[T]
    ensures are_the_run { result.now ≡ run items.now start end }
{
    let end = end.min(items.len());
    let start = start.min(end);
    &items[start..end]
}

// Whether `x` passes against one of those held, each the earlier of the two.
fn passes_any<P: Test>(policy: &P, held: &[P::Item], x: &P::Item) -> bool
    ensures passes_against_one { result ≡ against (P.passed policy.now) held.now x.now }
{
    held.iter().any(|y| policy.passes(y, x))
}

// Offers `x` to the list that lies in the cells.
pub fn offer_to<P: Test>(
    policy: &P,
    items: &mut [P::Item],
    cells: Range<usize>,
    x: P::Item,
) -> Offered
    ensures keeps_what_passes_against_none { result ≡ offered (P.passed policy.now) items.old cells.start cells.end x }
    ensures writes_the_kept_alone { items.new ≡ stored result items.old cells.end x }
{
    let Range { start, end } = cells;
    if passes_any(policy, held(items, start, end), &x) {
        return Offered::Dropped;
    }
    if end < start || end >= items.len() {
        return Offered::Full;
    }
    items[end] = x;
    Offered::Kept
}
