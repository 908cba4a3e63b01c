// The keep-first list under an equality: a run of cells in a lent table.
ghost use Rattle.std.specs.Prelude.{◌≡◌, min, true, length, ◌≢◌};
ghost use Rattle.lists.specs.declared.list.Offered.TheVariants.{Full};
ghost use Rattle.lists.specs.Keep.{against, kept, run, offered, stored, end_after, held_after, laid_end, laid};
ghost use Rattle.lists.specs.Laws.{Each, Distinct, firsts};

use crate::offers::offer_to;
use crate::picks::lay;
use crate::policy::Equality;
use std::ops::Range;

// What became of an element that was offered. Two of the three are no failure, so that this is neither an Option nor a Result.
#[derive(Clone, Copy, PartialEq, Eq)]
pub enum Offered {
    Kept,
    Dropped,
    // to be kept, and no cell follows the list
    Full,
}

// Offers `x` to the list that lies in the cells.
pub fn offer<P: Equality>(
    policy: &P,
    items: &mut [P::Item],
    cells: Range<usize>,
    x: P::Item,
) -> Offered
    ensures keeps_what_equals_none_held { result ≡ offered (P.Test.passed policy.now) items.old cells.start cells.end x }
    ensures writes_the_kept_alone { items.new ≡ stored result items.old cells.end x }
    ensures holds_the_kept_last { run items.new cells.start (end_after result cells.end) ≡ held_after result (run items.old cells.start cells.end) x }
    ensures has_an_equal_unless_full { (result ≢ Full) → against (P.Test.passed policy.now) (run items.new cells.start (end_after result cells.end)) x ≡ true }
    ensures no_two_become_equal { Distinct (P.Test.passed policy.now) (run items.old cells.start cells.end) → Distinct (P.Test.passed policy.now) (run items.new cells.start (end_after result cells.end)) }
{
    offer_to(policy, items, cells, x)
}

// A list lies among the first so many cells of its table.
pub const LIMIT: usize = 1024;

// Lays a new list of the elements from the cell `start` on, and answers its end; or changes nothing, where it has no room.
// Where it ends is its answer, so that no range of cells is handed in.
pub fn keep_first<P: Equality>(
    policy: &P,
    from: &[P::Item],
    items: &mut [P::Item],
    start: usize,
) -> Option<usize>
    ensures answers_the_end { result ≡ laid_end (kept (P.Test.passed policy.now) from.now) start (min (length items.old) 1024) }
    ensures lays_all_or_nothing { items.new ≡ laid (kept (P.Test.passed policy.now) from.now) items.old start (min (length items.old) 1024) }
    ensures each_has_an_equal { Each (λ x. against (P.Test.passed policy.now) (kept (P.Test.passed policy.now) from.now) x ≡ true) from.now }
    ensures no_two_are_equal { Distinct (P.Test.passed policy.now) (kept (P.Test.passed policy.now) from.now) }
    ensures keeps_the_first_of_equals { kept (P.Test.passed policy.now) from.now ≡ firsts (P.Test.passed policy.now) from.now }
{
    lay(policy, from, items, start)
}
