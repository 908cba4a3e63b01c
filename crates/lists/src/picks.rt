// Elements picked by their places in a slice, so that a list can be found before a cell is written.
ghost use Rattle.std.specs.Prelude.{◌≡◌, ◌+◌, ◌≤◌, min, length};
ghost use Rattle.lists.specs.Keep.{kept, placed, laid_end, laid};
ghost use Rattle.lists.specs.Picks.{alike, chosen, Below, Picked};

use crate::list::{LIMIT, Offered};
use crate::offers::offer_to;
use crate::policy::Test;

// Places, tested as the elements that stand there.
#[derive(Drop)]
struct Places<'a, 'b, P: Test> {
    policy: &'a P,
    from: &'b [P::Item],
}

impl<'a, 'b, P: Test> Test for Places<'a, 'b, P> {
    type Item = usize;

    ghost passed = { λ s a b. alike (P.Test.passed s.policy.now) s.from.now a b };

    fn passes(&self, earlier: &usize, later: &usize) -> bool {
        match (self.from.get(*earlier), self.from.get(*later)) {
            (Some(x), Some(y)) => self.policy.passes(x, y),
            _ => false,
        }
    }
}

// Picks the places of those that a new list keeps, or answers nothing where they are more than there is room for.
fn pick<P: Test>(policy: &P, from: &[P::Item], picks: &mut [usize]) -> Option<usize>
    ensures picks_the_kept { Picked (P.passed policy.now) from.now picks.new result }
{
    let places = Places { policy, from };
    let mut end = 0;
    // the places themselves are offered, and no element is read here
    for place in 0..from.len() {
        match offer_to(&places, picks, 0..end, place) {
            Offered::Kept => end += 1,
            Offered::Dropped => {}
            Offered::Full => return None,
        }
    }
    Some(end)
}

// Copies the elements picked into the cells from `start` on.
fn copy_picked<T: Copy>(from: &[T], picks: &[usize], items: &mut [T], start: usize)
    requires picks_stand_within { Below (length from.now) picks.now }
    requires has_room { start + length picks.now ≤ length items.old }
    ensures writes_those_cells { items.new ≡ placed items.old start (chosen from.now picks.now) }
{
    // no `iter_mut`: after that of a slice a proof knows no element
    for (i, &place) in picks.iter().enumerate() {
        items[start + i] = from[place];
    }
}

// Lays a new list of the elements from the cell `start` on, and answers its end; or changes nothing, where it has no room.
pub fn lay<P: Test>(
    policy: &P,
    from: &[P::Item],
    items: &mut [P::Item],
    start: usize,
) -> Option<usize>
    ensures answers_the_end { result ≡ laid_end (kept (P.passed policy.now) from.now) start (min (length items.old) 1024) }
    ensures lays_all_or_nothing { items.new ≡ laid (kept (P.passed policy.now) from.now) items.old start (min (length items.old) 1024) }
{
    let room = items.len().min(LIMIT).checked_sub(start)?;
    // nothing is allocated, so that the places stand in fixed memory, their count beside it
    let mut picks = [0usize; LIMIT];
    let count = pick(policy, from, &mut picks)?;
    if count > room {
        return None;
    }
    copy_picked(from, &picks[0..count], items, start);
    Some(start + count)
}
