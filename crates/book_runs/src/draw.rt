// Random calls: granted and refused ones mixed.
use crate::call::{Call, Leaf};
use crate::chance::Chance;
use crate::ledger::Ledger;
use crate::offers::{COLUMNS_INSIDE, Family, KEPT, OFFERS, OPERATORS};
use crate::wording::Connective;
use std::alloc::{AllocError, Global};

// How often each call is drawn, by its place among the names.
pub static USUAL: [usize; 24] = [
    0, 0, 1, 1, 2, 2, 2, 2, 3, 3, 3, 3, 4, 4, 4, 5, 5, 5, 6, 6, 7, 8, 8, 9,
];

pub static MOSTLY_SETS: [usize; 18] = [0, 2, 3, 3, 3, 3, 3, 3, 3, 3, 3, 3, 3, 3, 4, 5, 7, 8];

// A filter's number: mostly one that stands, else one in use, or one past the end.
fn draw_filter(chance: &mut Chance, ledger: &Ledger) -> u16 {
    let used = ledger.used();
    let drawn = chance.below(used);
    let number = match chance.below(12) {
        0 => used.saturating_add(chance.below(3)),
        1 => drawn,
        2 if chance.once_in(4) => 65535,
        _ => match ledger.standing_from(drawn) {
            Some(number) => return number,
            None => drawn,
        },
    };
    u16::try_from(number).unwrap_or(u16::MAX)
}

fn draw_operator(chance: &mut Chance, family: Family) -> usize {
    if chance.once_in(8) {
        return chance.below(OPERATORS.len());
    }
    match family {
        Family::Unary => chance.below(4),
        Family::Binary => chance.below(8).saturating_add(4),
        Family::Set => chance.below(2).saturating_add(12),
    }
}

// Literals that often repeat, now and then one that is refused.
fn draw_literals(
    chance: &mut Chance,
    alloc: Global,
    count: usize,
) -> Result<Vec<usize>, AllocError> {
    let mut offered = Vec::new(alloc);
    let first = chance.below(KEPT);
    let reach = if chance.once_in(2) { KEPT } else { 6 };
    let has_faults = chance.once_in(5);
    for _ in 0..count {
        let place = if has_faults && chance.once_in(4) {
            chance.below(OFFERS.len())
        } else {
            first
                .saturating_add(chance.below(reach))
                .checked_rem(KEPT)
                .unwrap_or(0)
        };
        offered.push(place)?;
    }
    Ok(offered)
}

fn draw_leaf(chance: &mut Chance, alloc: Global, family: Family) -> Result<Call, AllocError> {
    let count = match family {
        Family::Unary => 0,
        Family::Binary => 1,
        Family::Set if chance.once_in(3) => chance.below(40),
        Family::Set => chance.below(8),
    };
    let column = if chance.once_in(12) {
        COLUMNS_INSIDE
    } else {
        chance.below(COLUMNS_INSIDE)
    };
    Ok(Call::Condition(Leaf {
        family,
        column,
        operator: draw_operator(chance, family),
        offered: draw_literals(chance, alloc, count)?,
    }))
}

// A call of the kind at a place among the names.
pub fn draw(
    chance: &mut Chance,
    alloc: Global,
    ledger: &Ledger,
    kind: usize,
) -> Result<Call, AllocError> {
    Ok(match kind {
        0 => Call::Constant(chance.once_in(2)),
        1 => return draw_leaf(chance, alloc, Family::Unary),
        2 => return draw_leaf(chance, alloc, Family::Binary),
        3 => return draw_leaf(chance, alloc, Family::Set),
        4 => Call::Join(
            Connective::And,
            draw_filter(chance, ledger),
            draw_filter(chance, ledger),
        ),
        5 => Call::Join(
            Connective::Or,
            draw_filter(chance, ledger),
            draw_filter(chance, ledger),
        ),
        6 => Call::Not(draw_filter(chance, ledger)),
        7 => Call::Negate(draw_filter(chance, ledger)),
        8 => Call::Rewrite {
            filter: draw_filter(chance, ledger),
            folds: true,
        },
        _ => Call::Rewrite {
            filter: draw_filter(chance, ledger),
            folds: false,
        },
    })
}
