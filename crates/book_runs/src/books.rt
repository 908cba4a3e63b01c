// Books of several sizes, each with its run of calls.
use crate::call::{Call, NAMES};
use crate::chance::Chance;
use crate::damage::damage;
use crate::draw::{MOSTLY_SETS, USUAL, draw};
use crate::judge::{Difference, judge};
use crate::ledger::{Answer, Ledger, Refusal};
use crate::tables::Tables;
use crate::tally::Tally;
use std::alloc::{AllocError, Global};

// So many books over lent tables of those lengths, each with so many calls.
pub struct Plan {
    pub books: u64,
    pub nodes: usize,
    pub literals: usize,
    pub calls: usize,
    pub mostly_sets: bool,
}

pub static PLANS: [Plan; 9] = [
    Plan {
        books: 4,
        nodes: 0,
        literals: 0,
        calls: 20,
        mostly_sets: false,
    },
    Plan {
        books: 100,
        nodes: 3,
        literals: 2,
        calls: 12,
        mostly_sets: false,
    },
    Plan {
        books: 100,
        nodes: 8,
        literals: 4,
        calls: 30,
        mostly_sets: false,
    },
    Plan {
        books: 20,
        nodes: 12,
        literals: 0,
        calls: 30,
        mostly_sets: false,
    },
    Plan {
        books: 80,
        nodes: 24,
        literals: 64,
        calls: 60,
        mostly_sets: false,
    },
    Plan {
        books: 40,
        nodes: 80,
        literals: 40,
        calls: 150,
        mostly_sets: false,
    },
    Plan {
        books: 8,
        nodes: 256,
        literals: 400,
        calls: 500,
        mostly_sets: false,
    },
    Plan {
        books: 4,
        nodes: 300,
        literals: 300,
        calls: 600,
        mostly_sets: false,
    },
    Plan {
        books: 6,
        nodes: 300,
        literals: 1100,
        calls: 700,
        mostly_sets: true,
    },
];

// Damages a copy of the tables, and makes a call of each kind on it: each is refused by 16 and writes nothing.
fn play_damaged(
    alloc: Global,
    chance: &mut Chance,
    ledger: &Ledger,
    tables: &Tables,
    tally: &mut Tally,
) -> Result<Option<String>, AllocError> {
    let mut damaged = tables.copy(alloc)?;
    let parts = ledger.parts()?;
    let Some(place) = damage(chance, &mut damaged, ledger, parts.as_slice()) else {
        return Ok(None);
    };
    tally.add_damage();
    let before = damaged.copy(alloc)?;
    let expected: Answer = Err(Refusal { number: 16, place });
    for kind in 0..NAMES.len() {
        let call = draw(chance, alloc, ledger, kind)?;
        let found = damaged.perform(alloc, &call)?;
        let difference = if found != expected {
            Difference::Answer { expected, found }
        } else if !damaged.is(&before) {
            Difference::Written
        } else {
            tally.add_damaged_call();
            continue;
        };
        return Ok(Some(format!(in alloc; "on damaged tables {call}: {difference}")?));
    }
    Ok(None)
}

// Makes one call on the book and enters it in the ledger, and says where they differ.
fn play_call(
    alloc: Global,
    call: &Call,
    ledger: &mut Ledger,
    tables: &mut Tables,
    tally: &mut Tally,
) -> Result<Option<String>, AllocError> {
    let before = tables.copy(alloc)?;
    let expected = ledger.obey(call)?;
    let found = tables.perform(alloc, call)?;
    tally.add_call(call.kind(), found);
    match judge(alloc, call, ledger, &before, tables, expected, found)? {
        Some(difference) => Ok(Some(format!(in alloc; "{call}: {difference}")?)),
        None => {
            tally.add_filters(tables.used, tables.stored, ledger.standing());
            Ok(None)
        }
    }
}

// One book's run, up to the first difference.
pub fn play(alloc: Global, plan: &Plan, seed: u64, tally: &mut Tally) -> Result<(), AllocError> {
    let mut chance = Chance::from_seed(seed);
    let mut ledger = Ledger::new(alloc, plan.nodes, plan.literals);
    let mut tables = Tables::lent(alloc, plan.nodes, plan.literals)?;
    tally.add_book();
    for number in 0..plan.calls {
        let kind = if plan.mostly_sets {
            chance.pick(&MOSTLY_SETS)
        } else {
            chance.pick(&USUAL)
        };
        let call = draw(&mut chance, alloc, &ledger, kind.unwrap_or(0))?;
        let mut finding = play_call(alloc, &call, &mut ledger, &mut tables, tally)?;
        if finding.is_none() && chance.once_in(12) {
            finding = play_damaged(alloc, &mut chance, &ledger, &tables, tally)?;
        }
        if let Some(finding) = finding {
            let (nodes, literals) = (plan.nodes, plan.literals);
            tally.add_difference(format!(in alloc;
                "seed {seed}, {nodes} nodes, {literals} literals, call {number}: {finding}"
            )?);
            return Ok(());
        }
    }
    Ok(())
}
