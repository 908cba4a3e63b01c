//! Random calls on books, beside a ledger on paper that the rules say how to keep.
#![tactic(auto)]

mod books;
mod call;
mod chance;
mod damage;
mod draw;
mod judge;
mod laid;
mod ledger;
mod meaning;
mod offers;
mod tables;
mod tally;
mod wording;

use crate::books::{PLANS, play};
use crate::tally::Tally;

// Every run draws the same calls.
const SEED: u64 = 20260415;

fn run(rt: &HostRuntime) -> anyhow::Result<()> {
    let mut tally = Tally::new();
    let mut seed = SEED;
    for plan in &PLANS {
        for _ in 0..plan.books {
            seed = seed.wrapping_add(1);
            play(rt.alloc(), plan, seed, &mut tally)?;
        }
    }
    tally.print(rt)?;
    Ok(())
}

fn main(rt: HostRuntime) -> anyhow::Result<()> {
    run(&rt)
}
