//! The office's console: commands, one a line, from the file named as its argument or from standard input.
#![tactic(auto)]

mod columns;
mod failure;
mod kept;
mod laid;
mod obey;
mod row;
mod script;
mod show;
mod tally;
mod weigh;
mod wording;

use crate::obey::Desk;
use crate::tally::Tally;

fn run(rt: &HostRuntime) -> anyhow::Result<()> {
    let text = script::read(rt)?;
    let mut desk = Desk::new(rt.alloc())?;
    let mut tally = Tally::default();
    for (number, line) in (1u64..).zip(text.as_str().lines()) {
        if let Some(outcome) = desk.obey(rt, number, line)? {
            tally.count(outcome);
        }
    }
    println!(rt; "{tally}")?;
    Ok(())
}

fn main(rt: HostRuntime) -> anyhow::Result<()> {
    run(&rt)
}
