//! Recorded cases run again: what our own calls answer, compared case by case with the answer that stands beside each.
//! Cases come from the files named as arguments, or from standard input where none is. oracle/README.md says how one is written.
#![tactic(auto)]

mod bench;
mod bits;
mod columns;
mod failure;
mod literals;
mod replay;
mod tally;
mod trees;
mod weigh;

use crate::replay::Replay;
use std::io::{BufRead, BufReader};
use std::{env, fs};

fn run(rt: &HostRuntime) -> anyhow::Result<()> {
    let mut replay = Replay::new(rt.alloc())?;
    let mut args = env::args(rt)?;
    let _program = args.next();
    let mut named = false;
    for path in args {
        named = true;
        let text = fs::read_to_string(rt, path.as_str())?;
        for line in text.as_str().lines() {
            replay.take(line)?;
        }
    }
    if !named {
        for line in BufReader::new(rt.alloc(), rt.reader())?.lines(rt.alloc()) {
            replay.take(line?.as_str())?;
        }
    }
    replay.report(rt)?;
    Ok(())
}

fn main(rt: HostRuntime) -> anyhow::Result<()> {
    run(&rt)
}
