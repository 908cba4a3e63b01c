// How many cases of each sort there were, and how many differed.
use std::alloc::{AllocError, Global};
use std::io;

#[derive(Drop)]
struct Count {
    sort: String,
    cases: u64,
}

#[derive(Drop)]
pub struct Tally {
    heap: Global,
    counts: Vec<Count>,
    cases: u64,
    // of the cases those of which a difference is named
    named: u64,
    differing: u64,
    first_difference: Option<String>,
}

impl Tally {
    pub fn new(heap: Global) -> Tally {
        Tally {
            heap,
            counts: Vec::new(heap),
            cases: 0,
            named: 0,
            differing: 0,
            first_difference: None,
        }
    }

    // One case more of the sort.
    pub fn count(&mut self, sort: &str) -> Result<(), AllocError> {
        self.cases = self.cases.saturating_add(1);
        for count in &mut self.counts {
            if count.sort.as_str() == sort {
                count.cases = count.cases.saturating_add(1);
                return Ok(());
            }
        }
        let sort = String::from_str(self.heap, sort)?;
        self.counts.push(Count { sort, cases: 1 })?;
        Ok(())
    }

    // The next case is of a named difference.
    pub fn count_named(&mut self) {
        self.named = self.named.saturating_add(1);
    }

    // One difference more; the first is kept in full.
    pub fn differ(&mut self, case: &str, expected: &str, found: &str) -> Result<(), AllocError> {
        self.differing = self.differing.saturating_add(1);
        if self.first_difference.is_none() {
            let heap = self.heap;
            let shown = format!(in heap; "   {case}\n   expected {expected}\n   found {found}")?;
            self.first_difference = Some(shown);
        }
        Ok(())
    }

    pub fn report(&self, rt: &HostRuntime) -> io::Result<()> {
        for count in &self.counts {
            let Count { sort, cases } = count;
            println!(rt; "{cases} {sort}")?;
        }
        let Tally {
            cases,
            named,
            differing,
            ..
        } = self;
        println!(rt; "{cases} cases, {named} of them of named differences: {differing} differing")?;
        if let Some(difference) = &self.first_difference {
            println!(rt; "the first difference:\n{difference}")?;
        }
        Ok(())
    }
}
