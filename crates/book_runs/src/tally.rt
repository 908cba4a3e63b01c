// What was run and compared.
use crate::call::NAMES;
use crate::ledger::Answer;
use std::io;

#[derive(Drop)]
pub struct Tally {
    books: u64,
    granted: [u64; 10],
    refused: [u64; 10],
    by_number: [u64; 24],
    // in the fullest books
    most_nodes: usize,
    most_literals: usize,
    filters: u64,
    damages: u64,
    damaged_calls: u64,
    differing: u64,
    // the first difference in full
    first: Option<String>,
}

fn raise(counts: &mut [u64], place: usize) {
    if let Some(count) = counts.get_mut(place) {
        *count = count.saturating_add(1);
    }
}

fn total(counts: &[u64]) -> u64 {
    counts
        .iter()
        .fold(0, |sum: u64, count| sum.saturating_add(*count))
}

impl Tally {
    pub fn new() -> Tally {
        Tally {
            books: 0,
            granted: [0; 10],
            refused: [0; 10],
            by_number: [0; 24],
            most_nodes: 0,
            most_literals: 0,
            filters: 0,
            damages: 0,
            damaged_calls: 0,
            differing: 0,
            first: None,
        }
    }

    pub fn add_book(&mut self) {
        self.books = self.books.saturating_add(1);
    }

    // A book of so many nodes and literals, whose standing filters all meant what their wordings say.
    pub fn add_filters(&mut self, nodes: usize, literals: usize, filters: usize) {
        self.most_nodes = self.most_nodes.max(nodes);
        self.most_literals = self.most_literals.max(literals);
        self.filters = self.filters.saturating_add(filters as u64);
    }

    pub fn add_call(&mut self, kind: usize, answer: Answer) {
        match answer {
            Ok(_) => raise(&mut self.granted, kind),
            Err(refusal) => {
                raise(&mut self.refused, kind);
                raise(&mut self.by_number, refusal.number as usize);
            }
        }
    }

    pub fn add_damage(&mut self) {
        self.damages = self.damages.saturating_add(1);
    }

    pub fn add_damaged_call(&mut self) {
        self.damaged_calls = self.damaged_calls.saturating_add(1);
    }

    pub fn add_difference(&mut self, finding: String) {
        self.differing = self.differing.saturating_add(1);
        if self.first.is_none() {
            self.first = Some(finding);
        }
    }

    pub fn print(&self, rt: &impl Print) -> io::Result<()> {
        let Tally {
            books,
            most_nodes,
            most_literals,
            filters,
            damages,
            damaged_calls,
            differing,
            first,
            ..
        } = self;
        println!(rt; "{books} books, of up to {most_nodes} nodes and {most_literals} literals")?;
        println!(rt; "{:<17} {:>7} {:>7}", "call", "granted", "refused")?;
        for (kind, name) in NAMES.iter().enumerate() {
            let granted = self.granted.get(kind).copied().unwrap_or(0);
            let refused = self.refused.get(kind).copied().unwrap_or(0);
            println!(rt; "{name:<17} {granted:>7} {refused:>7}")?;
        }
        let granted = total(&self.granted);
        let refused = total(&self.refused);
        println!(rt; "{:<17} {granted:>7} {refused:>7}", "all")?;
        for (number, count) in self.by_number.iter().enumerate() {
            if *count != 0 {
                println!(rt; "refused by {number:>2} {count:>11}")?;
            }
        }
        println!(rt; "{filters} times a standing filter's meaning beside its wording")?;
        println!(rt; "{damages} damages, {damaged_calls} calls refused by 16 on what they left")?;
        if let Some(finding) = first {
            println!(rt; "{finding}")?;
        }
        println!(rt; "{differing} differing")
    }
}
