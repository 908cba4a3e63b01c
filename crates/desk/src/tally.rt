// How a run went.
use std::fmt;

// What became of a line that held a command.
#[derive(Clone, Copy)]
pub enum Outcome {
    Granted,
    Refused,
    NotUnderstood,
}

#[derive(Clone, Copy, Default)]
pub struct Tally {
    granted: u64,
    refused: u64,
    not_understood: u64,
}

impl Tally {
    pub fn count(&mut self, outcome: Outcome) {
        let counter = match outcome {
            Outcome::Granted => &mut self.granted,
            Outcome::Refused => &mut self.refused,
            Outcome::NotUnderstood => &mut self.not_understood,
        };
        // three counts by outcome, no index
        *counter = counter.saturating_add(1);
    }
}

impl fmt::Display for Tally {
    fn fmt<W: fmt::Write>(&self, f: &mut fmt::Formatter<W>) -> fmt::Result {
        let Tally {
            granted,
            refused,
            not_understood,
        } = *self;
        let commands = granted
            .saturating_add(refused)
            .saturating_add(not_understood);
        write!(
            f,
            "{commands} commands: {granted} granted, {refused} refused, {not_understood} not understood"
        )
    }
}
