// Reading a line's words one after another.
ghost use Rattle.std.specs.Prelude.{◌≡◌, [], ◌∷◌, Decides};
ghost use Rattle.reading.specs.NextWord.{words_left};
ghost use Rattle.commands.specs.Steps.{WordFrom, Takes, Passes, Ends, Done};

use crate::arguments::Argument;
use crate::command::{Fault, Malformed};
use reading::words::{Word, Words};

// What is left to read of a line.
#[derive(Clone, Copy)]
pub(crate) struct Reader<'a> {
    pub(crate) words: Words<'a>,
}

impl<'a> Reader<'a> {
    // The next word.
    pub(crate) fn word(&mut self) -> Result<Word<'a>, Malformed>
        ensures is_the_next { WordFrom self.old.words self.new.words result }
    {
        let missing = Malformed {
            what: Fault::MissingWord,
            at: self.words.line.len(),
        };
        let word = self.words.next().ok_or(missing)?;
        if word.is_left_open() {
            Err(Fault::OpenQuote.at(word))
        } else {
            Ok(word)
        }
    }

    // That no word is left.
    pub(crate) fn end(self) -> Result<(), Malformed>
        ensures leaves_no_word { Ends self.entry.words result }
    {
        let mut words = self.words;
        match words.next() {
            Some(word) if word.is_left_open() => Err(Fault::OpenQuote.at(word)),
            Some(word) => Err(Fault::ExtraWord.at(word)),
            None => Ok(()),
        }
    }

    // Whether no word is left.
    pub(crate) fn is_done(self) -> bool
        ensures tells_the_end { Decides result (words_left self.entry.words ≡ []) }
    {
        let mut words = self.words;
        words.next().is_none()
    }

    // One of the command's own words.
    pub(crate) fn pass(&mut self, own: &[u8]) -> Result<(), Malformed>
        ensures takes_the_word { Passes own.now self.old.words self.new.words result }
    {
        let word = self.word()?;
        if word.spells(own) {
            Ok(())
        } else {
            Err(Fault::OtherWord.at(word))
        }
    }

    // An argument.
    pub(crate) fn take<A1: Argument>(&mut self) -> Result<A1, Malformed>
        ensures takes_the_argument { Takes A1.Argument.part A1.Argument.item self.old.words self.new.words result }
    {
        let word = self.word()?;
        A1::read(word).ok_or(A1::fault().at(word))
    }

    // The last argument.
    pub(crate) fn last<A1: Argument>(mut self) -> Result<A1, Malformed>
        ensures takes_all { Done (A1.Argument.part ∷ []) (λ x. A1.Argument.item x ∷ []) self.entry.words result }
    {
        let argument = self.take::<A1>()?;
        self.end()?;
        Ok(argument)
    }

    // The last two arguments.
    pub(crate) fn two<A1: Argument, A2: Argument>(mut self) -> Result<(A1, A2), Malformed>
        ensures takes_all { Done (A1.Argument.part ∷ A2.Argument.part ∷ []) (λ x. A1.Argument.item x.0 ∷ A2.Argument.item x.1 ∷ []) self.entry.words result }
    {
        let first = self.take::<A1>()?;
        let second = self.last::<A2>()?;
        Ok((first, second))
    }
}
