// What a line of the console asks for, and why it asks for nothing.
use nodes::operators::PredicateOperator;
use reading::words::Word;
use std::fmt;
use values::kinds::Kind;
use values::literals::{Literal, Span};

#[derive(Clone, Copy)]
pub enum Command {
    Equal(Literal, Literal),
    Compare(Literal, Literal),
    Convert(Literal, Kind),
    Field {
        number: u32,
        name: Span,
        column: Column,
        presence: Presence,
        // the parent's place in the table of fields
        parent: Option<usize>,
    },
    Schema,
    Find {
        name: Span,
        any_case: bool,
    },
    Row {
        // how many cells are at the top
        top: usize,
    },
    Cell(CellWord),
    Get {
        name: Span,
    },
    // the filter that is always true, or always false
    Constant(bool),
    // a condition on a column
    Lay {
        name: Span,
        operator: PredicateOperator,
        // where its literals begin in the line; all words from there on are literals
        literals: usize,
    },
    // the filters by their numbers
    And(u16, u16),
    Or(u16, u16),
    Not(u16),
    Negate(u16),
    Rewrite(u16),
    Show(u16),
    Book,
}

// What a field holds.
#[derive(Clone, Copy)]
pub enum Column {
    Primitive(Kind),
    Struct,
    List,
}

#[derive(Clone, Copy)]
pub enum Presence {
    Required,
    Optional,
}

#[derive(Clone, Copy)]
pub enum CellWord {
    Null,
    Value(Literal),
    Group { start: usize, count: usize },
    List,
}

// A line that is no command: what is wrong with which word, by the place where the word begins.
#[derive(Clone, Copy)]
pub struct Malformed {
    pub what: Fault,
    pub at: usize,
}

#[derive(Clone, Copy)]
pub enum Fault {
    OpenQuote,
    UnknownCommand,
    // at the line's end
    MissingWord,
    ExtraWord,
    // a word stands where the command has another
    OtherWord,
    NotALiteral,
    NotAKind,
    NotANumber,
    NotAName,
    NotAColumn,
    NotAPresence,
    NotAnOperator,
}

impl Fault {
    ghost use Rattle.std.specs.Prelude.{◌≡◌};
    ghost use Rattle.reading.specs.NextWord.{word_of};
    ghost use Rattle.commands.specs.Grammar.{at_word};

    // That fault at that word.
    pub(crate) fn at(self, word: Word) -> Malformed
        ensures begins_where_the_word_does { result ≡ at_word self (word_of word.entry) }
    {
        Malformed {
            what: self,
            at: word.place.start,
        }
    }
}

// What is wrong, in plain words.
impl fmt::Display for Fault {
    fn fmt<W: fmt::Write>(&self, f: &mut fmt::Formatter<W>) -> fmt::Result {
        f.write_str(match self {
            Fault::OpenQuote => "a quote is left open",
            Fault::UnknownCommand => "there is no such command",
            Fault::MissingWord => "a word is missing",
            Fault::ExtraWord => "there is a word too many",
            Fault::OtherWord => "the command has another word here",
            Fault::NotALiteral => "a literal was expected, as long:900 or string:glass",
            Fault::NotAKind => "a kind was expected, as long or fixed(2)",
            Fault::NotANumber => "a number was expected, in decimal without leading zeros",
            Fault::NotAName => "a name was expected",
            Fault::NotAColumn => "a kind, struct or list was expected",
            Fault::NotAPresence => "required or optional was expected",
            Fault::NotAnOperator => "an operator was expected, as <= or is-null",
        })
    }
}
