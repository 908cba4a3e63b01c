// The sorts of arguments that a command takes, each as one word.
ghost use Rattle.std.specs.Prelude.{◌≡◌};
ghost use Rattle.commands.specs.Spelling.{Item, word, literal, kind, number, name, column, presence_text, operator_text};
ghost use Rattle.commands.specs.Grammar.{Part, a_literal, a_kind, a_number, a_name, a_column, a_presence, an_operator, fault_of};
ghost use Rattle.commands.specs.Steps.{WordRead};

use crate::command::{Column, Fault, Presence};
use crate::operators::read_operator;
use nodes::operators::PredicateOperator;
use reading::kinds::read_kind;
use reading::literals::{read_literal, read_text};
use reading::numbers::Number;
use reading::words::Word;
use values::kinds::Kind;
use values::literals::{Literal, Span};

pub trait Argument: Copy {
    ghost part: { Part };

    ghost item: { Self → Item };

    // What is wrong with a word that is no such argument.
    fn fault() -> Fault
        ensures names_the_sort { result ≡ fault_of part };

    // The argument that a word of the line is.
    fn read(word: Word) -> Option<Self>
        ensures reads_the_word { WordRead part item word.entry.line.now word.entry.place result };
}

impl Argument for Literal {
    ghost part = { a_literal };

    ghost item = { literal };

    fn fault() -> Fault {
        Fault::NotALiteral
    }

    fn read(word: Word) -> Option<Literal> {
        read_literal(word)
    }
}

impl Argument for Kind {
    ghost part = { a_kind };

    ghost item = { kind };

    fn fault() -> Fault {
        Fault::NotAKind
    }

    fn read(word: Word) -> Option<Kind> {
        read_kind(word.text())
    }
}

// Three impls, since one for each Number would overlap the others.
impl Argument for u16 {
    ghost part = { a_number 16 };

    ghost item = { number 16 };

    fn fault() -> Fault {
        Fault::NotANumber
    }

    fn read(word: Word) -> Option<u16> {
        Number::read(word.text())
    }
}

impl Argument for u32 {
    ghost part = { a_number 32 };

    ghost item = { number 32 };

    fn fault() -> Fault {
        Fault::NotANumber
    }

    fn read(word: Word) -> Option<u32> {
        Number::read(word.text())
    }
}

impl Argument for usize {
    ghost part = { a_number 64 };

    ghost item = { number 64 };

    fn fault() -> Fault {
        Fault::NotANumber
    }

    fn read(word: Word) -> Option<usize> {
        Number::read(word.text())
    }
}

// A name, by its place.
impl Argument for Span {
    ghost part = { a_name };

    ghost item = { name };

    fn fault() -> Fault {
        Fault::NotAName
    }

    fn read(word: Word) -> Option<Span> {
        read_text(word)
    }
}

impl Argument for Column {
    ghost part = { a_column };

    ghost item = { column };

    fn fault() -> Fault {
        Fault::NotAColumn
    }

    fn read(word: Word) -> Option<Column> {
        match word.text() {
            b"struct" => Some(Column::Struct),
            b"list" => Some(Column::List),
            text => read_kind(text).map(Column::Primitive),
        }
    }
}

impl Argument for Presence {
    ghost part = { a_presence };

    ghost item = { λ p. word (presence_text p) };

    fn fault() -> Fault {
        Fault::NotAPresence
    }

    fn read(word: Word) -> Option<Presence> {
        match word.text() {
            b"required" => Some(Presence::Required),
            b"optional" => Some(Presence::Optional),
            _ => None,
        }
    }
}

impl Argument for PredicateOperator {
    ghost part = { an_operator };

    ghost item = { λ op. word (operator_text op) };

    fn fault() -> Fault {
        Fault::NotAnOperator
    }

    fn read(word: Word) -> Option<PredicateOperator> {
        read_operator(word.text())
    }
}
