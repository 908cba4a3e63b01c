// A line as a command.
ghost use Rattle.std.specs.Prelude.{◌≡◌, false, codes, ◌==◌, slice_index};
ghost use Rattle.reading.specs.NextWord.{word_of, words_left};
ghost use Rattle.commands.specs.Spelling.{parent_items, cell_items, literal_items};
ghost use Rattle.commands.specs.Grammar.{parent_parts, cell_parts, literal_parts, open_quote, Read, SpellsNone};
ghost use Rattle.commands.specs.Steps.{Done, CommandRead, Follows};

use crate::command::{CellWord, Column, Command, Fault, Malformed, Presence};
use crate::reader::Reader;
use nodes::operators::PredicateOperator;
use reading::words::{Word, Words, as_str};
use values::kinds::Kind;
use values::literals::{Literal, Span};

fn convert(mut reader: Reader) -> Result<Command, Malformed>
    ensures takes_literal_and_kind { Follows (codes "convert") reader.entry.words result }
{
    let literal = reader.take::<Literal>()?;
    reader.pass(b"to")?;
    let kind = reader.last::<Kind>()?;
    Ok(Command::Convert(literal, kind))
}

// The parent's place, if it is named.
fn parent(mut reader: Reader) -> Result<Option<usize>, Malformed>
    ensures is_all_or_nothing { Done (parent_parts (words_left reader.entry.words)) parent_items reader.entry.words result }
{
    if reader.is_done() {
        return Ok(None);
    }
    reader.pass(b"in")?;
    reader.last::<usize>().map(Some)
}

fn field(mut reader: Reader) -> Result<Command, Malformed>
    ensures takes_four_and_the_parent { Follows (codes "field") reader.entry.words result }
{
    let number = reader.take::<u32>()?;
    let name = reader.take::<Span>()?;
    let column = reader.take::<Column>()?;
    let presence = reader.take::<Presence>()?;
    let parent = parent(reader)?;
    Ok(Command::Field {
        number,
        name,
        column,
        presence,
        parent,
    })
}

fn cell(reader: Reader) -> Result<CellWord, Malformed>
    ensures goes_by_the_next_word { Done (cell_parts (words_left reader.entry.words)) cell_items reader.entry.words result }
{
    let mut behind = reader;
    let word = behind.word()?;
    // bytes that are no text are no word of these; of an `Option` of text the last arm would not prove
    match as_str(word.text()).unwrap_or("") {
        "null" => behind.end().map(|()| CellWord::Null),
        "group" => {
            let (start, count) = behind.two::<usize, usize>()?;
            Ok(CellWord::Group { start, count })
        }
        "list" => behind.end().map(|()| CellWord::List),
        _ => reader.last::<Literal>().map(CellWord::Value),
    }
}

// That only literals are left.
fn literals(mut reader: Reader) -> Result<(), Malformed>
    ensures takes_literals_alone { Done (literal_parts (words_left reader.entry.words)) (λ u. literal_items (words_left reader.entry.words)) reader.entry.words result }
{
    while !reader.is_done() {
        reader.take::<Literal>()?;
    }
    Ok(())
}

fn lay(mut reader: Reader) -> Result<Command, Malformed>
    ensures takes_a_condition { Follows (codes "lay") reader.entry.words result }
{
    let name = reader.take::<Span>()?;
    let operator = reader.take::<PredicateOperator>()?;
    literals(reader)?;
    Ok(Command::Lay {
        name,
        operator,
        literals: reader.words.at,
    })
}

// The command that begins with the first word, and goes on with the others.
fn command(first: Word, others: Reader) -> Result<Command, Malformed>
    ensures goes_by_the_first_word { open_quote (word_of first.entry) ≡ false → CommandRead others.entry.words.line.now (word_of first.entry) (words_left others.entry.words) result }
{
    // as in `cell`
    match as_str(first.text()).unwrap_or("") {
        "equal" => others
            .two::<Literal, Literal>()
            .map(|(a, b)| Command::Equal(a, b)),
        "compare" => others
            .two::<Literal, Literal>()
            .map(|(a, b)| Command::Compare(a, b)),
        "convert" => convert(others),
        "field" => field(others),
        "schema" => others.end().map(|()| Command::Schema),
        "find" => others.last::<Span>().map(|name| Command::Find {
            name,
            any_case: false,
        }),
        "find-any-case" => others.last::<Span>().map(|name| Command::Find {
            name,
            any_case: true,
        }),
        "row" => others.last::<usize>().map(|top| Command::Row { top }),
        "cell" => cell(others).map(Command::Cell),
        "get" => others.last::<Span>().map(|name| Command::Get { name }),
        "always-true" => others.end().map(|()| Command::Constant(true)),
        "always-false" => others.end().map(|()| Command::Constant(false)),
        "lay" => lay(others),
        "and" => others.two::<u16, u16>().map(|(a, b)| Command::And(a, b)),
        "or" => others.two::<u16, u16>().map(|(a, b)| Command::Or(a, b)),
        "not" => others.last::<u16>().map(Command::Not),
        "negate" => others.last::<u16>().map(Command::Negate),
        "rewrite" => others.last::<u16>().map(Command::Rewrite),
        "show" => others.last::<u16>().map(Command::Show),
        "book" => others.end().map(|()| Command::Book),
        _ => Err(Fault::UnknownCommand.at(first)),
    }
}

fn begins_a_comment(text: &[u8]) -> bool
    ensures asks_the_first_byte { result ≡ (slice_index text.now 0 == 35) }
{
    matches!(text, [b'#', ..])
}

// The command that a line is; none where it is blank or a comment.
pub fn parse(line: &[u8]) -> Result<Option<Command>, Malformed>
    ensures goes_by_the_words { Read line.now result }
    ensures refuses_no_command { SpellsNone line.now result }
{
    let mut words = Words::of(line);
    // no word is one case of four, which a `?` would take out of the table
    match words.next() {
        Some(first) if begins_a_comment(first.text()) => Ok(None),
        Some(first) if first.is_left_open() => Err(Fault::OpenQuote.at(first)),
        Some(first) => command(first, Reader { words }).map(Some),
        None => Ok(None),
    }
}
