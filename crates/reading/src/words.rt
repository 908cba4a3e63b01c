// The words of a line, one after another.
ghost use Rattle.std.specs.Prelude.{◌≡◌, false, not, ◌&&◌, length, Decides, MatchOption, IsUtf8, position, fold};
ghost use Rattle.std.specs.Iterator.{item_count};
ghost use Rattle.reading.specs.Words.{blank, turned, left_open, front};
ghost use Rattle.reading.specs.NextWord.{Steps, words_left, text_of};

use values::literals::Span;

// A word of a line, by its place.
#[derive(Clone, Copy)]
pub struct Word<'a> {
    pub line: &'a [u8],
    pub place: Span,
}

impl<'a> Word<'a> {
    // Its bytes.
    pub fn text(self) -> &'a [u8]
        ensures are_the_bytes_there { result.now ≡ text_of self.entry }
    {
        self.place.of(self.line)
    }

    // Whether it leaves a quote open.
    pub fn is_left_open(self) -> bool
        ensures counts_by_twos { result ≡ left_open false (text_of self.entry) }
    {
        self.text()
            .iter()
            .fold(false, |quoted, byte| turn(*byte, quoted))
    }

    // Whether it is that word.
    pub fn spells(self, word: &[u8]) -> bool
        ensures tells_equal_bytes { Decides result (text_of self.entry ≡ word.now) }
    {
        self.text() == word
    }
}

// What is left of a line: the words from a place on.
#[derive(Clone, Copy)]
pub struct Words<'a> {
    pub line: &'a [u8],
    pub at: usize,
}

impl<'a> Words<'a> {
    pub fn of(line: &'a [u8]) -> Words<'a>
        ensures begins { result ≡ record { line = line.entry; at = 0 } }
    {
        Words { line, at: 0 }
    }
}

impl<'a> Iterator for Words<'a> {
    type Item = Word<'a>;

    ghost next_gives = { Steps };

    ghost remaining = { item_count words_left };

    fn next(&mut self) -> Option<Word<'a>> {
        let rest = self.line.get(self.at..)?;
        let start = self.at + blanks(rest)?;
        let len = word_len(&self.line[start..]);
        self.at = start + len;
        Some(Word {
            line: self.line,
            place: Span { start, len },
        })
    }
}

// The bytes as text, if they are any.
pub fn as_str(bytes: &[u8]) -> Option<&str>
    ensures is_text_of_those_bytes { MatchOption result (IsUtf8 bytes.now → ⊥) (λ s. s.now ≡ bytes.now) }
{
    std::str::from_utf8(bytes).ok()
}

fn is_blank(byte: u8) -> bool
    ensures asks_for_three { result ≡ blank byte }
{
    matches!(byte, b' ' | b'\t' | b'\r')
}

// Whether the byte ends a word.
fn ends_word(byte: u8, quoted: bool) -> bool
    ensures is_a_blank_outside_quotes { result ≡ (blank byte && not quoted) }
{
    is_blank(byte) && !quoted
}

// Whether a quote is open after the byte.
fn turn(byte: u8, quoted: bool) -> bool
    ensures opens_or_closes { result ≡ turned byte quoted }
{
    if byte == b'"' { !quoted } else { quoted }
}

// How many blanks stand before the first other byte.
fn blanks(text: &[u8]) -> Option<usize>
    ensures is_the_place_of_the_other { result ≡ position (λ b. not (blank b)) text.now }
{
    text.iter().position(|byte| !is_blank(*byte))
}

// How many bytes the word has that the text begins with.
fn word_len(text: &[u8]) -> usize
    ensures takes_the_word { result ≡ length (front false text.now) }
{
    let mut quoted = false;
    for (i, byte) in text.iter().enumerate() {
        if ends_word(*byte, quoted) {
            return i;
        }
        quoted = turn(*byte, quoted);
    }
    text.len()
}
