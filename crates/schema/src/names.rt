// Full names, read from their ends: so two can be compared without a copy of either.
ghost use Rattle.std.specs.Prelude.{◌≡◌, Decides};
ghost use Rattle.std.specs.Iterator.{YieldsLast, item_count};
ghost use Rattle.schema.specs.Names.{full_name, letter, spelled, rest};

use crate::fields::Schema;

// How letters are compared.
#[derive(Clone, Copy)]
pub enum Case {
    Sensitive,
    // A to Z as a to z
    Insensitive,
}

// What is left of a name: bytes, and the field whose full name stands before them, parted by a dot.
#[derive(Clone, Copy)]
pub struct Tail<'a> {
    pub schema: Schema<'a>,
    pub left: &'a [u8],
    pub above: Option<usize>,
}

// The bytes of what is left, the last first.
impl<'a> Iterator for Tail<'a> {
    type Item = u8;

    ghost next_gives = { YieldsLast rest };

    ghost remaining = { item_count rest };

    fn next(&mut self) -> Option<u8> {
        match self.left.split_last() {
            Some((&last, left)) => {
                self.left = left;
                Some(last)
            }
            None => {
                let above = self.above?;
                *self = self.schema.name_of(above);
                Some(b'.')
            }
        }
    }
}

impl<'a> Schema<'a> {
    // A field's full name.
    pub(crate) fn name_of(&self, field: usize) -> Tail<'a>
        ensures is_the_full_name { rest result ≡ full_name self.now.fields.now self.now.text.now field }
    {
        Tail {
            schema: *self,
            left: self.field_at(field).name.of(self.text),
            above: self.parent_of(field),
        }
    }
}

impl Case {
    fn letter(self, byte: u8) -> u8
        ensures is_as_compared { result ≡ letter self byte }
    {
        match self {
            Case::Sensitive => byte,
            Case::Insensitive => byte.to_ascii_lowercase(),
        }
    }

    // Whether two names are spelled alike.
    pub fn is_same<'a>(self, a: Tail<'a>, b: Tail<'a>) -> bool
        ensures compares_whole_names { Decides result (spelled self (rest a.entry) ≡ spelled self (rest b.entry)) }
    {
        a.map(|x| self.letter(x)).eq(b.map(|y| self.letter(y)))
    }
}
