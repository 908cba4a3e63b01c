// Numbers, as they are printed.
ghost use Rattle.std.specs.Prelude.{◌≡◌, ℕ, true, List, Option, refl};
ghost use Rattle.std.specs.Int.{w32, w64};
ghost use Rattle.reading.specs.Writing.{Reads, Natural, Integer, plain, Parsed};
ghost use Rattle.reading.specs.Printed.{natural_is_plain, natural_is_read, integer_is_plain, integer_is_read};

use crate::words::as_str;
use std::num::ParseIntError;
use std::str::FromStr;

// A number that has one text, as it is printed.
pub trait Number: FromStr<Err = ParseIntError> {
    ghost written: { Self → List ℕ → Type 0 };

    // What the standard library reads in the bytes: a step of its own, so that each width can be turned alone.
    fn parsed(text: &[u8]) -> Option<Self>
        ensures is_what_std_reads { Parsed Self.from_str_gives text.now result }
    {
        parse(text)
    }

    // The number that the text writes.
    fn read(text: &[u8]) -> Option<Self>
        ensures reads_as_printed { Reads written text.now result }
    {
        if is_plain(text) {
            Self::parsed(text)
        } else {
            None
        }
    }

    ghost is_plain: { (n : Self) (t : List ℕ) → written n t → plain t ≡ true };

    ghost is_read: { (t : List ℕ) (o : Option Self) → plain t ≡ true → Parsed Self.from_str_gives t o → Reads written t o };
}

impl Number for u16 {
    ghost written = { Natural 16 };

    ghost is_plain = { natural_is_plain 16 refl };

    ghost is_read = { natural_is_read 16 refl };
}

impl Number for u32 {
    ghost written = { Natural 32 };

    ghost is_plain = { natural_is_plain 32 refl };

    ghost is_read = { natural_is_read 32 refl };
}

impl Number for u64 {
    ghost written = { Natural 64 };

    ghost is_plain = { natural_is_plain 64 refl };

    ghost is_read = { natural_is_read 64 refl };
}

impl Number for usize {
    ghost written = { Natural 64 };

    ghost is_plain = { natural_is_plain 64 refl };

    ghost is_read = { natural_is_read 64 refl };
}

impl Number for i32 {
    ghost written = { Integer w32 };

    ghost is_plain = { integer_is_plain w32 refl };

    ghost is_read = { integer_is_read w32 refl };
}

impl Number for i64 {
    ghost written = { Integer w64 };

    ghost is_plain = { integer_is_plain w64 refl };

    ghost is_read = { integer_is_read w64 refl };
}

// What the standard library reads in the bytes, if they are text at all.
pub(crate) fn parse<F: FromStr>(bytes: &[u8]) -> Option<F>
where
    F::Err: Drop,
    ensures is_what_std_reads { Parsed F.FromStr.from_str_gives bytes.now result }
{
    as_str(bytes)?.parse().ok()
}

// Whether neither a plus stands first, nor a zero before more, nor a minus before a zero.
fn is_plain(text: &[u8]) -> bool
    ensures asks_the_first_two { result ≡ plain text.now }
{
    !matches!(text, [] | [b'+', ..] | [b'0', _, ..] | [b'-', b'0', ..])
}
