// Literals compared as they are handed in: both in one text, and refused unless they are what their kinds say.
ghost use Rattle.std.specs.Prelude.{◌≡◌, [], ◌∷◌, length};
ghost use Rattle.values.specs.Admission.{admitted, if_admitted};
ghost use Rattle.values.specs.Contents.{datum_of};
ghost use Rattle.comparison.specs.Orders.{compared};
ghost use Rattle.comparison.specs.Equality.{same_datum};

use crate::data::Datum;
use std::cmp::Ordering;
use values::admission::admit;
use values::literals::Literal;
use values::refusals::Refused;

// Whether the two are equal.
pub fn equal(a: Literal, b: Literal, text: &[u8]) -> Result<bool, Refused>
    ensures refuses_or_compares { result ≡ if_admitted (admitted (length text.now) (a ∷ b ∷ [])) (same_datum (datum_of text.now a) (datum_of text.now b)) }
{
    admit(&[a, b], text.len())?;
    Ok(Datum::new(a, text) == Datum::new(b, text))
}

// Where `a` stands to `b`, if the two compare. With `equal` it shares one call, so one function for both is no shorter.
pub fn compare(a: Literal, b: Literal, text: &[u8]) -> Result<Option<Ordering>, Refused>
    ensures refuses_or_compares { result ≡ if_admitted (admitted (length text.now) (a ∷ b ∷ [])) (compared (datum_of text.now a) (datum_of text.now b)) }
{
    admit(&[a, b], text.len())?;
    Ok(Datum::new(a, text).partial_cmp(&Datum::new(b, text)))
}
