// Literals as they are handed in: their text inside the bytes lent with them, their values kept as their kinds say.
ghost use Rattle.std.specs.Prelude.{◌≡◌};
ghost use Rattle.values.specs.Admission.{admitted};

use crate::literals::Literal;
use crate::refusals::{Reason, Refused};

// Refuses the first literal whose text lies outside that many bytes, else the first that is not kept as its kind says.
pub fn admit(literals: &[Literal], bytes: usize) -> Result<(), Refused>
    ensures names_the_first_at_fault { result ≡ admitted bytes literals.now }
{
    if let Some(place) = literals
        .iter()
        .position(|literal| !literal.value.text_lies_inside(bytes))
    {
        return Err(Reason::TextOutside.at(place));
    }
    match literals.iter().position(|literal| !literal.is_well_kept()) {
        Some(place) => Err(Reason::OtherStorage.at(place)),
        None => Ok(()),
    }
}
