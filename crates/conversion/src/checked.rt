// A literal converted as it is handed in, and refused unless it is what its kind says.
ghost use Rattle.std.specs.Prelude.{◌≡◌, [], ◌∷◌, length};
ghost use Rattle.values.specs.Contents.{datum_of};
ghost use Rattle.values.specs.Admission.{admitted};
ghost use Rattle.conversion.specs.Misfits.{read_answer, answer};
ghost use Rattle.conversion.specs.Table.{converted};

use crate::convert::convert;
use values::admission::admit;
use values::kinds::Kind;
use values::literals::Literal;
use values::refusals::Refused;

// The literal at the column's kind; it is the only one, so its index and its place are 0.
pub fn convert_alone(literal: Literal, to: Kind, text: &[u8]) -> Result<Literal, Refused>
    ensures refuses_or_converts { read_answer text.now result ≡ answer (admitted (length text.now) (literal ∷ [])) (converted (datum_of text.now literal) to) }
{
    admit(&[literal], text.len())?;
    convert(literal, to).map_err(|misfit| misfit.at(0).at(0))
}
