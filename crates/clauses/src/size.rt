// SIZE.
ghost use Rattle.std.specs.Prelude.{◌≡◌};
ghost use Rattle.design.specs.Answer.{told};
ghost use Rattle.clauses.specs.Size.{size as size_of};
ghost use Rattle.clauses.specs.Replies.{size_reply};

use super::admission::admit;
use super::frame::{FormulaSizes, formula};
use design::refusal::Refused;

// The numbers of the formula of a design for a property, with its piece, and a bound.
pub fn size<'a>(
    file: &'a [u8],
    piece: &'a [u8],
    property: u64,
    bound: u64,
) -> Result<FormulaSizes, Refused>
    ensures { told result ≡ size_reply (size_of file.now piece.now property bound) }
{
    let s = admit(file, piece, property, bound)?;
    Ok(formula(s, bound))
}
