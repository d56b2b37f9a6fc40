// CHECK, 13, 8 of the piece, 14 and 19: what every call about a formula refuses first.
ghost use Rattle.std.specs.Prelude.{◌≡◌};
ghost use Rattle.design.specs.Answer.{told};
ghost use Rattle.clauses.specs.Replies.{admission_sizes};

use super::frame::{FrameSizes, sizes, variables};
use super::literal::LAST_VARIABLE;
use design::refusal::Refused;
use step::gate::gate;

// The refusal, or else the sizes of a frame.
pub fn admit<'a>(
    file: &'a [u8],
    piece: &'a [u8],
    property: u64,
    bound: u64,
) -> Result<FrameSizes, Refused>
    ensures { told result ≡ admission_sizes file.now piece.now property bound }
{
    gate(file, piece, property, bound)?;
    let s = sizes(file, piece, property);
    if (LAST_VARIABLE as u64) < variables(s, bound) {
        return Err(Refused::Variables);
    }
    Ok(s)
}
