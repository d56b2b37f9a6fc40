// CHECK, 13, 8 of the piece, and 14: what every call with a piece, a property and a bound refuses first.
ghost use Rattle.std.specs.Prelude.{◌≡◌};
ghost use Rattle.design.specs.Refusal.{turned};
ghost use Rattle.step.specs.Gate.{gate_refusal};

use super::limits::{MAX_BOUND, last_property};
use super::piece::piece_right;
use design::refusal::Refused;

// REPLAY's bound is its number of choices.
pub fn gate(file: &[u8], piece: &[u8], property: u64, bound: u64) -> Result<(), Refused>
    ensures { turned result ≡ gate_refusal file.now piece.now property bound }
{
    design::check(file)?;
    if last_property(file) < property {
        return Err(Refused::Property);
    }
    if !piece_right(file, piece, property) {
        return Err(Refused::Expression(0));
    }
    if MAX_BOUND < bound {
        return Err(Refused::Bound);
    }
    Ok(())
}
