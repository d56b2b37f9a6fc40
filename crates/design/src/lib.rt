// The file reader: CHECK.
#![tactic(auto)]

pub mod action;
pub mod bits;
pub mod bytes;
mod cell;
pub mod expression;
pub mod index;
mod item;
pub mod kind;
pub mod limits;
pub mod refusal;
mod section;
pub mod shape;
pub mod source;

ghost use Rattle.std.specs.Prelude.{◌≡◌};
ghost use Rattle.design.specs.Check.{check as checked, refused, refusal};
ghost use Rattle.design.specs.Refusal.{turned};

use bytes::word;
use index::{items_end, trailer_counts, trailer_offsets};
use limits::{TRAILER, counts_right, length_right, movers_right, tail_bytes, version_right};
use refusal::Refused;
use section::check_sections;

// CHECK.
pub fn check(file: &[u8]) -> Result<(), Refused>
    ensures { turned result ≡ refusal (checked file.now) }
{
    let len = file.len();
    if !length_right(len) {
        return Err(Refused::Length(len));
    }
    let trailer = len - TRAILER;
    let version = word(file, trailer);
    if len < tail_bytes(version) {
        return Err(Refused::Length(len));
    }
    if !version_right(version) {
        return Err(Refused::Version(trailer));
    }
    let counts = trailer_counts(file);
    if !counts_right(counts.variables, counts.matrices, counts.cells) {
        return Err(Refused::Counts(trailer));
    }
    let (_, movers) = check_sections(file, items_end(file), counts, trailer_offsets(file))?;
    if movers_right(movers) {
        Ok(())
    } else {
        Err(Refused::Movers(len))
    }
}
