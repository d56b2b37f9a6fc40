// DECODE.
ghost use Rattle.std.specs.Prelude.{◌≡◌, ◌+◌, ◌*◌, ◌≤◌, ◌++◌, length, drop};
ghost use Rattle.design.specs.Limits.{max_movers};
ghost use Rattle.design.specs.Answer.{told};
ghost use Rattle.design.specs.Tree.{Design};
ghost use Rattle.design.specs.WellFormed.{WellFormed};
ghost use Rattle.step.specs.Property.{Property};
ghost use Rattle.step.specs.Limits.{max_bound};
ghost use Rattle.clauses.specs.Chosen.{below, first_nonzero, all_zero, chosen_in, first_bad, chosen_list};
ghost use Rattle.clauses.specs.Decode.{choices_of, written};
ghost use Rattle.clauses.specs.FrameSizes.{SmallFrame, frame_sizes};
ghost use Rattle.clauses.specs.Replies.{decode_exit, DECODE};

use super::admission::admit;
use super::frame::{FrameSizes, frame_length, variables};
use design::refusal::Refused;

// The place of the first value that is not 0.
pub fn first_nonzero(flags: &[u8]) -> Option<usize>
    ensures { result ≡ below (length flags.now) (first_nonzero flags.now) }
{
    flags.iter().position(|x| *x != 0)
}

// Whether every value from a place on is 0.
pub fn rest_zero(flags: &[u8], from: usize) -> bool
    requires { from ≤ length flags.now }
    ensures { result ≡ all_zero (drop from flags.now) }
{
    flags[from..].iter().all(|x| *x == 0)
}

// The place of the one flag that is 1, all others being 0, where there is just one.
pub fn chosen(flags: &[u8]) -> Option<usize>
    ensures { result ≡ below (length flags.now) (chosen_in flags.now) }
{
    let i = first_nonzero(flags)?;
    if flags[i] == 1 && rest_zero(flags, i + 1) {
        Some(i)
    } else {
        None
    }
}

// The first of k frames without just one 1. The flags of frame 0 stand at `base`, and frames are `size` apart.
pub fn first_bad(values: &[u8], base: usize, size: usize, w: usize, k: usize) -> Option<usize>
    requires { (base + k * size ≤ length values.now) × (w ≤ size) }
    ensures { result ≡ below k (first_bad values.now size w k base 0) }
{
    (0..k).position(|j| {
        let at = base + j * size;
        chosen(&values[at..at + w]).is_none()
    })
}

// Writes the choices of k frames.
pub fn write_choices(
    values: &[u8],
    base: usize,
    size: usize,
    w: usize,
    k: usize,
    choices: &mut [u8],
)
    requires { (base + k * size ≤ length values.now) × (w ≤ size) × (w ≤ max_movers) × (k ≤ length choices.old) }
    ensures { choices.new ≡ chosen_list values.now size w k base ++ drop k choices.old }
{
    let mut at = base;
    for choice in &mut choices[..k] {
        *choice = chosen(&values[at..at + w]).unwrap_or(w) as u8;
        at += size;
    }
}

// DECODE once it is admitted; `s` has the sizes of a frame.
pub fn decode_frames(
    s: FrameSizes,
    bound: u64,
    values: &[u8],
    choices: &mut [u8],
) -> Result<(), Refused>
    requires { SmallFrame s × (bound ≤ max_bound) }
    ensures { (d : Design) (q : Property) → WellFormed d → s ≡ frame_sizes d q → record { reply = told result; choices = choices.new }
        ≡ decode_exit (written (choices_of d q bound values.now (length choices.old)) choices.old) }
{
    let k = bound as usize;
    if (values.len() as u64) < variables(s, bound) || choices.len() < k {
        return Err(Refused::Memory);
    }
    let size = frame_length(s) as usize;
    let base = (1 + s.bits + (s.property.ands + s.property.wides)) as usize;
    let w = s.movers as usize;
    if let Some(bad) = first_bad(values, base, size, w, k) {
        return Err(Refused::Flags(bad));
    }
    write_choices(values, base, size, w, k, choices);
    Ok(())
}

// Writes the choices that an assignment stands for.
pub fn decode<'a>(
    file: &'a [u8],
    piece: &'a [u8],
    property: u64,
    bound: u64,
    values: &[u8],
    choices: &mut [u8],
) -> Result<(), Refused>
    ensures { record { reply = told result; choices = choices.new } ≡ DECODE file.now piece.now property bound values.now choices.old }
{
    let s = admit(file, piece, property, bound)?;
    decode_frames(s, bound, values, choices)
}
