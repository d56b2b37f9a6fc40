// ENCODE, and the whole formula for VERDICT.
ghost use Rattle.std.specs.Prelude.{◌≡◌, ◌+◌, ◌≤◌};
ghost use Rattle.step.specs.Property.{property_of};
ghost use Rattle.design.specs.Answer.{told};
ghost use Rattle.design.specs.Tree.{Design};
ghost use Rattle.design.specs.Check.{check, accepted};
ghost use Rattle.design.specs.Places.{Accepted};
ghost use Rattle.clauses.specs.Replies.{ENCODE};
ghost use Rattle.clauses.specs.Ready.{Instanced, Admitted, Writable, Written};

use super::admission::admit;
use super::frame::{FrameSizes, part_words, sizes, variables};
use super::instance::Instance;
use super::tables::Tables;
use design::index::{index_cells, index_events, shape};
use design::limits::{EVENT_PLACES, MAX_MOVERS};
use design::refusal::Refused;
use design::shape::Shape;

// How many words and variables a formula has.
#[derive(Clone, Copy)]
pub struct Formula {
    pub words: usize,
    pub variables: usize,
}

// The shape of an accepted file, and what formula is written of it; `sizes` are those of a frame.
fn instance(file: &[u8], sizes: FrameSizes, property: u64, bound: u64) -> (Shape, Instance)
    requires { Accepted file.now }
    ensures { Instanced file.now result.0 sizes property bound result.1 }
{
    let mut cells = [0u16; MAX_MOVERS];
    let shape = shape(file, index_cells(file, &mut cells));
    let inst = Instance {
        cells,
        sizes,
        property,
        bound,
    };
    (shape, inst)
}

// ENCODE of a part that is there, once it is admitted; `s` has the sizes of a frame.
pub fn encode_admitted<'a>(
    file: &'a [u8],
    piece: &'a [u8],
    property: u64,
    bound: u64,
    part: u64,
    s: FrameSizes,
    buffer: &mut [i32],
) -> Result<u64, Refused>
    requires { Admitted file.now piece.now property bound s × (part ≤ bound + 2) }
    ensures { record { reply = told result; buffer = buffer.new } ≡ ENCODE file.now piece.now property bound part buffer.old }
{
    let words = part_words(s, bound, part);
    if (buffer.len() as u64) < words {
        return Err(Refused::Memory);
    }
    let mut events = [0u16; EVENT_PLACES];
    index_events(file, &mut events);
    let (shape, inst) = instance(file, s, property, bound);
    let tables = Tables {
        file,
        events: &events,
        shape,
    };
    tables.put_part(piece, inst, part, buffer, 0);
    Ok(words)
}

// Writes the words of a part of the formula and answers their number.
pub fn encode<'a>(
    file: &'a [u8],
    piece: &'a [u8],
    property: u64,
    bound: u64,
    part: u64,
    buffer: &mut [i32],
) -> Result<u64, Refused>
    ensures { record { reply = told result; buffer = buffer.new } ≡ ENCODE file.now piece.now property bound part buffer.old }
{
    let s = admit(file, piece, property, bound)?;
    if bound + 2 < part {
        return Err(Refused::Part);
    }
    encode_admitted(file, piece, property, bound, part, s, buffer)
}

// Writes the whole formula to the buffer's front.
pub fn write_formula<'a>(
    file: &'a [u8],
    piece: &'a [u8],
    property: u64,
    bound: u64,
    clauses: &mut [i32],
) -> Formula
    requires { Writable file.now piece.now property bound clauses.old }
    ensures { (d : Design) → check file.now ≡ accepted d → Written d (property_of file.now piece.now d property) bound clauses.old clauses.new result.words result.variables }
{
    let s = sizes(file, piece, property);
    let mut events = [0u16; EVENT_PLACES];
    index_events(file, &mut events);
    let (shape, inst) = instance(file, s, property, bound);
    let tables = Tables {
        file,
        events: &events,
        shape,
    };
    let words = tables.put_parts(piece, inst, clauses);
    Formula {
        words,
        variables: variables(s, bound) as usize,
    }
}
