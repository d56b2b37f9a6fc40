// Positions of the items of an accepted file, in tables that are filled once.
ghost use Rattle.std.specs.Prelude.{◌≡◌, ℕ, ◌+◌, ◌*◌, ◌≤◌, ◌<◌, length, get_or};
ghost use Rattle.design.specs.Limits.{max_bytes, trailer_bytes, tail_bytes, max_matrices, max_events, max_movers, event_places};
ghost use Rattle.design.specs.DesignFile.{at16};
ghost use Rattle.design.specs.Check.{trailer, version, has_constraint, items_end, constraint_offset, invariant_offset, trailer_counts, trailer_offsets};
ghost use Rattle.design.specs.Answers.{SmallCounts};
ghost use Rattle.design.specs.Places.{Accepted, Measured, past_events, externals_from, EventsIndexed, CellsIndexed};

use super::bits::state_bits;
use super::bytes::{wide, word};
use super::kind::{CellKind, Kind};
use super::limits::{EVENT_PLACES, EVENT_ROW, MAX_MOVERS, TRAILER, is_constrained, tail_bytes};
use super::shape::{Counts, Offsets, Shape};

// Where the trailer holds its numbers.
pub const VERSION: usize = 0;

pub const VARIABLES: usize = 2;

pub const MATRICES_AT: usize = 4;

pub const MATRICES: usize = 6;

pub const EVENTS_AT: usize = 8;

pub const CELLS_AT: usize = 10;

pub const CELLS: usize = 12;

pub const INVARIANT_AT: usize = 14;

// The trailer's number at k.
pub fn trailer_word(file: &[u8], k: usize) -> usize
    requires { (trailer_bytes ≤ length file.now) × (k + 2 ≤ trailer_bytes) }
    ensures { (result ≡ at16 file.now (trailer file.now + k)) × (result < 65536) }
{
    word(file, file.len() - TRAILER + k)
}

// Whether the file has a constraint.
pub fn has_constraint(file: &[u8]) -> bool
    requires { trailer_bytes ≤ length file.now }
    ensures { result ≡ has_constraint file.now }
{
    is_constrained(trailer_word(file, VERSION))
}

// Where the items end: at the two bytes of the constraint's offset, or where the file has none at the trailer.
pub fn items_end(file: &[u8]) -> usize
    requires { tail_bytes (version file.now) ≤ length file.now }
    ensures { result ≡ items_end file.now }
{
    file.len() - tail_bytes(trailer_word(file, VERSION))
}

// Where the constraint starts, or where there is none where the items end.
pub fn constraint_offset(file: &[u8]) -> usize
    requires { tail_bytes (version file.now) ≤ length file.now }
    ensures { result ≡ constraint_offset file.now }
{
    let end = items_end(file);
    if has_constraint(file) {
        word(file, end)
    } else {
        end
    }
}

// What the trailer counts.
pub fn trailer_counts(file: &[u8]) -> Counts
    requires { trailer_bytes ≤ length file.now }
    ensures { (result ≡ trailer_counts file.now) × SmallCounts result }
{
    Counts {
        variables: trailer_word(file, VARIABLES),
        matrices: trailer_word(file, MATRICES),
        cells: trailer_word(file, CELLS),
    }
}

// Where the trailer and the number before it say that sections start.
pub fn trailer_offsets(file: &[u8]) -> Offsets
    requires { tail_bytes (version file.now) ≤ length file.now }
    ensures { result ≡ trailer_offsets file.now }
{
    Offsets {
        matrices: trailer_word(file, MATRICES_AT),
        events: trailer_word(file, EVENTS_AT),
        cells: trailer_word(file, CELLS_AT),
        invariant: trailer_word(file, INVARIANT_AT),
        constraint: constraint_offset(file),
        constrained: has_constraint(file),
    }
}

// Where an expression stands: from `at` up to `end`. Kept: it is copied, and std's Range is not Copy.
#[derive(Clone, Copy)]
pub struct Extent {
    pub at: usize,
    pub end: usize,
}

// Where the invariant stands: up to the constraint.
pub fn invariant(file: &[u8]) -> Extent
    requires { tail_bytes (version file.now) ≤ length file.now }
    ensures { (result.at ≡ invariant_offset file.now) × (result.end ≡ constraint_offset file.now) }
{
    Extent {
        at: trailer_word(file, INVARIANT_AT),
        end: constraint_offset(file),
    }
}

// Where the constraint stands: up to the end of the items.
pub fn constraint(file: &[u8]) -> Extent
    requires { tail_bytes (version file.now) ≤ length file.now }
    ensures { (result.at ≡ constraint_offset file.now) × (result.end ≡ items_end file.now) }
{
    Extent {
        at: constraint_offset(file),
        end: items_end(file),
    }
}

// The events of matrix m, of which the first stands at `at`; answers the position past them.
pub fn index_row(
    file: &[u8],
    at: usize,
    count: usize,
    m: usize,
    table: &mut [u16; EVENT_PLACES],
) -> usize
    requires { (count ≤ max_events) × (m < max_matrices) × (length file.now ≤ max_bytes) × ((i : ℕ) → i < count
        → past_events file.now i at < length file.now) }
    ensures { (result ≡ past_events file.now count at) × ((i : ℕ) → i < count → get_or table.new (max_events * m + i) 0
        ≡ past_events file.now i at) × ((i : ℕ) → i < max_events * m → get_or table.new i 0 ≡ get_or table.old i 0) }
{
    let mut p = at;
    for i in 0..count {
        table[EVENT_ROW * m + i] = p as u16;
        p = p + 1 + wide(file[p]);
    }
    p
}

// The events of all matrices.
pub fn index_events(file: &[u8], table: &mut [u16; EVENT_PLACES])
    requires { Accepted file.now }
    ensures { EventsIndexed file.now table.new }
{
    let mats = trailer_word(file, MATRICES_AT);
    let nm = trailer_word(file, MATRICES);
    let mut p = trailer_word(file, EVENTS_AT);
    for m in 0..nm {
        p = index_row(file, p, wide(file[mats + 2 * m + 1]), m, table);
    }
}

// The normal cells; answers how many there are.
pub fn index_cells(file: &[u8], table: &mut [u16; MAX_MOVERS]) -> usize
    requires { Accepted file.now }
    ensures { CellsIndexed file.now table.new result }
{
    let count = trailer_word(file, CELLS);
    let mut p = trailer_word(file, CELLS_AT);
    let mut normals = 0;
    for _ in 0..count {
        if file[p + 3] == CellKind::Normal as u8 {
            table[normals] = p as u16;
            normals += 1;
        }
        p = p + 8 + wide(file[p + 5]) + word(file, p + 6);
    }
    normals
}

// The number of externals.
pub fn external_count(file: &[u8], variables: usize) -> usize
    requires { 3 * variables ≤ length file.now }
    ensures { (result ≡ length (externals_from file.now 0 variables)) × (result ≤ variables) }
{
    let mut count = 0;
    for v in 0..variables {
        if file[3 * v] == Kind::External as u8 {
            count += 1;
        }
    }
    count
}

// External number k.
pub fn external(file: &[u8], variables: usize, k: usize) -> usize
    requires { (3 * variables ≤ length file.now) × (k < length (externals_from file.now 0 variables)) }
    ensures { (result ≡ get_or (externals_from file.now 0 variables) k 0) × (result < variables) }
{
    let mut left = k;
    for v in 0..variables {
        if file[3 * v] == Kind::External as u8 {
            if left == 0 {
                return v;
            }
            left -= 1;
        }
    }
    variables
}

// The shape of a file with so many normal cells.
pub fn shape(file: &[u8], normals: usize) -> Shape
    requires { Accepted file.now }
    ensures { Measured file.now normals result }
{
    let variables = trailer_word(file, VARIABLES);
    let matrices = trailer_word(file, MATRICES);
    Shape {
        variables,
        matrices,
        normals,
        externals: external_count(file, variables),
        bits: state_bits(file, variables, matrices),
    }
}
