// The limits of the design file, as specs/Limits.antt has them, and their tests.
ghost use Rattle.std.specs.Prelude.{◌≡◌};
ghost use Rattle.design.specs.Limits.{constrained, tail_bytes, length_right, version_right, counts_right, movers_right};

pub const MAX_BYTES: usize = 16384;

pub const TRAILER: usize = 16;

pub const LAST_VERSION: usize = 2;

// The version with a constraint, and the bytes of its offset before the trailer.
pub const CONSTRAINT_VERSION: usize = 2;

pub const OFFSET_BYTES: usize = 2;

pub const MAX_VARIABLES: usize = 32;

pub const MAX_MATRICES: usize = 8;

pub const MAX_CELLS: usize = 256;

pub const MAX_STATUSES: u8 = 16;

pub const MAX_EVENTS: u8 = 16;

pub const MAX_MOVERS: usize = 64;

pub const MAX_DEPTH: usize = 16;

pub const MAX_NEST: usize = 4;

// Places of a matrix's events in the table of events, MAX_EVENTS, and of all.
pub const EVENT_ROW: usize = 16;

pub const EVENT_PLACES: usize = MAX_MATRICES * EVENT_ROW;

// Slots of a state, the mark among them, and their bits where every variable is an integer; slots and bits of two states.
pub const MAX_SLOTS: usize = MAX_VARIABLES + MAX_MATRICES + 1;

pub const PAIR_SLOTS: usize = 2 * MAX_SLOTS;

pub const MAX_BITS: usize = 16 * MAX_VARIABLES + 4 * MAX_MATRICES + 1;

pub const PAIR_BITS: usize = 2 * MAX_BITS;

// Whether a file may have so many bytes.
pub fn length_right(bytes: usize) -> bool
    ensures { result ≡ length_right bytes }
{
    TRAILER <= bytes && bytes <= MAX_BYTES
}

// Whether a file of this version has a constraint.
pub fn is_constrained(version: usize) -> bool
    ensures { result ≡ constrained version }
{
    version == CONSTRAINT_VERSION
}

// The bytes behind a file's items.
pub fn tail_bytes(version: usize) -> usize
    ensures { result ≡ tail_bytes version }
{
    if is_constrained(version) {
        OFFSET_BYTES + TRAILER
    } else {
        TRAILER
    }
}

// Whether a file may have this version.
pub fn version_right(version: usize) -> bool
    ensures { result ≡ version_right version }
{
    1 <= version && version <= LAST_VERSION
}

// Whether a trailer may have these counts.
pub fn counts_right(variables: usize, matrices: usize, cells: usize) -> bool
    ensures { result ≡ counts_right variables matrices cells }
{
    variables <= MAX_VARIABLES && 1 <= matrices && matrices <= MAX_MATRICES && cells <= MAX_CELLS
}

// Whether a design may have so many movers.
pub fn movers_right(movers: usize) -> bool
    ensures { result ≡ movers_right movers }
{
    1 <= movers && movers <= MAX_MOVERS
}
