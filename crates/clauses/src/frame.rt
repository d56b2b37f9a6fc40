// The sizes of a frame, computed once from an accepted file and a right piece, and the sizes of the formula's parts, which are arithmetic on them.
ghost use Rattle.std.specs.Prelude.{◌≡◌, ℕ, ◌*◌, ◌≤◌, true, List};
ghost use Rattle.design.specs.Tree.{Design};
ghost use Rattle.design.specs.Limits.{max_movers};
ghost use Rattle.design.specs.Check.{check, accepted};
ghost use Rattle.design.specs.Places.{Accepted};
ghost use Rattle.design.specs.Sections.{Parts};
ghost use Rattle.step.specs.Limits.{max_bound};
ghost use Rattle.step.specs.Piece.{piece_right};
ghost use Rattle.step.specs.Property.{property_of};
ghost use Rattle.clauses.specs.Limits.{most_gates, frame_limit, most_variables, count_limit, size_limit};
ghost use Rattle.clauses.specs.Cost.{pair_count, property_cost, step_property_cost};
ghost use Rattle.clauses.specs.FrameSizes.{more as more_of, HasGates, FewGates, frame_sizes, SmallFrame, frame_length, step_clauses_of, step_words_of, part_words_of, variables_of, formula_sizes};
ghost use Rattle.clauses.specs.Ready.{ShapedFile};

use super::cost::{GatesAt, more, no_gates, size_bool};
use super::tables::Tables;
use design::index::{constraint, has_constraint, index_cells, index_events, shape};
use design::limits::{EVENT_PLACES, MAX_MOVERS};
use design::shape::Shape;
use step::limits::CONSTRAINT;
use step::piece::expression;

// Gates by kind; `wides` are xors and muxes.
#[derive(Clone, Copy)]
pub struct Gates {
    pub ands: u64,
    pub wides: u64,
}

// State bits, property gates, flags and gates of the step. `last` is 1 where the last clause takes the last frame too, else 0.
#[derive(Clone, Copy)]
pub struct FrameSizes {
    pub bits: u64,
    pub movers: u64,
    pub property: Gates,
    pub step: Gates,
    pub last: u64,
}

// SIZE's numbers: S, P, w, G, n, and the whole formula's clauses and words.
#[derive(Clone, Copy)]
pub struct FormulaSizes {
    pub bits: u64,
    pub property: u64,
    pub movers: u64,
    pub step: u64,
    pub variables: u64,
    pub clauses: u64,
    pub words: u64,
}

// A property ends in an and with the mark's negation.
pub fn ends_unmarked(property: GatesAt) -> GatesAt
    requires { FewGates most_gates property }
    ensures { result ≡ more_of property 1 0 }
{
    more(property, 1, 0)
}

impl<'a> Tables<'a> {
    // The gates of the property.
    pub fn size_property(self, piece: &'a [u8], property: u64) -> GatesAt
        requires { piece_right self.file.now piece.now property ≡ true }
        ensures { FewGates most_gates result × ((d : Design) → Parts self.entry.file.now d → HasGates result (property_cost d (property_of self.entry.file.now piece.now d property))) }
    {
        if property == 0 {
            let text = expression(self.file, piece);
            return ends_unmarked(size_bool(text, 0, text.len(), self.shape, false));
        }
        if property == 1 {
            return ends_unmarked(self.size_cells(true));
        }
        no_gates(0)
    }
}

// The gates of property 2 among those of the step; other properties have none there. No piece is read.
pub fn size_step_property(file: &[u8], shape: Shape, property: u64) -> GatesAt
    requires { ShapedFile file.now shape }
    ensures { FewGates most_gates result × ((d : Design) → Parts file.now d → (piece : List ℕ) → HasGates result (step_property_cost (property_of file.now piece d property))) }
{
    if property < CONSTRAINT {
        return no_gates(0);
    }
    if !has_constraint(file) {
        return ends_unmarked(no_gates(0));
    }
    let stands = constraint(file);
    ends_unmarked(size_bool(file, stands.at, stands.end, shape, false))
}

// The sizes of a frame of an accepted file, with a right piece.
pub fn sizes<'a>(file: &'a [u8], piece: &'a [u8], property: u64) -> FrameSizes
    requires { Accepted file.now × (piece_right file.now piece.now property ≡ true) }
    ensures { SmallFrame result × ((d : Design) → check file.now ≡ accepted d → result ≡ frame_sizes d (property_of file.now piece.now d property)) }
{
    let mut events = [0u16; EVENT_PLACES];
    index_events(file, &mut events);
    let mut cells = [0u16; MAX_MOVERS];
    let shape = shape(file, index_cells(file, &mut cells));
    let tables = Tables {
        file,
        events: &events,
        shape,
    };
    let p = tables.size_property(piece, property);
    let s = tables.size_cells(false);
    let c = size_step_property(file, shape, property);
    let bits = shape.bits as u64;
    FrameSizes {
        bits,
        movers: (shape.normals + shape.externals) as u64,
        property: Gates {
            ands: p.ands,
            wides: p.wides,
        },
        step: Gates {
            ands: s.ands + c.ands,
            wides: s.wides + times(shape.externals as u64, bits) + c.wides,
        },
        last: if property < CONSTRAINT { 1 } else { 0 },
    }
}

// A product of a count and a size.
pub fn times(k: u64, x: u64) -> u64
    requires { (k ≤ count_limit) × (x ≤ size_limit) }
    ensures { (result ≡ k * x) × (result ≤ count_limit * size_limit) }
{
    k * x
}

// The number of pairs of so many flags.
pub fn pairs(m: u64) -> u64
    requires { m ≤ max_movers }
    ensures { (result ≡ pair_count m) × (result ≤ max_movers * max_movers) }
{
    if m == 0 { 0 } else { times(m, m - 1) / 2 }
}

// Clauses of the step out of a frame: the clause of all flags, their pairs, the gates, the ties.
pub fn step_clauses(s: FrameSizes) -> u64
    requires { SmallFrame s }
    ensures { (result ≡ step_clauses_of s) × (result ≤ size_limit) }
{
    1 + pairs(s.movers) + 3 * s.step.ands + 4 * s.step.wides + 2 * times(s.movers, s.bits)
}

// Words of the same.
pub fn step_words(s: FrameSizes) -> u64
    requires { SmallFrame s }
    ensures { (result ≡ step_words_of s) × (result ≤ size_limit) }
{
    1 + s.movers
        + 3 * pairs(s.movers)
        + 10 * s.step.ands
        + 16 * s.step.wides
        + 8 * times(s.movers, s.bits)
}

// The words of part i of the formula for bound k, for i up to k + 2.
pub fn part_words(s: FrameSizes, k: u64, i: u64) -> u64
    requires { SmallFrame s × (k ≤ max_bound) }
    ensures { result ≡ part_words_of s k i }
{
    if i == 0 {
        return 2 + 2 * s.bits;
    }
    if k + 1 < i {
        return k + s.last + 1;
    }
    let words = 10 * s.property.ands + 16 * s.property.wides;
    if k + 1 == i {
        return words;
    }
    words + step_words(s)
}

// F: how many variables a frame has.
pub fn frame_length(s: FrameSizes) -> u64
    requires { SmallFrame s }
    ensures { (result ≡ frame_length s) × (result ≤ frame_limit) }
{
    s.bits + (s.property.ands + s.property.wides) + s.movers + (s.step.ands + s.step.wides)
}

// n for bound k.
pub fn variables(s: FrameSizes, k: u64) -> u64
    requires { SmallFrame s × (k ≤ max_bound) }
    ensures { (result ≡ variables_of s k) × (result ≤ most_variables) }
{
    let property = s.property.ands + s.property.wides;
    1 + times(k, frame_length(s)) + s.bits + property
}

// SIZE's numbers for bound k.
pub fn formula(s: FrameSizes, k: u64) -> FormulaSizes
    requires { SmallFrame s × (k ≤ max_bound) }
    ensures { result ≡ formula_sizes s k }
{
    let property = s.property.ands + s.property.wides;
    let step = s.step.ands + s.step.wides;
    let clauses = 3 * s.property.ands + 4 * s.property.wides;
    let words = 10 * s.property.ands + 16 * s.property.wides;
    FormulaSizes {
        bits: s.bits,
        property,
        movers: s.movers,
        step,
        variables: variables(s, k),
        clauses: 1 + s.bits + times(1 + k, clauses) + times(k, step_clauses(s)) + 1,
        words: 2 + 2 * s.bits + times(1 + k, words) + times(k, step_words(s)) + (k + s.last + 1),
    }
}
