// The 32 values, the 8 statuses and the mark of the calls: whether they are right, into slots, and back.
ghost use Rattle.std.specs.Prelude.{◌≡◌, ◌+◌, ◌-◌, ◌*◌, ◌<◌, ◌≤◌, ◌++◌, map, length, take, drop, replicate, pos, slice_index};
ghost use Rattle.std.proofs.Math.Seq.{paste};
ghost use Rattle.design.specs.Tree.{Design};
ghost use Rattle.design.specs.Check.{check, accepted, variable_count, matrix_count};
ghost use Rattle.design.specs.Places.{Accepted, Shaped};
ghost use Rattle.design.specs.Limits.{max_variables, max_matrices};
ghost use Rattle.design.specs.State.{layout_of, slot_count};
ghost use Rattle.step.specs.Pattern.{signed, wrap};
ghost use Rattle.step.specs.Interface.{wrong_at, values_right, statuses_right};
ghost use Rattle.step.specs.Entries.{value_right, status_right, tests_of};

use super::number::{integer, pattern};
use design::index::{MATRICES_AT, trailer_word};
use design::kind::Kind;
use design::limits::{MAX_MATRICES, MAX_VARIABLES};
use design::shape::Shape;

// The entries that a call takes, the values as patterns; they are passed by value.
#[derive(Clone, Copy)]
pub struct Entries {
    pub patterns: [u16; MAX_VARIABLES],
    pub statuses: [u16; MAX_MATRICES],
    pub mark: u16,
}

// The place of refusal 11 of the mark, behind those of the values and the statuses.
const MARK_PLACE: usize = MAX_VARIABLES + MAX_MATRICES;

// The patterns of the values.
pub fn patterns(values: [i16; MAX_VARIABLES]) -> [u16; MAX_VARIABLES]
    ensures { result ≡ map wrap values }
{
    let mut out = [0u16; MAX_VARIABLES];
    for i in 0..MAX_VARIABLES {
        out[i] = pattern(values[i]);
    }
    out
}

pub fn value_right(file: &[u8], variables: usize, i: usize, p: u16) -> bool
    requires { (3 * variables ≤ length file.now) × (variables ≤ max_variables) }
    ensures { result ≡ value_right file.now variables i p }
{
    if variables <= i {
        p == 0
    } else {
        file[3 * i] == Kind::Integer as u8 || p <= 1
    }
}

// The index of the first wrong value.
pub fn wrong_value(file: &[u8], variables: usize, ps: [u16; MAX_VARIABLES]) -> Option<usize>
    requires { Accepted file.now × (variables ≡ variable_count file.now) }
    ensures { (d : Design) → check file.now ≡ accepted d → result ≡ wrong_at (values_right d.variables ps) }
{
    for (i, p) in ps.iter().enumerate() {
        if !value_right(file, variables, i, *p) {
            return Some(i);
        }
    }
    None
}

pub fn status_right(file: &[u8], mats: usize, matrices: usize, m: usize, s: u16) -> bool
    requires { (mats + 2 * matrices ≤ length file.now) × (matrices ≤ max_matrices) }
    ensures { result ≡ status_right file.now mats matrices m s }
{
    if matrices <= m {
        s == 0
    } else {
        s < u16::from(file[mats + 2 * m])
    }
}

// The index of the first wrong status.
pub fn wrong_status(file: &[u8], matrices: usize, ss: [u16; MAX_MATRICES]) -> Option<usize>
    requires { Accepted file.now × (matrices ≡ matrix_count file.now) }
    ensures { (d : Design) → check file.now ≡ accepted d → result ≡ wrong_at (statuses_right d.statuses ss) }
{
    let mats = trailer_word(file, MATRICES_AT);
    for (m, s) in ss.iter().enumerate() {
        if !status_right(file, mats, matrices, m, *s) {
            return Some(m);
        }
    }
    None
}

// The index of the first wrong entry, statuses from 32, the mark 40.
pub fn wrong_entry(file: &[u8], shape: Shape, entries: Entries) -> Option<usize>
    requires { Accepted file.now × Shaped file.now shape }
    ensures { (d : Design) → check file.now ≡ accepted d → result ≡ wrong_at (tests_of d entries) }
{
    if let Some(i) = wrong_value(file, shape.variables, entries.patterns) {
        return Some(i);
    }
    if let Some(m) = wrong_status(file, shape.matrices, entries.statuses) {
        return Some(MAX_VARIABLES + m);
    }
    (1 < entries.mark).then_some(MARK_PLACE)
}

// The first n of `from` into the slots at `at`.
pub fn copy_slots(from: &[u16], n: usize, at: usize, slots: &mut [u16])
    requires { (n ≤ length from.now) × (at + n ≤ length slots.old) }
    ensures { slots.new ≡ paste slots.old at from.now n }
{
    slots[at..at + n].copy_from_slice(&from[..n]);
}

// The values of the first n slots, and 0 after them.
pub fn give_values(n: usize, slots: &[u16]) -> [i16; MAX_VARIABLES]
    requires { (n ≤ max_variables) × (n ≤ length slots.now) }
    ensures { result ≡ take n (map signed slots.now) ++ replicate (max_variables - n) (pos 0) }
{
    let mut out = [0i16; MAX_VARIABLES];
    for i in 0..n {
        out[i] = integer(slots[i]);
    }
    out
}

// The k slots from n on as statuses, and 0 after them.
pub fn give_statuses(n: usize, k: usize, slots: &[u16]) -> [u16; MAX_MATRICES]
    requires { (k ≤ max_matrices) × (n + k ≤ length slots.now) }
    ensures { result ≡ take k (drop n slots.now) ++ replicate (max_matrices - k) 0 }
{
    let mut out = [0u16; MAX_MATRICES];
    out[..k].copy_from_slice(&slots[n..n + k]);
    out
}

// The mark of a state.
pub fn give_mark(shape: Shape, slots: &[u16]) -> u16
    requires { (shape.variables ≤ max_variables) × (shape.matrices ≤ max_matrices) × (slot_count shape ≤ length slots.now) }
    ensures { result ≡ slice_index slots.now (layout_of shape).mark }
{
    slots[shape.variables + shape.matrices]
}
