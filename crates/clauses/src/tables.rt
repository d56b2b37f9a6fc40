// What the functions over an accepted file are given.
ghost use Rattle.std.specs.Prelude.{ℕ, ◌<◌, slice_index};
ghost use Rattle.clauses.specs.Ready.{Ready};

use design::limits::EVENT_PLACES;
use design::shape::Shape;

// An accepted file with its table of events and its shape: what is asked of it again and again while its gates are counted and written.
// `bytes` is said, since of a slice in a struct nothing is known of its elements.
#[derive(Clone, Copy)]
pub struct Tables<'a> {
    pub file: &'a [u8],
    pub events: &'a [u16; EVENT_PLACES],
    pub shape: Shape,
    ghost ready: { Ready file.now events.now shape },
    ghost bytes: { (i : ℕ) → slice_index file.now i < 256 },
}
