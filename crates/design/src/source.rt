// What expressions and actions are read from.
ghost use Rattle.std.specs.Prelude.{◌*◌, ◌≤◌, length};

use super::shape::Shape;

// The bytes of a text up to `end`, and the file whose variables and matrices it names, as many as `shape` says.
#[derive(Clone, Copy)]
pub struct Source<'a> {
    pub text: &'a [u8],
    pub end: usize,
    pub file: &'a [u8],
    pub shape: Shape,
    ghost inside: { end ≤ length text.now },
    ghost kinds: { 3 * shape.variables ≤ length file.now },
}
