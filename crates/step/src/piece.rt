// A property kept outside the design: the piece that is lent beside the file.
ghost use Rattle.std.specs.Prelude.{◌≡◌};
ghost use Rattle.design.specs.Places.{Accepted};
ghost use Rattle.step.specs.Piece.{piece_right};
ghost use Rattle.step.specs.Ready.{expression_text};

use design::index::{invariant, trailer_counts};
use design::limits::{MAX_BYTES, MAX_DEPTH};
use design::shape::shape_of;
use design::source::Source;

// Whether the piece, if it has any bytes, is one Boolean expression that fills its length, of at most MAX_BYTES. For properties other than 0 it is not read.
pub fn piece_right(file: &[u8], piece: &[u8], property: u64) -> bool
    requires { Accepted file.now }
    ensures { result ≡ piece_right file.now piece.now property }
{
    if 0 < property {
        return true;
    }
    let len = piece.len();
    if len == 0 {
        return true;
    }
    if MAX_BYTES < len {
        return false;
    }
    let shape = shape_of(trailer_counts(file));
    let source = Source {
        text: piece,
        end: len,
        file,
        shape,
    };
    source.check_bool(0, false, MAX_DEPTH) == Some(len)
}

// The bytes of property 0's expression: the piece if it has any bytes, else the invariant's part of the file.
pub fn expression<'a>(file: &'a [u8], piece: &'a [u8]) -> &'a [u8]
    requires { Accepted file.now }
    ensures { result.now ≡ expression_text file.now piece.now }
{
    if piece.is_empty() {
        let stands = invariant(file);
        &file[stands.at..stands.end]
    } else {
        piece
    }
}
