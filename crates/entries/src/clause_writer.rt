// SIZE, ENCODE and DECODE.
ghost use Rattle.std.specs.Prelude.{◌≡◌};
ghost use Rattle.entries.specs.Clauses.{size_entry, encode_entry, decode_entry};

use super::code::{code_alone, code_of};
use clauses::decode::decode;
use clauses::encode::encode;
use clauses::size::size;

#[unsafe(no_mangle)]
pub extern "C" fn stm_size<'a>(
    file: &'a [u8],
    piece: &'a [u8],
    property: u64,
    bound: u64,
    answer: &mut [u64; 7],
) -> u64
    ensures { record { code = result; answer = answer.new } ≡ size_entry file.now piece.now property bound answer.old }
{
    match size(file, piece, property, bound) {
        Err(r) => code_of(r),
        Ok(s) => {
            *answer = [
                s.bits,
                s.property,
                s.movers,
                s.step,
                s.variables,
                s.clauses,
                s.words,
            ];
            0
        }
    }
}

#[unsafe(no_mangle)]
pub extern "C" fn stm_encode<'a>(
    file: &'a [u8],
    piece: &'a [u8],
    property: u64,
    bound: u64,
    part: u64,
    clauses: &mut [i32],
    answer: &mut [u64; 1],
) -> u64
    ensures { record { code = result; clauses = clauses.new; answer = answer.new }
        ≡ encode_entry file.now piece.now property bound part clauses.old answer.old }
{
    match encode(file, piece, property, bound, part, clauses) {
        Err(r) => code_of(r),
        Ok(words) => {
            *answer = [words];
            0
        }
    }
}

#[unsafe(no_mangle)]
pub extern "C" fn stm_decode<'a>(
    file: &'a [u8],
    piece: &'a [u8],
    property: u64,
    bound: u64,
    values: &[u8],
    choices: &mut [u8],
) -> u64
    ensures { record { code = result; choices = choices.new } ≡ decode_entry file.now piece.now property bound values.now choices.old }
{
    code_alone(decode(file, piece, property, bound, values, choices))
}
