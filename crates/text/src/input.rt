// The input of the programs: how it is read, and the design at its end.
ghost use Rattle.std.specs.Prelude.{◌≡◌, ◌-◌, ◌≤◌, ◌<◌, length, take, drop, IfOk, OnOk};
ghost use Rattle.std.specs.Io.KnownBytes.{Consumes, IsAtEnd};
ghost use Rattle.text.specs.Trace.{max_read};

use design::limits::MAX_BYTES;
use std::io;
use std::io::Read;

// Design bytes that are read: one more than a design may have, so that a longer one is refused.
pub const MAX_READ: usize = MAX_BYTES + 1;

// The end of what is read of the design that starts at `start`.
pub fn design_end(input: &[u8], start: usize) -> usize
    requires { start ≤ length input.now }
    ensures { (start ≤ result) × (result ≤ length input.now) × (take (result - start) (drop start input.now) ≡ take max_read (drop start input.now)) }
{
    if MAX_READ < input.len() - start {
        return start + MAX_READ;
    }
    input.len()
}

// Fills the buffer from the front, until it is full or the input ends: how many bytes stand in it. They are those that the
// input had next; what is behind them in the buffer is no part of it.
pub fn read_full<R: Read>(input: &mut R, buffer: &mut [u8]) -> io::Result<usize>
    ensures within { IfOk result (λ n. n ≤ length buffer.new) }
    ensures bytes { IfOk result (λ n. Consumes (R.remaining input.old) (R.remaining input.new) (take n buffer.new)) }
    ensures end { IfOk result (λ n. n < length buffer.new → IsAtEnd (R.remaining input.new)) }
{
    let mut filled = 0;
    // Kept: a read gives any number of bytes, and an input that ends early is no error, as it is to `read_exact`.
    while filled < buffer.len() {
        let n = input.read(&mut buffer[filled..])?;
        if n == 0 {
            break;
        }
        filled += n;
    }
    Ok(filled)
}
