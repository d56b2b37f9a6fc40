// The Replay program: property byte, count byte, choices and design from standard input; the run and its result to standard output.
#![tactic(auto)]

use std::io;
use std::io::Write;
use text::input::{MAX_READ, read_full};
use text::trace::put_replay;

// Two bytes, 255 choices and a design: what is past them is not read.
const MAX_INPUT: usize = 2 + 255 + MAX_READ;

// The longest output is 101 lines of less than 1,024 bytes, and the result.
const MAX_OUTPUT: usize = 131072;

fn main(rt: HostRuntime) -> io::Result<()> {
    let mut input = [0u8; MAX_INPUT];
    let n = read_full(&mut rt.stdin(), &mut input)?;
    let mut out = [0u8; MAX_OUTPUT];
    let k = put_replay(&input[..n], &mut out);
    rt.stdout().write_all(&out[..k])
}
