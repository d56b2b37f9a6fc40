// The clause-printing program: property byte, bound byte and design from standard input; the formula's parts in order to standard output.
// Proved: the texts of the parts that `parts_of` answers, joined, are the whole output (`clauses_text`), and `put_part_of` gives the text of each.
// Plain to read below: they are written in order. No contract can say what is written.
#![tactic(auto)]

use std::io;
use std::io::Write;
use text::input::{MAX_READ, read_full};
use text::listing::{MAX_TEXT, MAX_WORDS, PartRange, parts_of, put_part_of};

// Two bytes, and a design: what is past them is not read.
const MAX_INPUT: usize = 2 + MAX_READ;

fn find_parts(input: &[u8]) -> PartRange {
    let mut words = [0i32; MAX_WORDS];
    parts_of(input, &mut words)
}

fn print_part(rt: &HostRuntime, input: &[u8], part: u64) -> io::Result<()> {
    let mut words = [0i32; MAX_WORDS];
    let mut out = [0u8; MAX_TEXT];
    let k = put_part_of(input, part, &mut words, &mut out);
    rt.stdout().write_all(&out[..k])
}

fn main(rt: HostRuntime) -> io::Result<()> {
    let mut input = [0u8; MAX_INPUT];
    let n = read_full(&mut rt.stdin(), &mut input)?;
    let design = &input[..n];
    let parts = find_parts(design);
    for part in parts.first..parts.end {
        print_part(&rt, design, part)?;
    }
    Ok(())
}
