// The state's bits, by the bytes of the variables: a Boolean's or external's 1, an integer's 16, a status's 4, the mark's 1.
ghost use Rattle.std.specs.Prelude.{◌≡◌, cond, ◌*◌, ◌≤◌, eqb, length};
ghost use Rattle.design.specs.Limits.{max_variables, max_matrices, max_bits};
ghost use Rattle.design.specs.Tree.{Design};
ghost use Rattle.design.specs.State.{widths_from, widths_of, total, S};
ghost use Rattle.design.specs.Check.{variable_count, matrix_count};
ghost use Rattle.design.specs.Sections.{Parts};

use super::kind::Kind;

pub fn width(kind: u8) -> usize
    ensures { result ≡ cond (eqb kind 1) 16 1 }
{
    if kind == Kind::Integer as u8 { 16 } else { 1 }
}

// Where the bits of variable v begin; with v the number of variables, those of the statuses.
pub fn offset(file: &[u8], v: usize) -> usize
    requires { (3 * v ≤ length file.now) × (v ≤ 256) }
    ensures { result ≡ total (widths_from file.now 0 v) }
{
    let mut bits: usize = 0;
    for i in 0..v {
        bits += width(file[3 * i]);
    }
    bits
}

// The number of state bits.
pub fn state_bits(file: &[u8], variables: usize, matrices: usize) -> usize
    requires { (3 * variables ≤ length file.now) × (variables ≤ max_variables) × (matrices ≤ max_matrices) }
    ensures counted { (result ≡ total (widths_of file.now variables matrices)) × (result ≤ max_bits) }
    ensures of_design { (d : Design) → Parts file.now d → variables ≡ variable_count file.now → matrices ≡ matrix_count file.now → result ≡ S d }
{
    offset(file, variables) + 4 * matrices + 1
}
