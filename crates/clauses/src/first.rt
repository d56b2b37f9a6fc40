// Part 0: the clause (1) and the initial units, over the variables of frame 0.
ghost use Rattle.design.specs.Tree.{Design};
ghost use Rattle.design.specs.Sections.{Parts};
ghost use Rattle.step.specs.Property.{Property};
ghost use Rattle.clauses.specs.Words.{words};
ghost use Rattle.clauses.specs.Formula.{first_part};
ghost use Rattle.clauses.specs.Writing.{Puts};
ghost use Rattle.clauses.specs.Ready.{ShapedFile, ValuesPut};

use super::clause::put_units;
use super::gate::clause1;
use super::literal::TRUE;
use design::bits::{offset, width};
use design::bytes::word;
use design::shape::Shape;

// The units of the variables' initial values.
pub fn put_values(file: &[u8], shape: Shape, buf: &mut [i32], cur: usize) -> usize
    requires { ShapedFile file.now shape }
    ensures { ValuesPut file.now buf.old buf.new cur result }
{
    let mut at = cur;
    let mut x: u32 = 2;
    for v in 0..shape.variables {
        let n = width(file[3 * v]);
        let value = word(file, 3 * v + 1);
        at = put_units(buf, at, x, n, value);
        x += n as u32;
    }
    at
}

// The statuses' bits and the mark's follow the variables', and are all 0.
pub fn put_first(file: &[u8], shape: Shape, buf: &mut [i32], cur: usize) -> usize
    requires { ShapedFile file.now shape }
    ensures { (d : Design) (parts : Parts file.now d) (p : Property) → Puts (words (first_part d p)) buf.old buf.new cur result }
{
    let a = clause1(buf, cur, TRUE);
    let b = put_values(file, shape, buf, a);
    let x = 2 + offset(file, shape.variables);
    put_units(buf, b, x as u32, 4 * shape.matrices + 1, 0)
}
