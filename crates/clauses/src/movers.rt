// The gates of a step: all movers in order. The first variable of each result is kept, for the ties.
ghost use Rattle.design.specs.Places.{CellsIndexed};
ghost use Rattle.clauses.specs.Ready.{AllMove};

use super::gate::{Cursor, Out};
use super::mover::encode_external;
use super::tables::Tables;
use design::index::external;
use design::limits::{MAX_BITS, MAX_MOVERS};

impl<'a> Tables<'a> {
    // All movers: the normal cells, then the externals; the first variable of each one's result.
    pub fn encode_step(
        self,
        cells: &[u16; MAX_MOVERS],
        bits: &[u32; MAX_BITS],
        buf: &mut [i32],
        pen: Cursor,
    ) -> Out<[u32; MAX_MOVERS]>
        requires { CellsIndexed self.file.now cells.now self.shape.normals }
        ensures { AllMove self.entry.file.now self.entry.shape bits.now pen buf.old buf.new result }
    {
        let shape = self.shape;
        let mut value = [0u32; MAX_MOVERS];
        let mut pen = pen;
        for i in 0..shape.normals + shape.externals {
            let t = if i < shape.normals {
                self.encode_cell(cells[i] as usize, bits, buf, pen)
            } else {
                let v = external(self.file, shape.variables, i - shape.normals);
                encode_external(self.file, v, shape, bits, buf, pen)
            };
            value[i] = t.value;
            pen = t.pen;
        }
        Out { value, pen }
    }
}
