// What formula is written.
use super::frame::FrameSizes;
use design::limits::MAX_MOVERS;

// Of the places of a design's normal cells, with the sizes of a frame, for a property and a bound.
#[derive(Clone, Copy)]
pub struct Instance {
    pub cells: [u16; MAX_MOVERS],
    pub sizes: FrameSizes,
    pub property: u64,
    pub bound: u64,
}
