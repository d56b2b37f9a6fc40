// What the functions that walk an accepted file are given, so that its tables and its shape travel with it.
ghost use Rattle.design.specs.Places.{Indexed, MoversIndexed};

use design::limits::{EVENT_PLACES, MAX_MOVERS};
use design::shape::Shape;

// An accepted file with its table of events and its shape.
#[derive(Clone, Copy)]
pub struct Machine<'a> {
    pub file: &'a [u8],
    pub events: &'a [u16; EVENT_PLACES],
    pub shape: Shape,
    ghost indexed: { Indexed file.now events.now shape },
}

// The same with the table of its normal cells: what a choice is looked up in.
#[derive(Clone, Copy)]
pub struct Movers<'a> {
    pub machine: Machine<'a>,
    pub cells: &'a [u16; MAX_MOVERS],
    ghost movers: { MoversIndexed machine.file.now cells.now machine.shape },
}
