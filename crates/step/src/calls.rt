// START, STEP and HOLDS on an accepted file.
ghost use Rattle.std.specs.Prelude.{◌≡◌, ◌+◌, ◌<◌, ◌≤◌, length, replicate};
ghost use Rattle.design.specs.Limits.{max_variables, max_matrices};
ghost use Rattle.step.specs.Limits.{last_state_property};
ghost use Rattle.design.specs.Tree.{Design};
ghost use Rattle.design.specs.State.{slot_count};
ghost use Rattle.design.specs.Check.{check, accepted};
ghost use Rattle.design.specs.Answer.{answer, told};
ghost use Rattle.design.specs.Places.{Accepted, Shaped};
ghost use Rattle.design.specs.Sections.{Parts};
ghost use Rattle.step.specs.Piece.{no_piece};
ghost use Rattle.step.specs.Property.{property_of};
ghost use Rattle.step.specs.OneStep.{holds as holds_in};
ghost use Rattle.step.specs.Operations.{START, next, STEP, HOLDS};
ghost use Rattle.step.specs.Entries.{slots_entered};

use super::interface::{
    Entries, copy_slots, give_mark, give_statuses, give_values, patterns, wrong_entry,
};
use super::machine::{Machine, Movers};
use super::property::judges_steps;
use super::replaying::load_start;
use super::{Started, Stepped};
use design::index::{index_cells, index_events, shape};
use design::limits::{EVENT_PLACES, MAX_MATRICES, MAX_MOVERS, MAX_SLOTS, MAX_VARIABLES};
use design::refusal::Refused;
use design::shape::{Shape, slot_count};

// The first state, by slots that are 0.
pub fn start_slots(file: &[u8], shape: Shape, slots: &mut [u16]) -> Started
    requires { Accepted file.now × Shaped file.now shape × (slots.old ≡ replicate (slot_count shape) 0) }
    ensures { answer result ≡ START file.now }
{
    load_start(file, shape, slots);
    Started {
        values: give_values(shape.variables, slots),
        statuses: give_statuses(shape.variables, shape.matrices, slots),
        mark: give_mark(shape, slots),
    }
}

pub fn start_accepted(file: &[u8]) -> Started
    requires { Accepted file.now }
    ensures { answer result ≡ START file.now }
{
    let shape = shape(file, 0);
    let mut all = [0u16; MAX_SLOTS];
    let n = slot_count(shape);
    start_slots(file, shape, &mut all[..n])
}

// The state that the entries give, into slots.
pub fn load_entries(shape: Shape, entries: Entries, slots: &mut [u16])
    requires { (shape.variables ≤ max_variables) × (shape.matrices ≤ max_matrices) × (length slots.old ≡ slot_count shape) }
    ensures { slots.new ≡ slots_entered shape entries }
{
    copy_slots(&entries.patterns, shape.variables, 0, slots);
    copy_slots(&entries.statuses, shape.matrices, shape.variables, slots);
    slots[shape.variables + shape.matrices] = entries.mark;
}

impl<'a> Movers<'a> {
    // The step out of the state that the entries give, in `slots`.
    pub fn step_slots(self, choice: usize, entries: Entries, slots: &mut [u16]) -> Stepped
        requires { (length slots.old ≡ slot_count self.machine.shape) × (choice < self.machine.shape.normals + self.machine.shape.externals) }
        ensures { (d : Design) → check self.entry.machine.file.now ≡ accepted d → result ≡ next d (slots_entered self.entry.machine.shape entries) choice }
    {
        let shape = self.machine.shape;
        load_entries(shape, entries, slots);
        let tested = self.move_chosen(choice, slots);
        Stepped {
            values: give_values(shape.variables, slots),
            statuses: give_statuses(shape.variables, shape.matrices, slots),
            mark: give_mark(shape, slots),
            idle: tested.idle,
        }
    }
}

pub fn step_accepted(
    file: &[u8],
    values: [i16; MAX_VARIABLES],
    statuses: [u16; MAX_MATRICES],
    mark: u16,
    choice: u64,
) -> Result<Stepped, Refused>
    requires { Accepted file.now }
    ensures { told result ≡ STEP file.now values statuses mark choice }
{
    let mut cells = [0u16; MAX_MOVERS];
    let normals = index_cells(file, &mut cells);
    let shape = shape(file, normals);
    let entries = Entries {
        patterns: patterns(values),
        statuses,
        mark,
    };
    if let Some(wrong) = wrong_entry(file, shape, entries) {
        return Err(Refused::Entry(wrong));
    }
    let c = choice as usize;
    if shape.normals + shape.externals <= c {
        return Err(Refused::Choice(0));
    }
    let mut events = [0u16; EVENT_PLACES];
    index_events(file, &mut events);
    let mut all = [0u16; MAX_SLOTS];
    let n = slot_count(shape);
    let machine = Machine {
        file,
        events: &events,
        shape,
    };
    let movers = Movers {
        machine,
        cells: &cells,
    };
    Ok(movers.step_slots(c, entries, &mut all[..n]))
}

impl<'a> Machine<'a> {
    // Whether the property is true in the state that the entries give, in `slots`.
    pub fn holds_slots(self, property: u64, entries: Entries, slots: &mut [u16]) -> bool
        requires { (length slots.old ≡ slot_count self.shape) × (property ≤ last_state_property) }
        ensures { (d : Design) (parts : Parts self.entry.file.now d) → result
            ≡ holds_in d (property_of self.entry.file.now no_piece d property) (slots_entered self.entry.shape entries) }
    {
        load_entries(self.shape, entries, slots);
        self.property_true(b"", property, slots)
    }
}

// Whether the property is true in the state that right entries give.
pub fn holds_right(file: &[u8], shape: Shape, property: u64, entries: Entries) -> bool
    requires { Accepted file.now × Shaped file.now shape × (property ≤ last_state_property) }
    ensures { (d : Design) (parts : Parts file.now d) → result ≡ holds_in d (property_of file.now no_piece d property) (slots_entered shape entries) }
{
    let mut events = [0u16; EVENT_PLACES];
    index_events(file, &mut events);
    let mut all = [0u16; MAX_SLOTS];
    let n = slot_count(shape);
    let machine = Machine {
        file,
        events: &events,
        shape,
    };
    machine.holds_slots(property, entries, &mut all[..n])
}

pub fn holds_accepted(
    file: &[u8],
    values: [i16; MAX_VARIABLES],
    statuses: [u16; MAX_MATRICES],
    mark: u16,
    property: u64,
) -> Result<bool, Refused>
    requires { Accepted file.now }
    ensures { told result ≡ HOLDS file.now values statuses mark property }
{
    let shape = shape(file, 0);
    let entries = Entries {
        patterns: patterns(values),
        statuses,
        mark,
    };
    if let Some(wrong) = wrong_entry(file, shape, entries) {
        return Err(Refused::Entry(wrong));
    }
    if judges_steps(property) {
        return Err(Refused::Property);
    }
    Ok(holds_right(file, shape, property, entries))
}
