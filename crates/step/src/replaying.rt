// A list of choices, run from the first state.
ghost use Rattle.std.specs.Prelude.{◌≡◌, ℕ, ◌+◌, ◌<◌, ◌≤◌, true, ◌||◌, Some, is_some, map, length, drop, replicate, if◌then◌else◌, ◌==◌, nat_lt};
ghost use Rattle.design.specs.Tree.{Design};
ghost use Rattle.design.specs.State.{start, slot_count};
ghost use Rattle.design.specs.Check.{check, accepted};
ghost use Rattle.design.specs.Answer.{told};
ghost use Rattle.design.specs.Places.{Accepted, Shaped};
ghost use Rattle.design.specs.Sections.{Parts};
ghost use Rattle.step.specs.Limits.{last_property, max_bound};
ghost use Rattle.step.specs.Interface.{wrong_at};
ghost use Rattle.step.specs.Piece.{piece_right};
ghost use Rattle.step.specs.Property.{property_of};
ghost use Rattle.step.specs.OneStep.{true_at};
ghost use Rattle.step.specs.Operations.{run_told, REPLAY};
ghost use Rattle.step.specs.Ready.{before_in, Replayable};

use super::Replayed;
use super::machine::{Machine, Movers};
use super::property::judges_steps;
use design::bytes::{wide, word};
use design::index::{index_cells, index_events, shape};
use design::limits::{EVENT_PLACES, MAX_MOVERS, PAIR_SLOTS};
use design::refusal::Refused;
use design::shape::{Shape, slot_count};

// The place of the first choice that is not below w.
pub fn first_over(choices: &[u8], w: usize) -> Option<usize>
    ensures { result ≡ wrong_at (map (λ (c : ℕ). nat_lt c w) choices.now) }
{
    choices.iter().position(|choice| w <= wide(*choice))
}

// The first state, in slots that are 0, as its statuses and its mark are.
pub fn load_start(file: &[u8], shape: Shape, slots: &mut [u16])
    requires { Accepted file.now × Shaped file.now shape × (slots.old ≡ replicate (slot_count shape) 0) }
    ensures { (d : Design) → check file.now ≡ accepted d → slots.new ≡ start d }
{
    for v in 0..shape.variables {
        slots[v] = word(file, 3 * v + 1) as u16;
    }
}

impl<'a> Machine<'a> {
    // The first step at which the property is false, up to step i. Past the first break it is not judged.
    pub fn broken_by(
        self,
        broken: Option<usize>,
        piece: &'a [u8],
        property: u64,
        i: usize,
        pair: &[u16],
    ) -> Option<usize>
        requires { (length pair.now ≡ slot_count self.shape + slot_count self.shape) × (piece_right self.file.now piece.now property ≡ true) }
        ensures { (d : Design) (parts : Parts self.entry.file.now d)
            → result ≡ (if is_some broken || true_at d (property_of self.entry.file.now piece.now d property) (before_in (i == 0) (slot_count self.entry.shape) pair.now) (drop (slot_count self.entry.shape) pair.now) then broken else Some i) }
    {
        let holds = broken.is_some() || self.true_at(piece, property, i == 0, pair);
        if holds { broken } else { Some(i) }
    }
}

impl<'a> Movers<'a> {
    // The run from the second state of `pair`: the first step at which the property is false, and the counts of all choices. Each choice acts on the pair in place.
    pub fn replay_choices(
        self,
        piece: &'a [u8],
        property: u64,
        choices: &[u8],
        pair: &mut [u16],
    ) -> Replayed
        requires { Replayable self.machine.file.now piece.now self.machine.shape property pair.old choices.now }
        ensures { (d : Design) → check self.entry.machine.file.now ≡ accepted d
            → result ≡ run_told d (property_of self.entry.machine.file.now piece.now d property) (drop (slot_count self.entry.machine.shape) pair.old) choices.now }
    {
        let mut broken = None;
        let mut read = 0;
        let mut guards = 0;
        for (i, choice) in choices.iter().enumerate() {
            broken = self.machine.broken_by(broken, piece, property, i, pair);
            let tested = self.step_pair(wide(*choice), judges_steps(property), pair);
            read += usize::from(tested.event);
            guards += usize::from(tested.guard);
        }
        let broken = self
            .machine
            .broken_by(broken, piece, property, choices.len(), pair);
        Replayed {
            broken,
            events: read,
            guards,
        }
    }

    // The same from the first state, in slots that are 0.
    pub fn replay_slots(
        self,
        piece: &'a [u8],
        property: u64,
        choices: &[u8],
        pair: &mut [u16],
    ) -> Replayed
        requires { Replayable self.machine.file.now piece.now self.machine.shape property pair.old choices.now
            × (pair.old ≡ replicate (slot_count self.machine.shape + slot_count self.machine.shape) 0) }
        ensures { (d : Design) → check self.entry.machine.file.now ≡ accepted d
            → result ≡ run_told d (property_of self.entry.machine.file.now piece.now d property) (start d) choices.now }
    {
        let shape = self.machine.shape;
        let n = slot_count(shape);
        load_start(self.machine.file, shape, &mut pair[n..]);
        self.replay_choices(piece, property, choices, pair)
    }
}

// On an accepted file, with a right property and piece and few choices: the tables are filled once, for all steps.
pub fn replay_accepted<'a>(
    file: &'a [u8],
    piece: &'a [u8],
    property: u64,
    choices: &[u8],
) -> Result<Replayed, Refused>
    requires { Accepted file.now × (property ≤ last_property file.now) × (piece_right file.now piece.now property ≡ true) × (length choices.now ≤ max_bound) }
    ensures { told result ≡ REPLAY file.now piece.now property choices.now }
{
    let mut cells = [0u16; MAX_MOVERS];
    let normals = index_cells(file, &mut cells);
    let shape = shape(file, normals);
    if let Some(over) = first_over(choices, shape.normals + shape.externals) {
        return Err(Refused::Choice(over));
    }
    let mut events = [0u16; EVENT_PLACES];
    index_events(file, &mut events);
    let mut all = [0u16; PAIR_SLOTS];
    let n = slot_count(shape);
    let end = n + n;
    let machine = Machine {
        file,
        events: &events,
        shape,
    };
    let movers = Movers {
        machine,
        cells: &cells,
    };
    Ok(movers.replay_slots(piece, property, choices, &mut all[..end]))
}
