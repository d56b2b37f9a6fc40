// What the Replay program prints, into a lent buffer.
ghost use Rattle.std.specs.Prelude.{◌≡◌, ℕ, ◌+◌, ◌*◌, ◌≤◌, ◌<◌, eqb, length, get_or, drop, replicate};
ghost use Rattle.design.specs.Tree.{Design};
ghost use Rattle.design.specs.Check.{check, accepted};
ghost use Rattle.design.specs.State.{slot_count};
ghost use Rattle.design.specs.Sections.{Parts};
ghost use Rattle.step.specs.Piece.{no_piece};
ghost use Rattle.step.specs.Property.{property_of};
ghost use Rattle.design.specs.Refusal.{refusal_of};
ghost use Rattle.step.specs.Ready.{before_in};
ghost use Rattle.text.specs.Text.{TextWritten, max_line, max_text};
ghost use Rattle.text.specs.Trace.{state_line, next_lines, state_lines, result_text, refused_at, refusal_text, trace, replay_text};
ghost use Rattle.text.specs.Ready.{ReplayInput};

use super::input::design_end;
use super::line::Taken;
use super::writer::Writer;
use design::bytes::wide;
use design::index::{index_cells, index_events, shape};
use design::limits::{EVENT_PLACES, MAX_MOVERS, PAIR_SLOTS};
use design::refusal::Refused;
use design::shape::slot_count;
use step::machine::{Machine, Movers};
use step::property::judges_steps;
use step::replaying::load_start;

impl<'a> Writer<'a> {
    // `refused N at P`.
    pub fn refusal(&mut self, number: u8, place: usize)
        requires { self.old.at + max_line ≤ length self.old.out.now }
        ensures same { self.new.out.ghost_name ≡ self.old.out.ghost_name }
        ensures text { TextWritten (refusal_text (refused_at number place)) self.old.out.now self.new.out.now self.old.at self.new.at }
        ensures near { self.new.at ≤ self.old.at + max_line }
    {
        self.bytes(b"refused ");
        self.decimal(wide(number));
        self.bytes(b" at ");
        self.decimal(place);
        self.byte(b'\n');
    }

    // The same of a call's refusal.
    pub(crate) fn refused(&mut self, refusal: Refused)
        requires { self.old.at + max_line ≤ length self.old.out.now }
        ensures same { self.new.out.ghost_name ≡ self.old.out.ghost_name }
        ensures text { TextWritten (refusal_text (refusal_of refusal)) self.old.out.now self.new.out.now self.old.at self.new.at }
        ensures near { self.new.at ≤ self.old.at + max_line }
    {
        self.refusal(refusal.number(), refusal.place());
    }

    // `broken at N`, or `holds`.
    pub fn result(&mut self, broken: Option<usize>)
        requires { self.old.at + max_line ≤ length self.old.out.now }
        ensures same { self.new.out.ghost_name ≡ self.old.out.ghost_name }
        ensures text { TextWritten (result_text broken) self.old.out.now self.new.out.now self.old.at self.new.at }
        ensures near { self.new.at ≤ self.old.at + max_line }
    {
        if let Some(step) = broken {
            self.bytes(b"broken at ");
            self.decimal(step);
            self.byte(b'\n');
            return;
        }
        self.bytes(b"holds\n");
    }

    // The line of the second state of `pair`; the first is the state before it, but for step 0.
    pub fn state(&mut self, machine: Machine, property: u64, taken: Taken, pair: &[u16])
        requires { (length pair.now ≡ slot_count machine.shape + slot_count machine.shape) × (self.old.at + max_line ≤ length self.old.out.now) }
        ensures same { self.new.out.ghost_name ≡ self.old.out.ghost_name }
        ensures text { (d : Design) (parts : Parts machine.entry.file.now d)
            → TextWritten (state_line d (property_of machine.entry.file.now no_piece d property) taken.step taken.mover taken.idle
            (before_in (eqb taken.step 0) (slot_count machine.entry.shape) pair.now) (drop (slot_count machine.entry.shape) pair.now)) self.old.out.now self.new.out.now self.old.at self.new.at }
        ensures near { self.new.at ≤ self.old.at + max_line }
        ensures size { length self.new.out.now ≡ length self.old.out.now }
    {
        let holds = machine.true_at(b"", property, taken.step == 0, pair);
        self.head(taken, holds);
        let shape = machine.shape;
        let n = slot_count(shape);
        self.tail(shape.variables, shape.matrices, &pair[n..]);
    }

    // The lines after the second state of `pair`: each choice acts on the pair in place.
    pub fn next(&mut self, movers: Movers, property: u64, choices: &[u8], pair: &mut [u16])
        requires { (length pair.old ≡ slot_count movers.machine.shape + slot_count movers.machine.shape)
            × (self.old.at + max_line * length choices.now ≤ length self.old.out.now) × ((i : ℕ) → i < length choices.now
            → get_or choices.now i 0 < movers.machine.shape.normals + movers.machine.shape.externals) }
        ensures same { self.new.out.ghost_name ≡ self.old.out.ghost_name }
        ensures text { (d : Design) → check movers.entry.machine.file.now ≡ accepted d
            → TextWritten (next_lines d (property_of movers.entry.machine.file.now no_piece d property) 0 (drop (slot_count movers.entry.machine.shape) pair.old) choices.now) self.old.out.now self.new.out.now self.old.at self.new.at }
        ensures near { self.new.at ≤ self.old.at + max_line * length choices.now }
        ensures size { length self.new.out.now ≡ length self.old.out.now }
    {
        for i in 0..choices.len() {
            let c = wide(choices[i]);
            let tested = movers.step_pair(c, judges_steps(property), pair);
            let taken = Taken {
                step: i + 1,
                mover: c,
                idle: tested.idle,
            };
            self.state(movers.machine, property, taken, pair);
        }
    }

    // The lines of all states, by slots that are 0.
    pub fn states(&mut self, movers: Movers, property: u64, choices: &[u8], pair: &mut [u16])
        requires { (length pair.old ≡ slot_count movers.machine.shape + slot_count movers.machine.shape)
            × (self.old.at + (max_line + max_line * length choices.now) ≤ length self.old.out.now) × ((i : ℕ) → i < length choices.now
            → get_or choices.now i 0 < movers.machine.shape.normals + movers.machine.shape.externals)
            × (pair.old ≡ replicate (slot_count movers.machine.shape + slot_count movers.machine.shape) 0) }
        ensures same { self.new.out.ghost_name ≡ self.old.out.ghost_name }
        ensures text { (d : Design) → check movers.entry.machine.file.now ≡ accepted d
            → TextWritten (state_lines d (property_of movers.entry.machine.file.now no_piece d property) choices.now) self.old.out.now self.new.out.now self.old.at self.new.at }
        ensures near { self.new.at ≤ self.old.at + (max_line + max_line * length choices.now) }
        ensures size { length self.new.out.now ≡ length self.old.out.now }
    {
        let machine = movers.machine;
        let n = slot_count(machine.shape);
        load_start(machine.file, machine.shape, &mut pair[n..]);
        let taken = Taken {
            step: 0,
            mover: 0,
            idle: false,
        };
        self.state(machine, property, taken, pair);
        self.next(movers, property, choices, pair);
    }

    // The lines of all states, for a call of REPLAY that is not refused.
    pub fn run(&mut self, file: &[u8], property: u64, choices: &[u8])
        requires { ReplayInput file.now choices.now × (self.old.at + (max_line + max_line * length choices.now) ≤ length self.old.out.now) }
        ensures same { self.new.out.ghost_name ≡ self.old.out.ghost_name }
        ensures text { (d : Design) → check file.now ≡ accepted d
            → TextWritten (state_lines d (property_of file.now no_piece d property) choices.now) self.old.out.now self.new.out.now self.old.at self.new.at }
        ensures near { self.new.at ≤ self.old.at + (max_line + max_line * length choices.now) }
        ensures size { length self.new.out.now ≡ length self.old.out.now }
    {
        let mut cells = [0u16; MAX_MOVERS];
        let normals = index_cells(file, &mut cells);
        let shape = shape(file, normals);
        let mut events = [0u16; EVENT_PLACES];
        index_events(file, &mut events);
        let mut all = [0u16; PAIR_SLOTS];
        let n = slot_count(shape);
        let end = n + n;
        let machine = Machine {
            file,
            events: &events,
            shape,
        };
        let movers = Movers {
            machine,
            cells: &cells,
        };
        self.states(movers, property, choices, &mut all[..end]);
    }

    // The lines of all states and the result, or the refusal alone.
    pub fn trace(&mut self, file: &[u8], property: u8, choices: &[u8])
        requires { self.old.at + max_text ≤ length self.old.out.now }
        ensures same { self.new.out.ghost_name ≡ self.old.out.ghost_name }
        ensures text { TextWritten (trace file.now property choices.now) self.old.out.now self.new.out.now self.old.at self.new.at }
        ensures near { self.new.at ≤ self.old.at + max_text }
    {
        match step::replay(file, b"", property as u64, choices) {
            Err(refusal) => self.refused(refusal),
            Ok(told) => {
                self.run(file, property as u64, choices);
                self.result(told.broken);
            }
        }
    }

    // All that the Replay program prints for its input.
    fn replay(&mut self, input: &[u8])
        requires { self.old.at + max_text ≤ length self.old.out.now }
        ensures same { self.new.out.ghost_name ≡ self.old.out.ghost_name }
        ensures text { TextWritten (replay_text input.now) self.old.out.now self.new.out.now self.old.at self.new.at }
        ensures near { self.new.at ≤ self.old.at + max_text }
    {
        if input.len() < 2 {
            return self.refused(Refused::Length(0));
        }
        let start = 2 + wide(input[1]);
        if input.len() < start {
            return self.refused(Refused::Length(0));
        }
        let end = design_end(input, start);
        self.trace(&input[start..end], input[0], &input[2..start]);
    }
}

// All that the Replay program prints for its input, at the front of the buffer.
pub fn put_replay(input: &[u8], out: &mut [u8]) -> usize
    requires { max_text ≤ length out.old }
    ensures { TextWritten (replay_text input.now) out.old out.new 0 result × (result ≤ max_text) }
{
    let mut text = Writer { out, at: 0 };
    text.replay(input);
    text.at
}
