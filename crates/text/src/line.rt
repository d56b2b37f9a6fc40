// Lines of the Replay program.
ghost use Rattle.std.specs.Prelude.{◌≡◌, map, ◌+◌, ◌*◌, ◌≤◌, pos, length, take, drop};
ghost use Rattle.step.specs.Pattern.{signed};
ghost use Rattle.text.specs.Text.{TextWritten};
ghost use Rattle.text.specs.Line.{spaced, mover_text, flag_text, head, slots_text};

use super::writer::Writer;

// The step by which a line's state was reached: its number, the mover that it chose, and whether that was idle.
#[derive(Clone, Copy)]
pub struct Taken {
    pub step: usize,
    pub mover: usize,
    pub idle: bool,
}

impl<'a> Writer<'a> {
    // The values of the first n slots, each with a space before it.
    pub(crate) fn values(&mut self, n: usize, slots: &[u16])
        requires { (n ≤ length slots.now) × (self.old.at + 22 * n ≤ length self.old.out.now) }
        ensures same { self.new.out.ghost_name ≡ self.old.out.ghost_name }
        ensures text { TextWritten (spaced (take n (map signed slots.now))) self.old.out.now self.new.out.now self.old.at self.new.at }
        ensures near { self.new.at ≤ self.old.at + 22 * n }
    {
        for i in 0..n {
            self.byte(b' ');
            self.pattern(slots[i]);
        }
    }

    // The statuses, which are the k slots from n on, likewise.
    pub(crate) fn statuses(&mut self, n: usize, k: usize, slots: &[u16])
        requires { (n + k ≤ length slots.now) × (self.old.at + 22 * k ≤ length self.old.out.now) }
        ensures same { self.new.out.ghost_name ≡ self.old.out.ghost_name }
        ensures text { TextWritten (spaced (map pos (take k (drop n slots.now)))) self.old.out.now self.new.out.now self.old.at self.new.at }
        ensures near { self.new.at ≤ self.old.at + 22 * k }
    {
        for i in 0..k {
            self.byte(b' ');
            self.decimal(slots[n + i] as usize);
        }
    }

    // The mover of a step, or - at step 0.
    fn mover(&mut self, step: usize, mover: usize)
        requires { self.old.at + 20 ≤ length self.old.out.now }
        ensures same { self.new.out.ghost_name ≡ self.old.out.ghost_name }
        ensures text { TextWritten (mover_text step mover) self.old.out.now self.new.out.now self.old.at self.new.at }
        ensures near { self.new.at ≤ self.old.at + 20 }
    {
        if step == 0 {
            self.byte(b'-');
        } else {
            self.decimal(mover);
        }
    }

    // A space and 1 or 0.
    fn flag(&mut self, flag: bool)
        requires { self.old.at + 2 ≤ length self.old.out.now }
        ensures same { self.new.out.ghost_name ≡ self.old.out.ghost_name }
        ensures text { TextWritten (flag_text flag) self.old.out.now self.new.out.now self.old.at self.new.at }
        ensures near { self.new.at ≤ self.old.at + 2 }
    {
        self.byte(b' ');
        if flag {
            self.byte(b'1');
        } else {
            self.byte(b'0');
        }
    }

    // Step, mover, idle, property holds: the first fields of a line.
    pub(crate) fn head(&mut self, taken: Taken, holds: bool)
        requires { self.old.at + 45 ≤ length self.old.out.now }
        ensures same { self.new.out.ghost_name ≡ self.old.out.ghost_name }
        ensures text { TextWritten (head taken.step taken.mover taken.idle holds) self.old.out.now self.new.out.now self.old.at self.new.at }
        ensures near { self.new.at ≤ self.old.at + 45 }
    {
        self.decimal(taken.step);
        self.byte(b' ');
        self.mover(taken.step, taken.mover);
        self.flag(taken.idle);
        self.flag(holds);
    }

    // The other fields: the first n slots are variables, the k slots after them statuses.
    pub(crate) fn tail(&mut self, n: usize, k: usize, slots: &[u16])
        requires { (self.old.at + 22 * n + 22 * k + 3 ≤ length self.old.out.now) × (n + k ≤ length slots.now) }
        ensures same { self.new.out.ghost_name ≡ self.old.out.ghost_name }
        ensures text { TextWritten (slots_text n k slots.now) self.old.out.now self.new.out.now self.old.at self.new.at }
        ensures near { self.new.at ≤ self.old.at + 22 * n + 22 * k + 3 }
    {
        self.values(n, slots);
        self.byte(b' ');
        self.byte(b'|');
        self.statuses(n, k, slots);
        self.byte(b'\n');
    }
}
