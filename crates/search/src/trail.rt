// The trail: setting a variable, the lowest unset variable, undoing.
ghost use Rattle.std.specs.Prelude.{◌≡◌, ◌-◌, ◌/◌, ◌<◌, ◌≤◌, length, get_or};
ghost use Rattle.search.specs.Search.{lowest_unset};
ghost use Rattle.search.specs.Memory.{value_at, SetTo, settings_of, TrailAgrees, Settable, Assigned, Undone};

// Gives a variable its value, and the trail its word: `first` is 1 for a branch at its first value, else 0.
pub fn assign(values: &mut [u8], trail: &mut [u32], t: usize, v: usize, value: u8, first: u32)
    requires { Settable (length values.old) (length trail.old) t v × (first ≤ 1) }
    ensures { Assigned values.old trail.old t v value first values.new trail.new }
{
    values[v - 1] = value;
    trail[t] = (2 * v) as u32 + first;
}

// The variable of the latest of k settings.
pub fn latest(trail: &[u32], k: usize) -> usize
    requires { (0 < k) × (k ≤ length trail.now) }
    ensures { result ≡ get_or trail.now (k - 1) 0 / 2 }
{
    (trail[k - 1] / 2) as usize
}

// The lowest unset variable, where 1, 2, .., low are set.
pub fn lowest(values: &[u8], low: usize) -> Option<usize>
    requires { SetTo low values.now }
    ensures { result ≡ lowest_unset (value_at values.now) 1 (length values.now) }
{
    for i in low..values.len() {
        if values[i] > 1 {
            return Some(i + 1);
        }
    }
    None
}

// Back to the latest branch still at its first value, which takes true. It answers how many settings are left, or none
// where there is no such branch.
pub fn undo(values: &mut [u8], trail: &mut [u32], t: usize) -> Option<usize>
    requires { TrailAgrees (length values.old) values.old trail.old t }
    ensures { Undone (length values.old) (settings_of values.old trail.old t) result values.new trail.new }
{
    for k in (0..t).rev() {
        let e = trail[k];
        let v = (e / 2) as usize;
        if e % 2 == 1 {
            values[v - 1] = 1;
            trail[k] = e - 1;
            return Some(k + 1);
        }
        values[v - 1] = 2;
    }
    None
}
