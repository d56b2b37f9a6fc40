// The limits of the calls with a property and a bound, as specs/Limits.antt has them.
ghost use Rattle.std.specs.Prelude.{◌≡◌, ◌≤◌, length};
ghost use Rattle.design.specs.Limits.{trailer_bytes};
ghost use Rattle.step.specs.Limits.{last_property};

use design::index::has_constraint;

pub const LAST_STATE_PROPERTY: u64 = 1;

// Property 2 is there where the file has a constraint.
pub const CONSTRAINT: u64 = 2;

pub const MAX_BOUND: u64 = 100;

// The greatest property of a file, for calls other than HOLDS.
pub fn last_property(file: &[u8]) -> u64
    requires { trailer_bytes ≤ length file.now }
    ensures { result ≡ last_property file.now }
{
    if has_constraint(file) {
        CONSTRAINT
    } else {
        LAST_STATE_PROPERTY
    }
}
