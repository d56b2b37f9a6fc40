// Bytes and two-byte numbers of a file.
ghost use Rattle.std.specs.Prelude.{◌≡◌, ◌+◌, ◌<◌, length};
ghost use Rattle.design.specs.DesignFile.{at16};

// A byte as a number that indexes.
pub fn wide(x: u8) -> usize
    ensures { (result ≡ x) × (result < 256) }
{
    x as usize
}

// The two-byte number at `at`.
pub fn word(file: &[u8], at: usize) -> usize
    requires { at + 1 < length file.now }
    ensures { (result ≡ at16 file.now at) × (result < 65536) }
{
    wide(file[at]) + 256 * wide(file[at + 1])
}
