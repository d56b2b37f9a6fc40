// CHECK.
ghost use Rattle.std.specs.Prelude.{◌≡◌};
ghost use Rattle.design.specs.Check.{check, refusal};
ghost use Rattle.entries.specs.Code.{code_of};

use super::code::code_alone;

#[unsafe(no_mangle)]
pub extern "C" fn stm_check(file: &[u8]) -> u64
    ensures { result ≡ code_of (refusal (check file.now)) }
{
    code_alone(design::check(file))
}
