// The code of a call.
ghost use Rattle.std.specs.Prelude.{◌≡◌};
ghost use Rattle.design.specs.Refusal.{number_of, place_of, turned};
ghost use Rattle.entries.specs.Code.{code, code_of};

use design::refusal::Refused;

const MOST_PLACE: usize = 72057594037927935;

pub fn code_of(refusal: Refused) -> u64
    ensures { result ≡ code (number_of refusal) (place_of refusal) }
{
    let number = refusal.number();
    let place = refusal.place().min(MOST_PLACE);
    (number as u64) + 256 * (place as u64)
}

// Of a call that answers nothing else.
pub fn code_alone(reply: Result<(), Refused>) -> u64
    ensures { result ≡ code_of (turned reply) }
{
    match reply {
        Ok(()) => 0,
        Err(r) => code_of(r),
    }
}
