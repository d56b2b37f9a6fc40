// Integers as 16-bit patterns.
ghost use Rattle.std.specs.Prelude.{◌≡◌, not, is_some, ◌+ℤ◌, ◌-ℤ◌, ◌*ℤ◌};
ghost use Rattle.step.specs.Pattern.{plus, minus, times, below, signed, wrap, outside};

// The sum of two 16-bit patterns, wrapped.
pub fn plus16(a: u16, b: u16) -> u16
    ensures { result ≡ plus a b }
{
    a.wrapping_add(b)
}

// Their difference, wrapped.
pub fn minus16(a: u16, b: u16) -> u16
    ensures { result ≡ minus a b }
{
    a.wrapping_sub(b)
}

// Their product, wrapped.
pub fn times16(a: u16, b: u16) -> u16
    ensures { result ≡ times a b }
{
    a.wrapping_mul(b)
}

// Whether a is below b as a signed number.
pub fn below16(a: u16, b: u16) -> bool
    ensures { result ≡ below a b }
{
    integer(a) < integer(b)
}

// The pattern of a signed number.
pub fn pattern(x: i16) -> u16
    ensures { result ≡ wrap x }
{
    x.cast_unsigned()
}

// The signed number that a pattern stands for.
pub fn integer(p: u16) -> i16
    ensures { result ≡ signed p }
{
    p.cast_signed()
}

// Whether an exact value is outside what 16 bits hold: a checked operation has none to answer then.
fn is_outside(exact: Option<i16>) -> bool
    ensures { result ≡ not (is_some exact) }
{
    exact.is_none()
}

// Whether the sum of two patterns passes the end.
pub fn sum_passes(a: u16, b: u16) -> bool
    ensures { result ≡ outside (signed a +ℤ signed b) }
{
    is_outside(integer(a).checked_add(integer(b)))
}

// Whether their difference does.
pub fn difference_passes(a: u16, b: u16) -> bool
    ensures { result ≡ outside (signed a -ℤ signed b) }
{
    is_outside(integer(a).checked_sub(integer(b)))
}

// Whether their product does.
pub fn product_passes(a: u16, b: u16) -> bool
    ensures { result ≡ outside (signed a *ℤ signed b) }
{
    is_outside(integer(a).checked_mul(integer(b)))
}
