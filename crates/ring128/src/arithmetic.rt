// The operations of the ring of numbers modulo 2^128.

ghost use Rattle.std.specs.Prelude.{◌≡◌};
ghost use Rattle.ring128.specs.Ring.{plus, minus, times, negative};

/// The sum modulo 2^128.
#[inline]
pub fn add(a: u128, b: u128) -> u128
    ensures { result ≡ plus a b }
{
    a.wrapping_add(b)
}

/// The difference modulo 2^128.
#[inline]
pub fn sub(a: u128, b: u128) -> u128
    ensures { result ≡ minus a b }
{
    a.wrapping_sub(b)
}

/// The product modulo 2^128.
#[inline]
pub fn mul(a: u128, b: u128) -> u128
    ensures { result ≡ times a b }
{
    a.wrapping_mul(b)
}

/// The negative modulo 2^128: what gives 0 when it is added to the number.
#[inline]
pub fn neg(a: u128) -> u128
    ensures { result ≡ negative a }
{
    a.wrapping_neg()
}
