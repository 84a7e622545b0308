// The operations of the ring on lists, place by place.

ghost use Rattle.std.specs.Prelude.{◌≡◌, length};
ghost use Rattle.ring128.specs.Ring.{dot_of, sums, scaled};

use crate::arithmetic::{add, mul};

/// The dot product of two lists of one length: the sum of the products, place by place. It is 0 for
/// empty lists.
pub fn dot(a: &[u128], b: &[u128]) -> u128
    requires { length a.now ≡ length b.now }
    ensures { result ≡ dot_of a.now b.now }
{
    let mut total = 0;
    for (i, x) in a.iter().enumerate() {
        total = add(total, mul(*x, b[i]));
    }
    total
}

/// Adds a list of the same length to another one, place by place.
pub fn add_into(to: &mut [u128], other: &[u128])
    requires { length to.old ≡ length other.now }
    ensures { to.new ≡ sums to.old other.now }
{
    for (i, y) in other.iter().enumerate() {
        to[i] = add(to[i], *y);
    }
}

/// Multiplies each place of a list by one factor.
pub fn scale_into(to: &mut [u128], by: u128)
    ensures { to.new ≡ scaled by to.old }
{
    for x in to.iter_mut() {
        *x = mul(*x, by);
    }
}
