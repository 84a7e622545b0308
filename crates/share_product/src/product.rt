ghost use Rattle.std.specs.Prelude.{◌≡◌, ◌<◌, ◌+◌, ◌^◌, IfOk, length, slice_index, vec_len, vec_capacity};
ghost use Rattle.list_facts.specs.Listed.{listed};
ghost use Rattle.share_product.specs.Product.{local_of, locals_of, local_rows_of, inner_of};

use replicated_share::{Pair, PairList};
use ring128::{Memory, Words, add, mul};
use std::alloc::Global;
use zero_share::ZeroSeeds;

/// A server's part of the product of two numbers.
pub fn local(a: Pair, b: Pair) -> u128
    ensures { result ≡ local_of a.first a.second b.first b.second }
{
    let near = mul(a.first, add(b.first, b.second));
    add(near, mul(a.second, b.first))
}

/// A server's parts of the products of two lists, place by place, each with the part of zero at `start` plus its
/// place. The result is as long as the two lists. The only error is out of memory.
pub fn local_rows(
    alloc: Global,
    a: &PairList,
    b: &PairList,
    zero: &ZeroSeeds,
    start: u64,
) -> Result<Words, Memory>
    requires lengths { length a.now.first ≡ length b.now.first }
    requires counters { start + length a.now.first < 2 ^ 64 }
    ensures { IfOk result (λ w. w ≡
        local_rows_of a.now.first a.now.second b.now.first b.now.second zero.now.own zero.now.next start) }
{
    let mut rows = locals(alloc, a, b)?.into_vec();
    zero.add_parts(start, &mut rows);
    Ok(Words::from_vec(rows))
}

/// A server's parts of the products of two lists, place by place, without parts of zero: whoever sends them on adds those first. The
/// result is as long as the two lists. The only error is out of memory.
pub fn locals(alloc: Global, a: &PairList, b: &PairList) -> Result<Words, Memory>
    requires { length a.now.first ≡ length b.now.first }
    ensures { IfOk result (λ w. w ≡ locals_of a.now.first a.now.second b.now.first b.now.second) }
{
    let (a_first, a_second) = (a.first.as_slice(), a.second.as_slice());
    let (b_first, b_second) = (b.first.as_slice(), b.second.as_slice());
    let mut rows = Vec::with_capacity(alloc, a_first.len())?;
    for i in 0..a_first.len() {
        let left = Pair {
            first: a_first[i],
            second: a_second[i],
        };
        let right = Pair {
            first: b_first[i],
            second: b_second[i],
        };
        rows.push_reserved(local(left, right));
    }
    Ok(Words::from_vec(rows))
}

/// A server's part of the dot product of two lists: the sum of its parts of the products.
pub fn inner(a: &PairList, b: &PairList) -> u128
    requires { length a.now.first ≡ length b.now.first }
    ensures { result ≡ inner_of a.now.first a.now.second b.now.first b.now.second }
{
    let (a_first, a_second) = (a.first.as_slice(), a.second.as_slice());
    inner_lent(a_first, a_second, b.first.as_slice(), b.second.as_slice())
}

/// The same of two lists that are lent, each as its firsts and its seconds. All four have one length.
pub fn inner_lent(a_first: &[u128], a_second: &[u128], b_first: &[u128], b_second: &[u128]) -> u128
    requires a { length a_second.now ≡ length a_first.now }
    requires b_first { length b_first.now ≡ length a_first.now }
    requires b_second { length b_second.now ≡ length a_first.now }
    ensures { result ≡ inner_of a_first.now a_second.now b_first.now b_second.now }
{
    let mut sum = 0;
    for (i, first) in a_first.iter().enumerate() {
        let near = mul(*first, add(b_first[i], b_second[i]));
        sum = add(sum, add(near, mul(a_second[i], b_first[i])));
    }
    sum
}

/// What a server holds after it sent its part of each number to the server before and got the next server's.
pub fn accept_reshare(own: Words, got: Words) -> PairList
    requires { length own ≡ length got }
    ensures first { result.first ≡ own }
    ensures second { result.second ≡ got }
{
    PairList {
        first: own,
        second: got,
    }
}
