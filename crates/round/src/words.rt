// All lanes of a block at once.
ghost use Rattle.std.specs.Prelude.{◌≡◌, ◌<◌, ◌≤◌, length, get_or};
ghost use Rattle.std.specs.Int.Bits.{bit_and, bit_or};
ghost use Rattle.lanes.specs.Lists.{list_of};
ghost use Rattle.round.specs.Inner.{narrowed, spread, lanes_with_member, lanes_with_all, lanes_that_differ};

use std::array;

// The sets of `one` and, in the lanes of `left`, those of the first eight words lent.
fn united(one: [u64; 8], left: u64, words: &[u64]) -> [u64; 8]
    requires { 8 ≤ length words.now }
    ensures { result ≡ list_of 8 (λ k. bit_or (get_or one k 0) (bit_and left (get_or words.now k 0))) }
{
    array::from_fn(|r| one[r] | (left & words[r]))
}

// The sets of both.
fn met(a: [u64; 8], b: [u64; 8]) -> [u64; 8]
    ensures { result ≡ list_of 8 (λ k. bit_and (get_or a k 0) (get_or b k 0)) }
{
    array::from_fn(|r| a[r] & b[r])
}

// `all` less what the sets of a, composed with those that `onward` was made of, lack.
pub(crate) fn narrow(all: [u64; 8], a: [u64; 8], onward: &[u64]) -> [u64; 8]
    requires { 64 ≤ length onward.now }
    ensures { result ≡ narrowed all a onward.now }
{
    let mut one = [0; 8];
    for p in 0..8 {
        // First under a name: a call's result is not laid in a local that holds an array (tried).
        let next = united(one, a[p], &onward[8 * p..]);
        one = next;
    }
    met(all, one)
}

// The set of lane k in every lane.
pub(crate) fn everywhere(w: [u64; 8], k: usize) -> [u64; 8]
    requires { k < 64 }
    ensures { result ≡ spread w k }
{
    array::from_fn(|r| ((w[r] >> k) % 2) * u64::MAX)
}

// The lanes whose set has a member.
pub(crate) fn members(w: [u64; 8]) -> u64
    ensures { result ≡ lanes_with_member w }
{
    w.iter().fold(0, |some, word| some | word)
}

// The lanes whose set is the universal one.
pub(crate) fn common(w: [u64; 8]) -> u64
    ensures { result ≡ lanes_with_all w }
{
    w.iter().fold(u64::MAX, |all, word| word & all)
}

// The lanes whose sets differ.
pub(crate) fn differing(a: [u64; 8], b: [u64; 8]) -> u64
    ensures { result ≡ lanes_that_differ a b }
{
    members(array::from_fn(|r| a[r] ^ b[r]))
}
