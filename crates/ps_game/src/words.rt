//! Bit operations on lists of 64-bit words, eight at a time by SIMD.

ghost use Rattle.std.specs.Prelude.{◌≡◌, ◌↔◌, ℕ, ◌<◌, ◌^◌, IsTrue, length, slice_index};
ghost use Rattle.std.specs.Prelude.{bit_and, bit_or, count_ones};
ghost use Rattle.std.specs.Int.{bit_not, w64};
ghost use Rattle.std.specs.List.{sum_by};

use std::simd::prelude::*;

/// The number of words processed at a time.
const LANES: usize = 8;

pub(crate) fn unite(words: &mut [u64], others: &[u64])
    requires { length others.now ≡ length words.old }
    ensures { (k : ℕ) → slice_index words.new k ≡ bit_or (slice_index words.old k) (slice_index others.now k) }
{
    let groups = words.len() / LANES;
    for group in 0..groups {
        let start = group * LANES;
        let united = u64x8::from_slice(&words[start..]) | u64x8::from_slice(&others[start..]);
        united.copy_to_slice(&mut words[start..]);
    }
    for place in groups * LANES..words.len() {
        words[place] |= others[place];
    }
}

pub(crate) fn subtract(words: &mut [u64], others: &[u64])
    requires { length others.now ≡ length words.old }
    ensures in_range { (k : ℕ) → slice_index others.now k < 2 ^ 64 }
    ensures subtracted { (k : ℕ) → slice_index words.new k ≡ bit_and (slice_index words.old k)
        (bit_not w64 (slice_index others.now k)) }
{
    let groups = words.len() / LANES;
    for group in 0..groups {
        let start = group * LANES;
        let left = u64x8::from_slice(&words[start..]) & !u64x8::from_slice(&others[start..]);
        left.copy_to_slice(&mut words[start..]);
    }
    for place in groups * LANES..words.len() {
        words[place] &= !others[place];
    }
}

pub(crate) fn count_set(words: &[u64]) -> usize
    requires { sum_by count_ones words.now < 2 ^ 64 }
    ensures in_range { (k : ℕ) → slice_index words.now k < 2 ^ 64 }
    ensures counted { result ≡ sum_by count_ones words.now }
{
    let groups = words.len() / LANES;
    let mut count = 0;
    for group in 0..groups {
        let ones = u64x8::from_slice(&words[group * LANES..]).count_ones();
        count += ones.strict_reduce_sum() as usize;
    }
    for place in groups * LANES..words.len() {
        count += words[place].count_ones() as usize;
    }
    count
}

pub(crate) fn is_clear(words: &[u64]) -> bool
    ensures in_range { (k : ℕ) → slice_index words.now k < 2 ^ 64 }
    ensures clear { IsTrue result ↔ ((k : ℕ) → slice_index words.now k ≡ 0) }
{
    let groups = words.len() / LANES;
    for group in 0..groups {
        if u64x8::from_slice(&words[group * LANES..]).reduce_or() != 0 {
            return false;
        }
    }
    for place in groups * LANES..words.len() {
        if words[place] != 0 {
            return false;
        }
    }
    true
}
