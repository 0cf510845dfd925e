//! Lists of numbers, most of which are 0.

ghost use Rattle.std.specs.Prelude.{◌≡◌, ℕ, ◌+◌, ◌<◌, ◌≤◌, ◌↔◌, IsTrue, length, take, replicate, slice_index};

/// The number of leading zeros, capped at `most`.
pub(crate) fn leading_zeros(numbers: &[u64], most: usize) -> usize
    ensures within { result ≤ length numbers.now }
    ensures few { result ≤ most }
    ensures zeros { take result numbers.now ≡ replicate result 0 }
{
    let end = numbers.len().min(most);
    let mut zeros = zero_blocks(numbers, end);
    while zeros < end && numbers[zeros] == 0 {
        zeros += 1;
    }
    zeros
}

/// The number of leading zeros of the first `end` numbers, rounded down to a multiple of eight.
fn zero_blocks(numbers: &[u64], end: usize) -> usize
    requires { end ≤ length numbers.now }
    ensures within { result ≤ end }
    ensures zeros { (k : ℕ) → k < result → slice_index numbers.now k ≡ 0 }
{
    let mut zeros = 0;
    while end - zeros >= 8 && are_zero(numbers, zeros) {
        zeros += 8;
    }
    zeros
}

fn are_zero(numbers: &[u64], place: usize) -> bool
    requires { place + 8 ≤ length numbers.now }
    ensures { IsTrue result ↔ ((k : ℕ) → k < 8 → slice_index numbers.now (place + k) ≡ 0) }
{
    (numbers[place] == 0)
        & (numbers[place + 1] == 0)
        & (numbers[place + 2] == 0)
        & (numbers[place + 3] == 0)
        & (numbers[place + 4] == 0)
        & (numbers[place + 5] == 0)
        & (numbers[place + 6] == 0)
        & (numbers[place + 7] == 0)
}
