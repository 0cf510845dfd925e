//! Ascending lists of numbers.

ghost use Rattle.std.specs.Prelude.{◌≡◌, ℕ, ◌+◌, ◌<◌, ◌≤◌, ◌↔◌, IsTrue, IfNone, IfSome, length, slice_index};
ghost use Rattle.std.specs.List.{Contains};
ghost use Rattle.std.specs.List.Sorted.{IsStrictlyIncreasing};
ghost use Rattle.ps_certificate.specs.Inner.Prefixes.{IsAt};

pub(crate) fn is_rising(list: &[u64]) -> bool
    ensures { IsTrue result ↔ IsStrictlyIncreasing list.now }
{
    let mut place = 1;
    while place < list.len() {
        if list[place] <= list[place - 1] {
            return false;
        }
        place += 1;
    }
    true
}

#[derive(Clone, Copy)]
pub(crate) struct Rising<'a> {
    pub(crate) list: &'a [u64],
    ghost rises: { IsStrictlyIncreasing list.now },
}

impl<'a> Rising<'a> {
    /// The index of a number, or `None` if the list doesn't have it.
    pub(crate) fn place_of(self, number: u64) -> Option<usize>
        ensures none { IfNone result (¬ Contains self.entry.list.now number) }
        ensures some { IfSome result (IsAt self.entry.list.now number) }
    {
        let likely = self.likely_place(number);
        if likely < self.list.len() && self.list[likely] == number {
            return Some(likely);
        }
        match self.list.binary_search(&number) {
            Ok(place) => Some(place),
            Err(_) => None,
        }
    }

    /// The index of the first number that is at least `number`.
    pub(crate) fn first_at_least(self, number: u64) -> usize
        ensures within { result ≤ length self.entry.list.now }
        ensures before { (k : ℕ) → k < result → slice_index self.entry.list.now k < number }
        ensures behind { (k : ℕ) → result ≤ k → k < length self.entry.list.now →
            number ≤ slice_index self.entry.list.now k }
    {
        let likely = self.likely_place(number);
        if likely <= self.list.len()
            && self.are_less_before(number, likely)
            && self.are_not_less_from(number, likely)
        {
            return likely;
        }
        match self.list.binary_search(&number) {
            Ok(place) => place,
            Err(place) => place,
        }
    }

    /// The same, if the list counts up by two, as most lists of priorities of one parity do.
    fn likely_place(self, number: u64) -> usize {
        match self.list {
            [first, ..] => number.saturating_sub(*first).div_ceil(2) as usize,
            [] => 0,
        }
    }

    fn are_less_before(self, number: u64, place: usize) -> bool
        requires { place ≤ length self.list.now }
        ensures { IsTrue result ↔ ((k : ℕ) → k < place → slice_index self.entry.list.now k < number) }
    {
        if place == 0 {
            return true;
        }
        self.list[place - 1] < number
    }

    fn are_not_less_from(self, number: u64, place: usize) -> bool
        requires { place ≤ length self.list.now }
        ensures { IsTrue result ↔ ((k : ℕ) → place ≤ k → k < length self.entry.list.now →
            number ≤ slice_index self.entry.list.now k) }
    {
        if place == self.list.len() {
            return true;
        }
        number <= self.list[place]
    }
}
