//! The counts of one vertex, of which only the nonzero ones are stored, each with its index.

ghost use Rattle.std.specs.Prelude.{◌≡◌, ◌==◌, ◌<◌, ◌↔◌, length, slice_index, IfNone, IfSome, IsTrue, OnOk};
ghost use Rattle.ps_certificate.specs.Sparse.{IsFirstFrom, IsFirstAbove, AreAtMost, AreBefore, AreRising, count_at};
ghost use Rattle.ps_certificate.specs.Sparse.{dense_row, IsRow};

use ps_game::NonzeroCount;
use std::alloc::AllocError;
use std::marker::Model;

/// Stored counts, by ascending index.
#[derive(Clone, Copy, Debug)]
pub(crate) struct Stored<'a> {
    pub(crate) list: &'a [NonzeroCount],
    ghost rising: { AreRising list.now },
}

impl<'a> Stored<'a> {
    /// The number of stored counts whose index is less than `place`; the search skips the first `hint` if it may.
    fn first_from(&self, hint: usize, place: usize) -> usize
        ensures { IsFirstFrom self.now.list.now place result }
    {
        let placed = self.list;
        let mut number = if self.is_before(hint, place) { hint } else { 0 };
        while number < placed.len() && placed[number].place < place {
            number += 1;
        }
        number
    }

    /// Whether there are `number` stored counts or more, of which the first `number` have indices less than `place`.
    fn is_before(&self, number: usize, place: usize) -> bool
        ensures { IsTrue result ↔ AreBefore self.now.list.now place number }
    {
        let placed = self.list;
        number == 0 || number <= placed.len() && placed[number - 1].place < place
    }

    /// The count at an index, given the number of stored counts before it.
    fn count_in(&self, place: usize, number: usize) -> u64
        requires { IsFirstFrom self.now.list.now place number }
        ensures { result ≡ count_at self.now.list.now place }
    {
        let placed = self.list;
        if number < placed.len() && placed[number].place == place {
            placed[number].count
        } else {
            0
        }
    }
}

/// The counts of an entry, one for each priority that opposes its winner.
#[derive(Debug, Drop)]
pub struct Row<'a> {
    pub(crate) width: usize,
    pub(crate) placed: Stored<'a>,
}

impl<'a> Model for Row<'a> {
    ghost use Rattle.std.specs.Prelude.{ℕ, List};
    ghost use Rattle.ps_certificate.specs.Sparse.{dense_row, IsRow};

    ghost Value = { List ℕ };

    ghost view = { λ row. dense_row row.width row.placed.list.now };

    ghost invariant = { λ row. IsRow row.width row.placed.list.now };
}

impl<'a> Row<'a> {
    /// A row of `width` counts, given the nonzero ones by ascending index.
    #[inline(always)]
    pub fn of(width: usize, nonzero: &'a [NonzeroCount]) -> Row<'a>
        requires { IsRow width nonzero.now }
        ensures { result ≡ dense_row width nonzero.now }
    {
        let placed = Stored { list: nonzero };
        Row { width, placed }
    }

    /// The number of counts, zeros included.
    pub fn len(&self) -> usize
        ensures { result ≡ length self.now }
    {
        self.width
    }

    /// Whether there are no counts.
    pub fn is_empty(&self) -> bool
        ensures { result ≡ (length self.now == 0) }
    {
        self.width == 0
    }

    /// The count at an index.
    pub fn at(&self, place: usize) -> u64
        requires { place < length self.now }
        ensures { result ≡ slice_index self.now place }
    {
        let number = self.placed.first_from(0, place);
        self.placed.count_in(place, number)
    }

    /// Replaces a list by the counts. Fails if out of memory.
    pub fn copy_into(&self, list: &mut Vec<u64>) -> Result<(), AllocError>
        ensures { OnOk result (list.new.items ≡ self.now) }
    {
        list.clear();
        for number in 0..self.placed.list.len() {
            let NonzeroCount { place, count } = self.placed.list[number];
            list.resize(place, 0)?;
            list.push(count)?;
        }
        list.resize(self.width, 0)?;
        Ok(())
    }

    /// The first index, at `from` or later, at which the count is greater than the other row's.
    pub(crate) fn first_above(&self, other: &Row<'_>, from: usize) -> Option<usize>
        requires { length other.now ≡ length self.now }
        ensures none { IfNone result (AreAtMost self.now other.now from (length self.now)) }
        ensures some { IfSome result (IsFirstAbove self.now other.now from) }
    {
        let mut number = self.placed.first_from(0, from);
        let mut others = 0;
        while number < self.placed.list.len() {
            let NonzeroCount { place, count } = self.placed.list[number];
            others = other.placed.first_from(others, place);
            if count > other.placed.count_in(place, others) {
                return Some(place);
            }
            number += 1;
        }
        None
    }
}
