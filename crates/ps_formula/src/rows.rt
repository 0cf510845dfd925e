//! Truths along a lasso, one bit for each formula and letter.

ghost use Rattle.std.specs.Prelude.{◌≡◌, ◌+◌, ◌*◌, ◌^◌, ◌<◌, ◌≤◌, IfOk, length};

use std::alloc::{AllocError, Global};

const WORD: usize = 64;

/// A row for each formula, with its truth at each index of a lasso: in row r, that at the index `at` is the bit with
/// the number `r * width + at`; bit b of word w has the number `64 * w + b`.
#[derive(Drop)]
pub(crate) struct Rows {
    pub count: usize,
    /// The length of the stem.
    pub stem: usize,
    /// The length of stem and lap.
    pub width: usize,
    words: Vec<u64>,
    ghost some: { stem < width },
    ghost fits: { count * width < 2 ^ 64 },
    ghost room: { count * width ≤ 64 * length words.items },
}

impl Rows {
    ghost use Rattle.ps_formula.specs.Inner.Rows.{SetsTruth, truth_in};

    /// Rows for `count` formulas.
    pub fn new(alloc: Global, count: usize, stem: usize, width: usize) -> Result<Self, AllocError>
        requires { stem < width }
        ensures count { IfOk result (λ rows. rows.count ≡ count) }
        ensures stem { IfOk result (λ rows. rows.stem ≡ stem) }
        ensures width { IfOk result (λ rows. rows.width ≡ width) }
    {
        let bits = count.checked_mul(width).ok_or(AllocError)?;
        let words = vec![in alloc; 0; bits.div_ceil(WORD)]?;
        Ok(Rows {
            count,
            stem,
            width,
            words,
        })
    }

    /// The truth of a formula at an index.
    pub fn get(&self, row: u32, at: usize) -> bool
        requires row { row < self.now.count }
        requires at { at < self.now.width }
        ensures { result ≡ truth_in self.now row at }
    {
        let place = row as usize * self.width + at;
        self.words[place / WORD] >> (place % WORD) & 1 == 1
    }

    /// The next index: after the end of the lap comes its start.
    pub fn index_after(&self, at: usize) -> usize
        requires { at < self.now.width }
        ensures within { result < self.now.width }
        ensures next { at + 1 < self.now.width → result ≡ at + 1 }
        ensures wraps { at + 1 ≡ self.now.width → result ≡ self.now.stem }
    {
        let width = self.width;
        if at + 1 < width { at + 1 } else { self.stem }
    }

    pub fn set(&mut self, row: usize, at: usize, truth: bool)
        requires row { row < self.old.count }
        requires at { at < self.old.width }
        ensures { SetsTruth self.old row at truth self.new }
    {
        let place = row * self.width + at;
        let bit = 1 << (place % WORD);
        if truth {
            self.words[place / WORD] |= bit;
        } else {
            self.words[place / WORD] &= !bit;
        }
    }
}
