//! The infinite word of a circuit's trace.

ghost use Rattle.std.specs.Prelude.{◌≡◌, ◌≤◌, length, take, drop};

use std::marker::Model;

/// The letters of a trace on a lasso; bit p of a letter is proposition p.
#[derive(Debug, Drop)]
pub struct TraceWord {
    letters: Vec<u64>,
    start: usize,
}

impl Model for TraceWord {
    ghost use Rattle.std.specs.Prelude.{◌≤◌, length, take, drop};
    ghost use Rattle.ps_simulate.specs.Words.{TraceWordData};

    ghost Value = { TraceWordData };

    ghost view = { λ w. record { stem = take w.start w.letters.items; lap = drop w.start w.letters.items } };

    ghost invariant = { λ w. w.start ≤ length w.letters.items };
}

impl TraceWord {
    /// The word whose lap begins at `start`.
    pub(crate) fn new(letters: Vec<u64>, start: usize) -> Self
        requires { start ≤ length letters.items }
        ensures stem { result.stem ≡ take start letters.items }
        ensures lap { result.lap ≡ drop start letters.items }
    {
        TraceWord { letters, start }
    }

    /// The letters of the stem.
    pub fn stem(&self) -> &[u64]
        ensures { result.now ≡ self.now.stem }
    {
        &self.letters[..self.start]
    }

    /// Those of the lap.
    pub fn lap(&self) -> &[u64]
        ensures { result.now ≡ self.now.lap }
    {
        &self.letters[self.start..]
    }
}
