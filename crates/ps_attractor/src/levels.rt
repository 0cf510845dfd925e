//! The levels of vertices.

ghost use Rattle.std.specs.Prelude.{◌≡◌, ◌<◌, ◌≤◌, IfOk, length, replicate, slice_index, slice_set};
ghost use Rattle.ps_attractor.specs.Levels.{IsLevel};

use ps_game::{Numbers, Width};
use std::alloc::{AllocError, Global};
use std::marker::Model;

/// A level for each vertex. The largest number of the type `W` represents the level `usize::MAX`.
#[derive(Drop)]
pub struct Levels<W: Width> {
    numbers: Numbers<W>,
}

impl<W: Width> Model for Levels<W> {
    ghost use Rattle.std.specs.Prelude.{List, ℕ, map};
    ghost use Rattle.ps_attractor.specs.Levels.{level_in};

    ghost Value = { List ℕ };

    ghost view = { λ l. map (level_in W.LIMIT) l.numbers };
}

impl<W: Width> Levels<W> {
    /// The same level for `count` vertices.
    pub fn filled(alloc: Global, level: usize, count: usize) -> Result<Levels<W>, AllocError>
        requires { IsLevel W.LIMIT level }
        ensures { IfOk result (λ levels. levels ≡ replicate count level) }
    {
        let numbers = Numbers::filled(alloc, level.min(W::LIMIT), count)?;
        Ok(Levels { numbers })
    }

    /// The level of a vertex.
    pub fn at(&self, vertex: usize) -> usize
        requires { vertex < length self.now }
        ensures { result ≡ slice_index self.now vertex }
    {
        let number = self.numbers.at(vertex);
        if number == W::LIMIT {
            usize::MAX
        } else {
            number
        }
    }

    /// Sets the level of a vertex.
    pub fn set(&mut self, vertex: usize, level: usize)
        requires vertex { vertex < length self.old }
        requires fits { IsLevel W.LIMIT level }
        ensures { self.new ≡ slice_set self.old vertex level }
    {
        self.numbers.set(vertex, level.min(W::LIMIT));
    }
}
