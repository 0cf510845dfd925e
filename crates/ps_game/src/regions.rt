//! Sets of vertices, with one bit for each vertex.

ghost use Rattle.std.specs.Prelude.{◌≡◌, ◌<◌, ◌↔◌, ◌&&◌, ◌||◌, ℕ, IfOk, IsTrue, true, false, not, length, replicate};
ghost use Rattle.std.specs.Prelude.{count_by, slice_set};
ghost use Rattle.ps_game.specs.Regions.{has};

use crate::words::{count_set, is_clear, subtract, unite};
use std::alloc::{AllocError, Global};
use std::marker::Model;

const WORD: usize = 64;

/// A set of vertices, which are numbers less than `places`. Bit b of word w is set if vertex 64·w + b is in the set;
/// all bits from `places` on are 0.
#[derive(Drop)]
pub struct Region {
    places: usize,
    words: Vec<u64>,
}

impl Model for Region {
    ghost use Rattle.std.specs.Prelude.{List, Bool};
    ghost use Rattle.ps_game.specs.Words.{members, ArePacked};

    ghost Value = { List Bool };

    ghost view = { λ r. members r.places r.words.items };

    ghost invariant = { λ r. ArePacked r.places r.words.items };
}

impl Region {
    /// The empty set. Fails if out of memory.
    pub fn empty(alloc: Global, places: usize) -> Result<Region, AllocError>
        ensures { IfOk result (λ region. region ≡ replicate places false) }
    {
        let words = vec![in alloc; 0; places.div_ceil(WORD)]?;
        Ok(Region { places, words })
    }

    /// The set of all vertices less than `places`. Fails if out of memory.
    pub fn full(alloc: Global, places: usize) -> Result<Region, AllocError>
        ensures { IfOk result (λ region. region ≡ replicate places true) }
    {
        let mut words = vec![in alloc; u64::MAX; places.div_ceil(WORD)]?;
        let rest = places % WORD;
        if rest > 0 {
            words[places / WORD] = u64::MAX >> (WORD - rest);
        }
        Ok(Region { places, words })
    }

    /// The set can contain the vertices less than this number.
    pub fn places(&self) -> usize
        ensures { result ≡ length self.now }
    {
        self.places
    }

    /// Whether a vertex is in the set.
    pub fn contains(&self, vertex: usize) -> bool
        requires { vertex < length self.now }
        ensures { result ≡ has self.now vertex }
    {
        (self.words[vertex / WORD] >> (vertex % WORD)) & 1 == 1
    }

    /// Inserts a vertex.
    pub fn insert(&mut self, vertex: usize)
        requires { vertex < length self.old }
        ensures { self.new ≡ slice_set self.old vertex true }
    {
        self.words[vertex / WORD] |= 1 << (vertex % WORD);
    }

    /// Removes a vertex.
    pub fn remove(&mut self, vertex: usize)
        requires { vertex < length self.old }
        ensures { self.new ≡ slice_set self.old vertex false }
    {
        self.words[vertex / WORD] &= !(1 << (vertex % WORD));
    }

    /// Inserts all vertices of another set.
    pub fn union_with(&mut self, other: &Region)
        requires { length other.now ≡ length self.old }
        ensures places { length self.new ≡ length self.old }
        ensures union { (v : ℕ) → has self.new v ≡ (has self.old v || has other.now v) }
    {
        unite(&mut self.words, &other.words);
    }

    /// Removes all vertices of another set.
    pub fn difference_with(&mut self, other: &Region)
        requires { length other.now ≡ length self.old }
        ensures places { length self.new ≡ length self.old }
        ensures difference { (v : ℕ) → has self.new v ≡ (has self.old v && not (has other.now v)) }
    {
        subtract(&mut self.words, &other.words);
    }

    /// The number of vertices in the set.
    pub fn count(&self) -> usize
        ensures { result ≡ count_by (λ member. member) self.now }
    {
        let words = self.words.as_slice();
        count_set(words)
    }

    /// Whether the set is empty.
    pub fn is_empty(&self) -> bool
        ensures { IsTrue result ↔ ((v : ℕ) → has self.now v ≡ false) }
    {
        is_clear(&self.words)
    }

    /// A copy of the set. Fails if out of memory.
    pub fn copy(&self) -> Result<Region, AllocError>
        ensures { IfOk result (λ region. region ≡ self.now) }
    {
        let words = self.words.clone()?;
        Ok(Region {
            places: self.places,
            words,
        })
    }
}
