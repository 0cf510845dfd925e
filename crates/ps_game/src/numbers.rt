//! Lists of numbers that take 4 or 8 bytes each.

ghost use Rattle.std.specs.Prelude.{◌≡◌, ◌<◌, ◌≤◌, ◌∷◌, [], ◌++◌, IfOk, OnOk, OnErr, length, map, replicate, take};
ghost use Rattle.std.specs.Prelude.{slice_index, slice_range, slice_set};
ghost use Rattle.std.specs.List.{All};

use crate::widths::Width;
use std::alloc::{AllocError, Global};
use std::marker::Model;

/// A list of numbers that are stored as integers of the type `W`.
#[derive(Drop)]
pub struct Numbers<W: Width> {
    items: Vec<W>,
}

impl<W: Width> Model for Numbers<W> {
    ghost use Rattle.std.specs.Prelude.{List, ℕ, map};

    ghost Value = { List ℕ };

    ghost view = { λ n. map W.value n.items.items };
}

impl<W: Width> Numbers<W> {
    /// A number, `count` times. Fails if out of memory.
    pub fn filled(alloc: Global, number: usize, count: usize) -> Result<Numbers<W>, AllocError>
        requires { number ≤ W.LIMIT }
        ensures { IfOk result (λ numbers. numbers ≡ replicate count number) }
    {
        let items = vec![in alloc; W::of(number); count]?;
        Ok(Numbers { items })
    }

    /// An empty list with room for `count` numbers. Fails if out of memory.
    pub fn with_capacity(alloc: Global, count: usize) -> Result<Numbers<W>, AllocError>
        ensures { IfOk result (λ numbers. numbers ≡ []) }
    {
        let items = Vec::with_capacity(alloc, count)?;
        Ok(Numbers { items })
    }

    pub(crate) fn of(items: Vec<W>) -> Numbers<W>
        ensures { result ≡ map W.value items.items }
    {
        Numbers { items }
    }

    /// The same numbers, stored as integers of the type `V`.
    pub(crate) fn in_width<V: Width>(&self, alloc: Global) -> Result<Numbers<V>, AllocError>
        requires { All (λ number. number ≤ V.LIMIT) self.now }
        ensures { IfOk result (λ numbers. numbers ≡ self.now) }
    {
        let mut items = Vec::with_capacity(alloc, self.items.len())?;
        for item in &self.items {
            items.push_reserved(V::of(item.number()));
        }
        Ok(Numbers { items })
    }

    /// The number of entries.
    pub fn len(&self) -> usize
        ensures { result ≡ length self.now }
    {
        self.items.len()
    }

    /// The number at an index.
    pub fn at(&self, place: usize) -> usize
        requires { place < length self.now }
        ensures { result ≡ slice_index self.now place }
    {
        self.items[place].number()
    }

    /// The stored integers from index `start` up to `end`, which is excluded.
    pub fn part(&self, start: usize, end: usize) -> &[W]
        requires order { start ≤ end }
        requires within { end ≤ length self.now }
        ensures { map W.value result.now ≡ slice_range self.now start end }
    {
        &self.items[start..end]
    }

    /// Writes a number at an index.
    pub fn set(&mut self, place: usize, number: usize)
        requires place { place < length self.old }
        requires fits { number ≤ W.LIMIT }
        ensures { self.new ≡ slice_set self.old place number }
    {
        self.items[place] = W::of(number);
    }

    /// Appends a number. Fails if out of memory; then nothing changes.
    pub fn push(&mut self, number: usize) -> Result<(), AllocError>
        requires { number ≤ W.LIMIT }
        ensures ok { OnOk result (self.new ≡ self.old ++ number ∷ []) }
        ensures err { OnErr result (self.new ≡ self.old) }
    {
        self.items.push(W::of(number))?;
        Ok(())
    }

    /// Keeps the first `count` numbers.
    pub fn truncate(&mut self, count: usize)
        ensures { self.new ≡ take count self.old }
    {
        self.items.truncate(count);
    }
}
