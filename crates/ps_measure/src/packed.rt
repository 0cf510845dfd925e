//! Lists of values whose numbers take 4 bytes each as long as all of them fit.

ghost use Rattle.std.specs.Prelude.{◌≡◌, ◌<◌, ◌∷◌, [], ◌++◌, IfSome, IfOk, OnOk, OnErr, length, replicate};
ghost use Rattle.std.specs.Prelude.{slice_index_or, slice_set};

use std::alloc::{AllocError, Global};
use std::fmt::Debug;
use std::marker::Model;

/// A value that takes less memory if each of its numbers fits in 4 bytes.
pub trait Packable: Copy + Debug {
    /// The same with 4 bytes for each number.
    type Narrow: Copy + Debug;

    /// In clauses, the value with the same numbers.
    ghost value: { Self.Narrow → Self };

    /// In clauses, the value past the end of a list, of zeros.
    ghost zero: { Self };

    /// The value in 4 bytes for each number, if all fit.
    fn narrowed(self) -> Option<Self::Narrow>
        ensures { IfSome result (λ narrow. value narrow ≡ self) };

    /// The value with the same numbers.
    fn of(narrow: Self::Narrow) -> Self
        ensures { result ≡ value narrow };
}

impl Packable for usize {
    type Narrow = u32;

    ghost value = { λ narrow. narrow };

    ghost zero = { 0 };

    fn narrowed(self) -> Option<u32> {
        narrow(self)
    }

    fn of(narrow: u32) -> usize {
        narrow as usize
    }
}

/// The number in 4 bytes, if it fits.
#[inline(always)]
pub(crate) fn narrow(number: usize) -> Option<u32>
    ensures { IfSome result (λ narrow. narrow ≡ number) }
{
    if number <= 4_294_967_295 {
        Some(number as u32)
    } else {
        None
    }
}

/// A list of values, in 4 bytes for each number as long as all fit, and in 8 from then on. A call that appends or
/// writes fails if out of memory; then nothing changes.
#[derive(Debug, Drop)]
pub struct Packed<W: Packable> {
    alloc: Global,
    narrow: Vec<W::Narrow>,
    wide: Vec<W>,
    is_wide: bool,
}

impl<W: Packable> Model for Packed<W> {
    ghost use Rattle.std.specs.Prelude.{List, map, if◌then◌else◌};

    ghost Value = { List W };

    ghost view = { λ p. if p.is_wide then p.wide.items else map W.value p.narrow.items };
}

impl Packed<usize> {
    pub(crate) fn zeros(alloc: Global, count: usize) -> Result<Self, AllocError>
        ensures { IfOk result (λ list. list ≡ replicate count 0) }
    {
        let narrow = vec![in alloc; 0; count]?;
        Ok(Packed {
            alloc,
            narrow,
            wide: Vec::new(alloc),
            is_wide: false,
        })
    }
}

impl<W: Packable> Packed<W> {
    pub(crate) fn new(alloc: Global) -> Self
        ensures { result ≡ [] }
    {
        Packed {
            alloc,
            narrow: Vec::new(alloc),
            wide: Vec::new(alloc),
            is_wide: false,
        }
    }

    /// An empty list with room for `count` values of 4-byte numbers.
    pub(crate) fn with_capacity(alloc: Global, count: usize) -> Result<Self, AllocError>
        ensures { IfOk result (λ list. list ≡ []) }
    {
        let narrow = Vec::with_capacity(alloc, count)?;
        Ok(Packed {
            alloc,
            narrow,
            wide: Vec::new(alloc),
            is_wide: false,
        })
    }

    pub(crate) fn len(&self) -> usize
        ensures { result ≡ length self.now }
    {
        if self.is_wide {
            self.wide.len()
        } else {
            self.narrow.len()
        }
    }

    #[inline(always)]
    pub(crate) fn at(&self, place: usize) -> W
        requires { place < length self.now }
        ensures { result ≡ slice_index_or self.now place W.zero }
    {
        if self.is_wide {
            self.wide[place]
        } else {
            W::of(self.narrow[place])
        }
    }

    #[inline(always)]
    pub(crate) fn push(&mut self, item: W) -> Result<(), AllocError>
        ensures ok { OnOk result (self.new ≡ self.old ++ item ∷ []) }
        ensures err { OnErr result (self.new ≡ self.old) }
    {
        if self.is_wide {
            self.wide.push(item)?;
            return Ok(());
        }
        if let Some(narrow) = item.narrowed() {
            self.narrow.push(narrow)?;
            return Ok(());
        }
        let mut wide = self.widened()?;
        wide.push(item)?;
        self.wide = wide;
        self.is_wide = true;
        Ok(())
    }

    #[inline(always)]
    pub(crate) fn set(&mut self, place: usize, item: W) -> Result<(), AllocError>
        requires { place < length self.old }
        ensures ok { OnOk result (self.new ≡ slice_set self.old place item) }
        ensures err { OnErr result (self.new ≡ self.old) }
    {
        if self.is_wide {
            self.wide[place] = item;
            return Ok(());
        }
        if let Some(narrow) = item.narrowed() {
            self.narrow[place] = narrow;
            return Ok(());
        }
        let mut wide = self.widened()?;
        wide[place] = item;
        self.wide = wide;
        self.is_wide = true;
        Ok(())
    }

    /// The values, with 8 bytes for each number.
    #[inline(never)]
    fn widened(&self) -> Result<Vec<W>, AllocError>
        ensures { IfOk result (λ wide. wide.items ≡ self.now) }
    {
        let mut wide = Vec::with_capacity(self.alloc, self.len())?;
        for place in 0..self.len() {
            wide.push(self.at(place))?;
        }
        Ok(wide)
    }
}
