//! The status of each vertex.

ghost use Rattle.std.specs.Prelude.{◌≡◌, ◌+◌, ◌-◌, ◌<◌, ◌^◌, ◌++◌, [], length, replicate, slice_get, slice_set, take};
ghost use Rattle.std.specs.Prelude.{Some, IfOk, OnOk, OnErr, map};
ghost use Rattle.ps_components.specs.declared.statuses.Status.TheVariants.{Unseen};
ghost use Rattle.ps_components.specs.Codes.{status_of, narrow_status_of};

use std::alloc::{AllocError, Global};
use std::marker::Model;

/// The status of a vertex during a search.
#[derive(Clone, Copy)]
pub enum Status {
    /// Not visited yet.
    Unseen,
    /// At this index of the search path.
    Active(usize),
    /// Finished, in the component with this number.
    Closed(usize),
}

/// The largest 8-byte code of a finished vertex.
const LAST_CLOSED: usize = 1 << 63;

/// The largest 4-byte code of a finished vertex.
const LAST_NARROW: usize = 1 << 31;

/// A status for each vertex, stored as a code: 0 is unseen, k + 1 is finished in component k, and larger codes are
/// indices on the search path. Codes take 4 bytes until an index of 2^31 - 1 or more, or a component of 2^31 or more,
/// is stored, and then 8. A call that is out of memory changes nothing.
#[derive(Drop)]
pub struct Statuses {
    alloc: Global,
    narrow: Vec<u32>,
    wide: Vec<usize>,
    is_wide: bool,
}

impl Model for Statuses {
    ghost use Rattle.std.specs.Prelude.{List, map, if◌then◌else◌};
    ghost use Rattle.ps_components.specs.Codes.{status_of, narrow_status_of};
    ghost use Rattle.ps_components.specs.declared.statuses.Status.{Status};

    ghost Value = { List Status };

    ghost view = { λ m. if m.is_wide then map status_of m.wide.items else map narrow_status_of m.narrow.items };
}

impl Statuses {
    /// No statuses.
    pub fn new(alloc: Global) -> Self
        ensures { result ≡ [] }
    {
        Statuses {
            alloc,
            narrow: Vec::new(alloc),
            wide: Vec::new(alloc),
            is_wide: false,
        }
    }

    /// `count` unseen vertices.
    pub fn unseen(alloc: Global, count: usize) -> Result<Self, AllocError>
        ensures { IfOk result (λ statuses. statuses ≡ replicate count Unseen) }
    {
        let narrow = vec![in alloc; 0; count]?;
        Ok(Statuses {
            alloc,
            narrow,
            wide: Vec::new(alloc),
            is_wide: false,
        })
    }

    /// The status of a vertex.
    #[inline(always)]
    pub fn at(&self, item: usize) -> Status
        requires { item < length self.now }
        ensures { slice_get self.now item ≡ Some result }
    {
        if self.is_wide {
            status_of(self.wide[item])
        } else {
            narrow_status_of(self.narrow[item] as usize)
        }
    }

    /// Marks a vertex as unseen.
    #[inline(always)]
    pub fn clear_at(&mut self, item: usize)
        requires { item < length self.old }
        ensures { self.new ≡ slice_set self.old item Unseen }
    {
        if self.is_wide {
            self.wide[item] = 0;
        } else {
            self.narrow[item] = 0;
        }
    }

    /// Marks a vertex as active, at this index of the search path.
    pub fn put(&mut self, item: usize, place: usize) -> Result<(), AllocError>
        requires item { item < length self.old }
        requires place { place + 1 < 2 ^ 63 }
        ensures ok { OnOk result (self.new ≡ slice_set self.old item (Status.Active place)) }
        ensures err { OnErr result (self.new ≡ self.old) }
    {
        if self.is_wide {
            self.wide[item] = LAST_CLOSED + 1 + place;
            return Ok(());
        }
        if place < LAST_NARROW - 1 {
            self.narrow[item] = (LAST_NARROW + 1 + place) as u32;
            return Ok(());
        }
        let mut wide = widened(self.alloc, &self.narrow)?;
        wide[item] = LAST_CLOSED + 1 + place;
        self.wide = wide;
        self.is_wide = true;
        Ok(())
    }

    /// Marks a vertex as finished, in this component.
    pub fn close(&mut self, item: usize, number: usize) -> Result<(), AllocError>
        requires item { item < length self.old }
        requires number { number < 2 ^ 63 }
        ensures ok { OnOk result (self.new ≡ slice_set self.old item (Status.Closed number)) }
        ensures err { OnErr result (self.new ≡ self.old) }
    {
        if self.is_wide {
            self.wide[item] = number + 1;
            return Ok(());
        }
        if number < LAST_NARROW {
            self.narrow[item] = (number + 1) as u32;
            return Ok(());
        }
        let mut wide = widened(self.alloc, &self.narrow)?;
        wide[item] = number + 1;
        self.wide = wide;
        self.is_wide = true;
        Ok(())
    }

    /// Keeps the first `count` statuses, or adds unseen vertices.
    pub fn resize(&mut self, count: usize) -> Result<(), AllocError>
        ensures { OnOk result (self.new ≡ take count self.old ++ replicate (count - length self.old) Unseen) }
    {
        if self.is_wide {
            self.wide.resize(count, 0)
        } else {
            self.narrow.resize(count, 0)
        }
    }

    /// Removes all statuses.
    pub fn clear(&mut self)
        ensures { self.new ≡ [] }
    {
        self.narrow.clear();
        self.wide.clear();
    }
}

/// The same in 8-byte codes.
#[inline(never)]
fn widened(alloc: Global, narrow: &[u32]) -> Result<Vec<usize>, AllocError>
    ensures { IfOk result (λ wide. map status_of wide.items ≡ map narrow_status_of narrow.now) }
{
    let mut wide = Vec::with_capacity(alloc, narrow.len())?;
    for place in 0..narrow.len() {
        wide.push(wide_code(narrow[place] as usize))?;
    }
    Ok(wide)
}

fn wide_code(code: usize) -> usize
    requires { code < 2 ^ 32 }
    ensures { status_of result ≡ narrow_status_of code }
{
    if code <= LAST_NARROW {
        code
    } else {
        code - LAST_NARROW + LAST_CLOSED
    }
}

#[inline(always)]
fn status_of(code: usize) -> Status
    ensures { result ≡ status_of code }
{
    if code == 0 {
        Status::Unseen
    } else if code <= LAST_CLOSED {
        Status::Closed(code - 1)
    } else {
        Status::Active(code - LAST_CLOSED - 1)
    }
}

#[inline(always)]
fn narrow_status_of(code: usize) -> Status
    ensures { result ≡ narrow_status_of code }
{
    if code == 0 {
        Status::Unseen
    } else if code <= LAST_NARROW {
        Status::Closed(code - 1)
    } else {
        Status::Active(code - LAST_NARROW - 1)
    }
}
