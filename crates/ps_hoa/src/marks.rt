//! The acceptance sets of an edge or of a state.

ghost use Rattle.std.specs.Prelude.{◌≡◌, ◌∷◌, ◌++◌, [], IfOk};
ghost use Rattle.ps_hoa.specs.Files.{once};
ghost use Rattle.ps_hoa.specs.Marks.{mark_list};

use std::alloc::{AllocError, Global};
use std::fmt;

/// How many numbers a new list has room for.
const ROOM: usize = 4;

/// The numbers of acceptance sets. Most edges and states have at most one, so only more take memory of their own.
#[derive(Drop)]
pub enum Marks {
    /// No set.
    None,
    /// One set.
    One([u32; 1]),
    /// A list of sets.
    List(Box<Vec<u32>>),
}

impl Marks {
    /// The sets, in the order in which they were added.
    pub fn as_slice(&self) -> &[u32]
        ensures { result.now ≡ mark_list self.now }
    {
        match self {
            Marks::None => &[],
            Marks::One(set) => set.as_slice(),
            Marks::List(sets) => sets.as_slice(),
        }
    }

    /// These sets and the given one, unless it is one of them.
    pub(crate) fn with(self, alloc: Global, set: u32) -> Result<Marks, AllocError>
        ensures { IfOk result (λ marks. mark_list marks ≡ once (mark_list self) set) }
    {
        if self.as_slice().contains(&set) {
            return Ok(self);
        }
        match self {
            Marks::None => Ok(Marks::One([set])),
            Marks::One(first) => listed(alloc, first[0], set),
            Marks::List(sets) => added(sets, set),
        }
    }
}

impl fmt::Debug for Marks {
    fn fmt<W: fmt::Write>(&self, f: &mut fmt::Formatter<W>) -> fmt::Result {
        let sets = self.as_slice();
        write!(f, "{sets:?}")
    }
}

fn listed(alloc: Global, first: u32, second: u32) -> Result<Marks, AllocError>
    ensures { IfOk result (λ marks. mark_list marks ≡ first ∷ second ∷ []) }
{
    let mut sets = Vec::with_capacity(alloc, ROOM)?;
    sets.push(first)?;
    sets.push(second)?;
    Ok(Marks::List(Box::new(alloc, sets)?))
}

fn added(mut sets: Box<Vec<u32>>, set: u32) -> Result<Marks, AllocError>
    ensures { IfOk result (λ marks. mark_list marks ≡ sets.value.items ++ set ∷ []) }
{
    sets.push(set)?;
    Ok(Marks::List(sets))
}
