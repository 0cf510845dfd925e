//! The memory states of the machine that is drawn from an arena.

ghost use Rattle.std.specs.Prelude.{◌≡◌, IfOk, OnOk};
ghost use Rattle.ps_machine.specs.Inner.Drawing.{KeepsAt};
ghost use Rattle.ps_brief.specs.Inner.Parts.{HasMemories};

use crate::drafts::Plan;
use crate::reach::{Reached, anchor};
use indexmap::IndexSet;
use std::alloc::{AllocError, Global};

/// The memory states of a machine.
#[derive(Drop)]
pub(crate) struct Memories {
    /// For each memory state, the least place of a key for which it stands. The list ascends.
    pub kept: Vec<usize>,
    /// What each memory state remembers.
    pub anchors: IndexSet<usize>,
}

/// Makes a memory state for each anchor of a key that the winner's moves can reach.
pub(crate) fn memories_of(
    alloc: Global,
    plan: &Plan<'_>,
    reached: &Reached,
) -> Result<Memories, AllocError>
    ensures { IfOk result (HasMemories plan.now reached.now) }
{
    let mut memories = Memories {
        kept: Vec::new(alloc),
        anchors: IndexSet::new(alloc),
    };
    for place in 0..plan.listing.count() {
        if reached.places.contains(&place) {
            let state = plan.listing.step_at(place).state;
            memories.keep(place, anchor(plan.moves_first, place, state))?;
        }
    }
    Ok(memories)
}

impl Memories {
    /// Adds a memory state for a key, unless one has the same anchor.
    fn keep(&mut self, place: usize, anchor: usize) -> Result<(), AllocError>
        ensures { OnOk result (KeepsAt self.old.kept.items self.old.anchors.keys place anchor self.new.kept.items
            self.new.anchors.keys) }
    {
        if self.anchors.insert(anchor)? {
            self.kept.push(place)?;
        }
        Ok(())
    }
}
