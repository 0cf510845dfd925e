//! The memory states of a certificate's machine.

ghost use Rattle.std.specs.Prelude.{◌≡◌, IfOk, OnOk, length};
ghost use Rattle.ps_machine.specs.Inner.Drawing.{AreMemories, KeepsAt, anchor_of};

use crate::key::Key;
use crate::used::Found;
use indexmap::IndexSet;
use std::alloc::{AllocError, Global};

#[derive(Drop)]
pub(crate) struct Memories {
    /// For each memory state, the smallest vertex that it stands for: a reachable one of the first player. The list
    /// ascends.
    pub kept: Vec<usize>,
    /// What each memory state remembers, its anchor: a vertex if the machine's player moves first, else a state of the
    /// automaton.
    pub anchors: IndexSet<usize>,
}

/// Makes a memory state for each anchor of a reachable vertex of the first player.
pub(crate) fn remembered(
    alloc: Global,
    keys: &[Key],
    used: &Found,
    moves_first: bool,
) -> Result<Memories, AllocError>
    requires { length used.now.flags.items ≡ length keys.now }
    ensures { IfOk result (λ memories. AreMemories moves_first keys.now used.now.list.items memories.kept.items
        memories.anchors.keys) }
{
    let mut memories = Memories {
        kept: Vec::new(alloc),
        anchors: IndexSet::new(alloc),
    };
    for (vertex, key) in keys.iter().enumerate() {
        let Key::First { state, .. } = *key else {
            continue;
        };
        if used.contains(vertex) {
            memories.keep(vertex, anchor(moves_first, vertex, state))?;
        }
    }
    Ok(memories)
}

/// The anchor of a vertex of the first player.
pub(crate) fn anchor(moves_first: bool, vertex: usize, state: u32) -> usize
    ensures { result ≡ anchor_of moves_first vertex state }
{
    if moves_first { vertex } else { state as usize }
}

impl Memories {
    /// Adds a memory state for a vertex, unless one has the same anchor.
    fn keep(&mut self, vertex: usize, anchor: usize) -> Result<(), AllocError>
        ensures { OnOk result (KeepsAt self.old.kept.items self.old.anchors.keys vertex anchor self.new.kept.items
            self.new.anchors.keys) }
    {
        if self.anchors.insert(anchor)? {
            self.kept.push(vertex)?;
        }
        Ok(())
    }
}
