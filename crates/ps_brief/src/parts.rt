//! The parts of the machine that is drawn from an arena.

ghost use Rattle.std.specs.Prelude.{◌≡◌, ◌<◌, ℕ, [], IfOk, IfSome, length};
ghost use Rattle.std.specs.List.{All};
ghost use Rattle.ps_diagram.specs.Pairs.{Adds, IsPaired, MeetAt};
ghost use Rattle.ps_diagram.specs.Table.{IsNode, Keeps, MakesNode, Table, leaf_of};
ghost use Rattle.ps_brief.specs.Inner.Parts.{AreCopiedUpTo, AreMemoriesFor, ArePaired, AreRelabelled, IsDrawable};
ghost use Rattle.ps_brief.specs.Inner.Parts.{IsGoodLeaf, IsMemoryFor};
ghost use Rattle.ps_brief.specs.declared.reach.Reached.{Reached};

use crate::drafts::Plan;
use crate::memories::Memories;
use crate::reach::{Reached, anchor};
use indexmap::IndexSet;
use ps_diagram::{Node, Store};
use std::alloc::{AllocError, Global};

/// For each memory state, the diagram of its steps, each as the index of a pair that has the step's leaf twice.
pub(crate) fn paired_nodes(
    alloc: Global,
    plan: &Plan<'_>,
    store: &mut Store,
    reached: &Reached,
    memories: &Memories,
    pairs: &mut IndexSet<(u64, u64)>,
) -> Result<Vec<Node>, AllocError>
    requires drawable { IsDrawable plan.now store.old reached.now memories.now }
    requires none { pairs.old.keys ≡ [] }
    ensures keeps { Keeps store.old store.new }
    ensures paired { IfOk result (λ nodes. ArePaired plan.now store.new reached.now memories.now.kept.items
        pairs.new.keys nodes.items (length memories.now.kept.items)) }
{
    let mut nodes = Vec::with_capacity(alloc, memories.kept.len())?;
    for place in &memories.kept {
        let state = plan.listing.step_at(*place).state;
        let Some(draft) = reached.drafts.get(&anchor(plan.moves_first, *place, state)) else {
            unreachable!();
        };
        nodes.push(numbered(store, draft.steps, pairs)?)?;
    }
    Ok(nodes)
}

/// The diagram of a node with each leaf replaced by its index in `pairs`, which has each leaf twice.
fn numbered(
    store: &mut Store,
    node: Node,
    pairs: &mut IndexSet<(u64, u64)>,
) -> Result<Node, AllocError>
    requires { IsNode store.old node }
    ensures made { MakesNode store.old store.new result (λ made. (letter : ℕ) → IsPaired pairs.new.keys
        (leaf_of store.old node letter) (leaf_of store.old node letter) (leaf_of store.new made letter)) }
    ensures adds { Adds (MeetAt store.old node node) pairs.old.keys pairs.new.keys }
{
    store.both(node, node, pairs)
}

impl Memories {
    /// The memory states after the steps of these leaves.
    pub fn values(
        &self,
        alloc: Global,
        plan: &Plan<'_>,
        pairs: &[(u64, u64)],
    ) -> Result<Vec<u64>, AllocError>
        requires drawable { (t : Table) × (reached : Reached) × IsDrawable plan.now t reached self.now }
        requires good { All (IsGoodLeaf plan.now) pairs.now }
        ensures { IfOk result (λ values. AreMemoriesFor plan.now self.now.kept.items pairs.now values.items
            (length pairs.now)) }
    {
        let mut values = Vec::new(alloc);
        for (leaf, _) in pairs {
            values.push(self.behind(plan, *leaf))?;
        }
        Ok(values)
    }

    /// The memory state after the step of a leaf.
    fn behind(&self, plan: &Plan<'_>, leaf: u64) -> u64
        requires drawable { (t : Table) × (reached : Reached) × IsDrawable plan.now t reached self.now }
        requires good { (y : ℕ) × IsGoodLeaf plan.now (leaf, y) }
        ensures { IsMemoryFor plan.now self.now.kept.items leaf result }
    {
        let step = plan.setting.automaton.pair(leaf);
        let place = plan.listing.place_of(step).unwrap();
        self.anchors
            .get_index_of(&anchor(plan.moves_first, place, step.state))
            .unwrap() as u64
    }
}

/// For each memory state, the diagrams of its bits, in another store.
pub(crate) fn copied_bits(
    alloc: Global,
    plan: &Plan<'_>,
    own: &mut Store,
    store: &Store,
    reached: &Reached,
    memories: &Memories,
) -> Result<Vec<Vec<Node>>, AllocError>
    requires letters { store.now.propositions ≡ own.old.propositions }
    requires drawable { IsDrawable plan.now store.now reached.now memories.now }
    ensures keeps { Keeps own.old own.new }
    ensures copied { IfOk result (λ all. AreCopiedUpTo plan.now store.now own.new reached.now memories.now.kept.items
        all.items (length memories.now.kept.items)) }
{
    let mut all = Vec::with_capacity(alloc, memories.kept.len())?;
    for place in &memories.kept {
        let state = plan.listing.step_at(*place).state;
        let Some(draft) = reached.drafts.get(&anchor(plan.moves_first, *place, state)) else {
            unreachable!();
        };
        all.push(relabelled(alloc, own, store, &draft.bits, &[1, 1])?)?;
    }
    Ok(all)
}

/// The diagrams with these values for leaves, in another store.
pub(crate) fn relabelled(
    alloc: Global,
    own: &mut Store,
    store: &Store,
    nodes: &[Node],
    values: &[u64],
) -> Result<Vec<Node>, AllocError>
    requires letters { store.now.propositions ≡ own.old.propositions }
    requires held { All (IsNode store.now) nodes.now }
    requires within { All (λ node. (letter : ℕ) → IfSome (leaf_of store.now node letter) (λ k. k < length values.now))
        nodes.now }
    ensures keeps { Keeps own.old own.new }
    ensures relabelled { IfOk result (λ made. AreRelabelled store.now own.new values.now nodes.now made.items
        (length nodes.now)) }
{
    let mut made = Vec::with_capacity(alloc, nodes.len())?;
    for node in nodes {
        made.push(own.relabel_from(store, *node, values)?)?;
    }
    Ok(made)
}
