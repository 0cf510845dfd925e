//! Diagrams of propositions over the letters of a formula, by which an automaton reads these letters.

ghost use Rattle.std.specs.Prelude.{◌≡◌, ◌^◌, ◌<◌, ◌≤◌, All, IfOk, OnOk, length, map, slice_index};
ghost use Rattle.ps_diagram.specs.Table.{Keeps, Table};
ghost use Rattle.ps_tableau_product.specs.Inner.Alphabets.{AreBitNodes, AreMet, CanMeet, IsAlphabet};

use crate::composed::Composed;
use crate::joint_plan::JointPlan;
use crate::meetings::{Meetings, copy_of};
use ps_diagram::{Node, Store};
use std::alloc::{AllocError, Global};

/// The number of propositions of a tableau's guards.
const PROPOSITIONS: usize = 64;

/// Diagrams over the letters of a formula.
#[derive(Drop)]
pub(crate) struct Alphabet {
    /// The store of the diagrams.
    pub store: Store,
    /// Those of the tableau's guards. A proposition that the formula lacks is false at each letter.
    pub guards: Composed,
    /// Those of the steps of the automaton's states.
    pub steps: Composed,
    /// What was found of guards and states.
    pub meetings: Meetings,
}

impl Alphabet {
    /// The diagrams of the propositions of the formula and of the automaton. Fails if out of memory.
    pub(crate) fn new(plan: JointPlan) -> Result<Self, AllocError>
        ensures { IfOk result (λ alphabet. (guards : Table) → guards.propositions ≡ 64 →
            IsAlphabet plan.entry guards alphabet) }
    {
        plan.automaton.parts_fit();
        let mut store = Store::new(plan.alloc, plan.count);
        let whole = whole_nodes(plan.alloc, &mut store)?;
        let own = nodes_at(plan.alloc, &whole, plan.places)?;
        let guards = Composed::new(plan.alloc, whole);
        let steps = Composed::new(plan.alloc, own);
        let meetings = Meetings::new(plan.alloc);
        Ok(Alphabet {
            store,
            guards,
            steps,
            meetings,
        })
    }

    /// The leaves of the diagram of a state's steps at letters for which a guard serves, each with such a letter. They
    /// are found once for each guard and state. Fails if out of memory.
    pub(crate) fn met(
        &mut self,
        plan: JointPlan,
        guards: &Store,
        guard: Node,
        own: u32,
    ) -> Result<Vec<(u64, u64)>, AllocError>
        requires { CanMeet plan guards.now guard own self.old }
        ensures alphabet { OnOk result (IsAlphabet plan.entry guards.now self.new) }
        ensures met { IfOk result (λ found. AreMet (2 ^ plan.entry.count) plan.entry.places.now
            plan.entry.automaton.now own guards.now guard found.items) }
    {
        if let Some(found) = self.meetings.get(plan.alloc, guard, own)? {
            return Ok(found);
        }
        let found = self.met_anew(plan, guards, guard, own)?;
        let copy = copy_of(plan.alloc, &found)?;
        self.meetings.add(guard, own, copy)?;
        Ok(found)
    }

    /// As `met`, not kept.
    fn met_anew(
        &mut self,
        plan: JointPlan,
        guards: &Store,
        guard: Node,
        own: u32,
    ) -> Result<Vec<(u64, u64)>, AllocError>
        requires { CanMeet plan guards.now guard own self.old }
        ensures alphabet { OnOk result (IsAlphabet plan.entry guards.now self.new) }
        ensures met { IfOk result (λ found. AreMet (2 ^ plan.entry.count) plan.entry.places.now
            plan.entry.automaton.now own guards.now guard found.items) }
    {
        let automaton = plan.automaton;
        let store = automaton.store();
        let node = automaton.node(own);
        let steps = self.steps.diagram(&mut self.store, store, node)?;
        let guard = self.guards.diagram(&mut self.store, guards, guard)?;
        let none = self.store.none()?;
        let met = self.store.choose(guard, steps, none)?;
        self.store.leaves(met)
    }
}

/// The diagram of each proposition of guards, of which the store has the first ones: another is false at each letter.
/// Fails if out of memory.
fn whole_nodes(alloc: Global, store: &mut Store) -> Result<Vec<Node>, AllocError>
    ensures keeps { Keeps store.old store.new }
    ensures each { IfOk result (λ nodes. length nodes.items ≡ 64) }
    ensures nodes { IfOk result (λ nodes. AreBitNodes store.new store.old.propositions nodes.items) }
{
    let mut nodes = proposition_nodes(alloc, store)?;
    let none = store.none()?;
    while nodes.len() < PROPOSITIONS {
        nodes.push(none)?;
    }
    Ok(nodes)
}

/// The diagram of each proposition of the store. Fails if out of memory.
fn proposition_nodes(alloc: Global, store: &mut Store) -> Result<Vec<Node>, AllocError>
    ensures keeps { Keeps store.old store.new }
    ensures few { store.old.propositions ≤ 64 }
    ensures each { IfOk result (λ nodes. length nodes.items ≡ store.old.propositions) }
    ensures nodes { IfOk result (λ nodes. AreBitNodes store.new store.old.propositions nodes.items) }
{
    let mut nodes = Vec::new(alloc);
    for p in 0..store.propositions() {
        let node = store.of_proposition(p)?;
        nodes.push(node)?;
    }
    Ok(nodes)
}

/// The nodes that have the given indices in a list. Fails if out of memory.
fn nodes_at(alloc: Global, nodes: &[Node], places: &[u32]) -> Result<Vec<Node>, AllocError>
    requires { All (λ p. p < length nodes.now) places.now }
    ensures { IfOk result (λ found. found.items ≡ map (slice_index nodes.now) places.now) }
{
    let mut found = Vec::new(alloc);
    for place in places {
        found.push(nodes[*place as usize])?;
    }
    Ok(found)
}
