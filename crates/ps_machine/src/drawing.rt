//! Makes the diagrams of a machine.

ghost use Rattle.std.specs.Prelude.{◌≡◌, ◌≢◌, ◌↔◌, ℕ, ◌<◌, true, Any, IsTrue, OnOk, Some, length, slice_get};
ghost use Rattle.std.specs.Prelude.{slice_index};
ghost use Rattle.std.specs.List.{All, Contains};
ghost use Rattle.ps_automaton.specs.Automata.{pair_of};
ghost use Rattle.ps_certificate.specs.Certificates.{choice_of};
ghost use Rattle.ps_diagram.specs.Table.{Keeps};
ghost use Rattle.ps_game.specs.Games.{successors_of, vertex_count};
ghost use Rattle.ps_machine.specs.Boards.{IsGameOf};
ghost use Rattle.ps_machine.specs.Inner.Drawing.{IsOwn};
ghost use Rattle.ps_machine.specs.Inner.Moving.{step_key};
ghost use Rattle.ps_machine.specs.Extracting.{StandsFor};
ghost use Rattle.ps_machine.specs.Numbering.{StandsAt};
ghost use Rattle.ps_machine.specs.Inner.Placing.{PlaysClass};
ghost use Rattle.ps_machine.specs.Inner.Planning.{AddsRows, AreRowsBy, CanDivide, CanDraw, CanEnterBy};
ghost use Rattle.ps_machine.specs.Inner.Planning.{Draws, IsEnteredBy, IsPlacedBy, IsPlanned, LeadsBy, board_by};
ghost use Rattle.ps_machine.specs.Keys.{mover_of};
ghost use Rattle.ps_machine.specs.declared.key.Key.TheVariants.{First};

use crate::key::{Key, Order};
use crate::machine::Row;
use crate::memories::{Memories, anchor};
use indexmap::IndexSet;
use ps_automaton::{Automaton, Step};
use ps_certificate::Certificate;
use ps_diagram::{Class, Classes, Node, Store};
use ps_game::{Arena, Game};
use std::alloc::{AllocError, Global};

/// What a machine is made from.
#[derive(Drop)]
pub(crate) struct Plan<'a> {
    pub order: Order,
    pub automaton: &'a Automaton,
    /// The automaton's game.
    pub game: &'a Game,
    /// What each vertex stands for.
    pub keys: &'a [Key],
    pub certificate: &'a Certificate,
    /// Whether the winner of vertex 0 moves first.
    pub moves_first: bool,
    /// The memory states of the winner of vertex 0.
    pub memories: &'a Memories,
}

/// The machine's diagrams and rows so far.
#[derive(Drop)]
pub(crate) struct Drawing {
    pub store: Store,
    /// The rows, whose indices are the leaves of the machine's diagrams.
    pub rows: IndexSet<Row>,
    /// For each leaf of the automaton's diagrams, which stands for a step, the index of the machine's row. Only what
    /// the last `place_rows` has set is valid.
    pub places: Vec<u64>,
}

impl Plan<'_> {
    /// The state for which the vertex of a memory state stands.
    pub fn state_at(&self, vertex: usize) -> u32
        requires plan { IsPlanned self.now }
        requires kept { Contains self.now.memories.now.kept.items vertex }
        ensures { (p : ℕ) × StandsAt self.now.keys.now vertex (First result p) }
    {
        match self.keys[vertex] {
            Key::First { state, .. } => state,
            Key::Second { .. } => unreachable!(),
        }
    }

    /// The memory state after a step, given the vertex that stands for it.
    pub fn memory_at(&self, vertex: usize, step: Step) -> usize
        requires enters { CanEnterBy self.now step.state step.priority }
        requires at { StandsAt self.now.keys.now vertex (First step.state step.priority) }
        ensures within { result < length self.now.memories.now.kept.items }
        ensures stands { (v : ℕ) → StandsAt self.now.keys.now v (First step.state step.priority) →
            StandsFor self.now.moves_first self.now.keys.now self.now.memories.now.kept.items result v step.state }
    {
        let anchor = anchor(self.moves_first, vertex, step.state);
        self.memories.anchors.get_index_of(&anchor).unwrap()
    }

    /// The memory state after a step from a vertex, whose successor at the index `number` is tried first.
    pub fn memory_behind(&self, vertex: usize, number: usize, step: Step) -> usize
        requires enters { CanEnterBy self.now step.state step.priority }
        requires leads { LeadsBy self.now vertex (First step.state step.priority) }
        ensures within { result < length self.now.memories.now.kept.items }
        ensures stands { (v : ℕ) → StandsAt self.now.keys.now v (First step.state step.priority) →
            StandsFor self.now.moves_first self.now.keys.now self.now.memories.now.kept.items result v step.state }
    {
        let key = Key::First {
            state: step.state,
            priority: step.priority,
        };
        let next = self.successor(vertex, number, key);
        self.memory_at(next, step)
    }

    /// The successor of a vertex that stands for the key. The one at the index `number` is tried first, so that a
    /// caller who goes through all in order finds each at once.
    pub fn successor(&self, vertex: usize, number: usize, key: Key) -> usize
        requires game { IsGameOf (board_by self.now) (mover_of self.now.order) self.now.keys.now self.now.game.now }
        requires leads { LeadsBy self.now vertex key }
        ensures { StandsAt self.now.keys.now result key }
    {
        if number < self.game.degree(vertex) && self.leads(vertex, number, key) {
            return self.game.successor(vertex, number);
        }
        for other in 0..self.game.degree(vertex) {
            if self.leads(vertex, other, key) {
                return self.game.successor(vertex, other);
            }
        }
        unreachable!()
    }

    fn leads(&self, vertex: usize, number: usize, key: Key) -> bool
        requires game { IsGameOf (board_by self.now) (mover_of self.now.order) self.now.keys.now self.now.game.now }
        requires vertex { vertex < vertex_count self.now.game.now }
        requires number { number < length (successors_of self.now.game.now vertex) }
        ensures { IsTrue result ↔
            StandsAt self.now.keys.now (slice_index (successors_of self.now.game.now vertex) number) key }
    {
        self.keys[self.game.successor(vertex, number)] == key
    }

    /// The move of a player who moves first, at the vertex of a memory state: the vertex to which it leads, and the
    /// output, the least letter of that vertex's class.
    pub fn move_at(&self, vertex: usize) -> (usize, u64)
        requires plan { IsPlanned self.now }
        requires kept { Contains self.now.memories.now.kept.items vertex }
        requires turn { self.now.moves_first ≡ true }
        ensures moved { choice_of self.now.certificate.now vertex ≡ Some result.0 }
        ensures plays { (q p : ℕ) → StandsAt self.now.keys.now vertex (First q p)
            → PlaysClass (board_by self.now) self.now.keys.now self.now.certificate.now vertex q result.1 }
    {
        let chosen = self.certificate.choice(vertex).unwrap();
        match self.keys[chosen] {
            Key::Second { letter, .. } => (chosen, letter),
            Key::First { .. } => unreachable!(),
        }
    }
}

impl Drawing {
    /// Makes the diagram of the memory state that a vertex has, after dividing the letters of the vertex's state.
    /// `store` began as a copy of the automaton's store, and `mask` has the first player's propositions.
    pub fn node_by_dividing(
        &mut self,
        alloc: Global,
        plan: &Plan<'_>,
        store: &mut Store,
        mask: u64,
        vertex: usize,
    ) -> Result<Node, AllocError>
        requires { CanDivide plan.now mask store.old self.old vertex }
        ensures drawn { Draws plan.now self.old self.new vertex result }
        ensures keeps { Keeps store.old store.new }
    {
        let state = plan.state_at(vertex);
        let node = plan.automaton.node(state);
        let classes = store.classes_in_copy(plan.automaton.store(), node, mask)?;
        self.node(alloc, plan, store, &classes, vertex, state)
    }

    /// Makes the diagram of the memory state that a vertex has, given the classes of the vertex's state.
    pub fn node(
        &mut self,
        alloc: Global,
        plan: &Plan<'_>,
        store: &Store,
        classes: &Classes,
        vertex: usize,
        state: u32,
    ) -> Result<Node, AllocError>
        requires { CanDraw plan.now store.now classes.now self.old vertex state }
        ensures { Draws plan.now self.old self.new vertex result }
    {
        if plan.moves_first {
            self.first_node(plan, store, classes, vertex)
        } else {
            self.second_node(alloc, plan, store, classes, vertex, state)
        }
    }

    /// Makes the diagram of a memory state for a player who moves first. Its move leads to a class of letters; the
    /// result is the diagram of the steps after it, with indices of rows in place of steps.
    fn first_node(
        &mut self,
        plan: &Plan<'_>,
        store: &Store,
        classes: &Classes,
        vertex: usize,
    ) -> Result<Node, AllocError>
        requires turn { plan.now.moves_first ≡ true }
        requires ready { (q : ℕ) × CanDraw plan.now store.now classes.now self.old vertex q }
        ensures { Draws plan.now self.old self.new vertex result }
    {
        let (chosen, letter) = plan.move_at(vertex);
        let rest = rest_of(&classes.list, letter);
        let leaves = store.leaves(rest)?;
        self.place_rows(plan, chosen, letter, &leaves)?;
        self.store.relabel_from(store, rest, &self.places)
    }

    /// Adds a row for each leaf that needs one: the output `letter`, and the memory state after the leaf's step from
    /// the vertex `chosen`. Records each leaf's row.
    fn place_rows(
        &mut self,
        plan: &Plan<'_>,
        chosen: usize,
        letter: u64,
        leaves: &[(u64, u64)],
    ) -> Result<(), AllocError>
        requires entered { All (λ leaf. IsEnteredBy plan.now leaf.0) leaves.now }
        requires leads { All (λ leaf. LeadsBy plan.now chosen (step_key (pair_of plan.now.automaton.now leaf.0)))
            leaves.now }
        requires own { IsOwn plan.now.moves_first (board_by plan.now) letter }
        requires rows { AreRowsBy plan.now self.old.rows.keys }
        ensures added { AddsRows plan.now self.old self.new }
        ensures placed { OnOk result
            (All (λ leaf. IsPlacedBy plan.now self.new.rows.keys self.new.places.items letter leaf.0) leaves.now) }
    {
        for (number, (leaf, _)) in leaves.iter().enumerate() {
            let step = plan.automaton.pair(*leaf);
            let memory = plan.memory_behind(chosen, number, step);
            let (place, _) = self.rows.insert_full(Row { memory, letter })?;
            note(&mut self.places, *leaf, place as u64)?;
        }
        Ok(())
    }
}

/// The diagram of the steps after a letter, the least of its class.
fn rest_of(classes: &[Class], letter: u64) -> Node
    requires { Any (λ class. class.letter ≡ letter) classes.now }
    ensures { Any (λ class. (class.letter ≡ letter) × (class.rest ≡ result)) classes.now }
{
    match classes.iter().find(|class| class.letter == letter) {
        Some(class) => class.rest,
        None => unreachable!(),
    }
}

/// Records the index of the row for a leaf.
fn note(places: &mut Vec<u64>, leaf: u64, place: u64) -> Result<(), AllocError>
    ensures noted { OnOk result (slice_get places.new.items leaf ≡ Some place) }
    ensures others { OnOk result ((other n : ℕ) → other ≢ leaf → slice_get places.old.items other ≡ Some n →
        slice_get places.new.items other ≡ Some n) }
{
    let leaf = leaf as usize;
    if places.len() < leaf {
        places.resize(leaf, 0)?;
    }
    if leaf < places.len() {
        places[leaf] = place;
    } else {
        places.push(place)?;
    }
    Ok(())
}
