//! The moves of the player who wins an arena, as diagrams.

ghost use Rattle.std.specs.Prelude.{◌≡◌, ◌+◌, ◌<◌, ◌≤◌, ℕ, true, false, List, IfOk, MatchOption, Some, Contains, None};
ghost use Rattle.std.specs.Prelude.{length, slice_get, slice_index_or};
ghost use Rattle.ps_diagram.specs.Table.{IsNode, Keeps, Table};
ghost use Rattle.ps_game.specs.Games.{successors_of, vertex_count};
ghost use Rattle.ps_machine.specs.Numbering.{StandsAt};
ghost use Rattle.ps_machine.specs.declared.key.Key.TheVariants.{First};
ghost use Rattle.ps_brief.specs.Inner.Drafts.{IsDraft, IsJoined, IsMoveLeaf, IsReady, IsReadyAt, IsSingle};
ghost use Rattle.ps_brief.specs.Inner.Drafts.{NeverMoves, TriesMoves, play_of};
ghost use Rattle.ps_brief.specs.Inner.Playable.{IsFirstMove};

use crate::listing::Listing;
use crate::setting::Setting;
use ps_automaton::Step;
use ps_certificate::Certificate;
use ps_diagram::{Node, Store};
use ps_game::{Arena, Game};
use ps_machine::Key;
use std::alloc::AllocError;

/// What a machine is drawn from.
#[derive(Drop)]
pub(crate) struct Plan<'a> {
    pub setting: &'a Setting<'a>,
    pub listing: &'a Listing,
    pub arena: &'a Game,
    /// The key of each vertex of the arena.
    pub others: &'a [Key],
    pub certificate: &'a Certificate,
    /// Whether the winner of the arena's start moves first.
    pub moves_first: bool,
    /// For each listed key, the leaf of the steps to it in the automaton's diagrams, if a step leads there.
    pub leaves: Vec<Option<u64>>,
}

/// The winner's moves at a state, for each letter of the other player.
#[derive(Drop)]
pub(crate) struct Draft {
    /// The automaton's step, as a leaf of its diagrams.
    pub steps: Node,
    /// For each proposition of the winner, ascending, a diagram with a leaf where it is true in the winner's letter.
    pub bits: Vec<Node>,
}

/// The moves of a winner who moves second at a state.
#[derive(Debug, Clone, Copy)]
pub(crate) struct Moves {
    /// For each letter of the other player, the automaton's step, as a leaf of its diagrams.
    pub steps: Node,
    /// The letters of both players that make this step.
    pub making: Node,
}

impl Plan<'_> {
    /// The winner's moves at a vertex of the first player, which a step enters.
    pub fn draft(&self, store: &mut Store, vertex: usize, step: Step) -> Result<Draft, AllocError>
        requires { IsReadyAt self.now store.old vertex step }
        ensures keeps { Keeps store.old store.new }
        ensures draft { IfOk result (IsDraft self.now store.new step.state step.priority) }
    {
        if self.moves_first {
            self.first_draft(store, vertex, step)
        } else {
            self.second_draft(store, vertex, step)
        }
    }

    /// The moves of a winner who moves first: one letter, and the steps behind it.
    fn first_draft(&self, store: &mut Store, vertex: usize, step: Step) -> Result<Draft, AllocError>
        requires turn { self.now.moves_first ≡ true }
        requires at { IsReadyAt self.now store.old vertex step }
        ensures keeps { Keeps store.old store.new }
        ensures draft { IfOk result (IsDraft self.now store.new step.state step.priority) }
    {
        let letter = self.letter_at(vertex, step.state);
        let node = self.setting.automaton.node(step.state);
        let steps = store.behind(node, self.setting.first, letter)?;
        let bits = store.letter_bits(letter, self.setting.first)?;
        Ok(Draft { steps, bits })
    }

    /// The letter that a winner who moves first chooses at a vertex.
    fn letter_at(&self, vertex: usize, state: u32) -> u64
        requires within { vertex < length self.now.certificate.now.entries }
        requires moves { (letter : ℕ) × IsFirstMove (play_of self.now) vertex state letter }
        ensures { IsFirstMove (play_of self.now) vertex state result }
    {
        let Some(chosen) = self.certificate.choice(vertex) else {
            unreachable!();
        };
        match self.key_of(chosen) {
            Key::Second { letter, .. } => letter,
            Key::First { .. } => unreachable!(),
        }
    }

    fn key_of(&self, vertex: usize) -> Key
        requires { vertex < length self.now.others.now }
        ensures { StandsAt self.now.others.now vertex result }
    {
        self.others[vertex]
    }

    /// The leaf that is noted for a listed key.
    fn leaf_at(&self, place: usize) -> Option<u64>
        requires { place < length self.now.leaves.items }
        ensures { result ≡ slice_index_or self.now.leaves.items place None }
    {
        self.leaves[place]
    }

    /// The moves of a winner who moves second: behind each letter, the first of the arena's moves at this state that
    /// can be made there, by its least letter.
    fn second_draft(
        &self,
        store: &mut Store,
        vertex: usize,
        step: Step,
    ) -> Result<Draft, AllocError>
        requires turn { self.now.moves_first ≡ false }
        requires at { IsReadyAt self.now store.old vertex step }
        ensures keeps { Keeps store.old store.new }
        ensures draft { IfOk result (IsDraft self.now store.new step.state step.priority) }
    {
        let moves = self.moves_at(store, vertex, step)?;
        let bits = store.least_bits(moves.making, self.setting.second)?;
        Ok(Draft {
            steps: moves.steps,
            bits,
        })
    }

    /// The steps of these moves, and the letters that make them.
    fn moves_at(&self, store: &mut Store, vertex: usize, step: Step) -> Result<Moves, AllocError>
        requires turn { self.now.moves_first ≡ false }
        requires at { IsReadyAt self.now store.old vertex step }
        ensures keeps { Keeps store.old store.new }
        ensures tried { IfOk result (λ moves. TriesMoves self.now store.new step.state
            (successors_of self.now.arena.now vertex) (length (successors_of self.now.arena.now vertex)) moves) }
    {
        let none = store.none()?;
        let mut moves = Moves {
            steps: none,
            making: none,
        };
        for number in 0..self.arena.degree(vertex) {
            let next = self.arena.successor(vertex, number);
            moves = self.with_move(store, step.state, next, moves)?;
        }
        Ok(moves)
    }

    /// Adds the move at one of the arena's vertices, for letters at which there is no move yet.
    fn with_move(
        &self,
        store: &mut Store,
        state: u32,
        vertex: usize,
        moves: Moves,
    ) -> Result<Moves, AllocError>
        requires turn { self.now.moves_first ≡ false }
        requires ready { IsReady self.now store.old }
        requires held { IsNode store.old moves.steps × IsNode store.old moves.making }
        requires next { (v : ℕ) × (p : ℕ) × StandsAt (play_of self.now).keys v (First state p) ×
            Contains (successors_of self.now.arena.now v) vertex }
        ensures keeps { Keeps store.old store.new }
        ensures tried { IfOk result (λ made. (vertices : List ℕ) (k : ℕ) → slice_get vertices k ≡ Some vertex →
            TriesMoves self.now store.old state vertices k moves →
            TriesMoves self.now store.new state vertices (k + 1) made) }
    {
        let Some(leaf) = self.move_at(vertex, state) else {
            return Ok(moves);
        };
        let made = self.single(store, state, leaf)?;
        joined(store, moves, made)
    }

    /// The move of a winner who moves second at one of the arena's vertices, as a leaf of the automaton's diagrams.
    fn move_at(&self, vertex: usize, state: u32) -> Option<u64>
        requires turn { self.now.moves_first ≡ false }
        requires ready { (t : Table) × IsReady self.now t }
        requires next { (v : ℕ) × (p : ℕ) × StandsAt (play_of self.now).keys v (First state p) ×
            Contains (successors_of self.now.arena.now v) vertex }
        ensures { MatchOption result (NeverMoves self.now state vertex) (IsMoveLeaf self.now state vertex) }
    {
        let Some(chosen) = self.certificate.choice(vertex) else {
            return None;
        };
        self.leaf_at(chosen)
    }

    /// One step, where it can be made, and the letters that make it.
    fn single(&self, store: &mut Store, state: u32, leaf: u64) -> Result<Moves, AllocError>
        requires ready { IsReady self.now store.old }
        requires state { state ≤ self.now.setting.now.automaton.now.states }
        requires leaf { leaf < length self.now.setting.now.automaton.now.steps }
        ensures keeps { Keeps store.old store.new }
        ensures single { IfOk result (IsSingle self.now.setting.now store.new state leaf) }
    {
        let node = self.setting.automaton.node(state);
        let making = store.selected(node, leaf)?;
        let behind = store.projected(making, self.setting.second)?;
        let steps = store.guard(behind, leaf)?;
        Ok(Moves { steps, making })
    }
}

/// The first moves, and the second moves at letters at which there is none of the first.
fn joined(store: &mut Store, first: Moves, second: Moves) -> Result<Moves, AllocError>
    requires first { IsNode store.old first.steps × IsNode store.old first.making }
    requires second { IsNode store.old second.steps × IsNode store.old second.making }
    ensures keeps { Keeps store.old store.new }
    ensures joined { IfOk result (IsJoined store.old store.new first second) }
{
    let steps = store.choose(first.steps, first.steps, second.steps)?;
    let making = store.choose(first.steps, first.making, second.making)?;
    Ok(Moves { steps, making })
}
