//! The game, solved by nested fixpoints along the Zielonka tree.
//!
//! A player wins from a state with a node of the tree if, from there on, an edge is taken that leaves the colours of
//! the node and does well for a node above it, or else just colours of the node recur, and the player wins by them.
//! Where the player wins by all colours of the node, this is a greatest fixpoint: for each child, the player wins until
//! an edge leaves the child's colours and leads to the fixpoint. Else it is a least one, for some child. At a leaf a
//! step is made. (Hausmann, Lehaut, Piterman, "Symbolic Solution of Emerson-Lei Games for Reactive Synthesis", 2024,
//! whose marks are those of states.) First the states are found from which the player is never lost.
//!
//! What a node gives depends on itself and on what is won by leaving it, so it is computed once for each. The steps are
//! those of the diagrams' budget.

use crate::arena::Arena;
use crate::tree::Tree;
use ps_keys::KeyMap;
use ps_parts::column::Column;
use ps_parts::diagrams::substitution::Substitution;
use ps_parts::diagrams::{self, Diagram};
use ps_parts::stop::Stop;
use ps_tlsf::Side;
use std::alloc::Global;

/// The most rounds of a fixpoint.
const ROUNDS: u32 = 1 << 20;

/// The greatest depth of the tree.
pub(crate) const DEPTH: u32 = 66;

/// The number of a diagram that is not made.
const UNKNOWN: Diagram = u32::MAX;

/// How a player moves.
#[derive(Clone, Copy)]
pub(crate) struct Turn {
    /// Whether the player is the controller.
    pub(crate) is_controller: bool,
    /// Whether the player moves first in a step.
    pub(crate) is_first: bool,
    /// The variables that the player sets.
    pub(crate) own: Diagram,
    /// Those that the other player sets.
    pub(crate) other: Diagram,
}

impl Turn {
    /// That of a player who sets nothing.
    pub(crate) const NONE: Turn = Turn {
        is_controller: true,
        is_first: false,
        own: diagrams::TRUE,
        other: diagrams::TRUE,
    };

    /// The side whose propositions the player sets.
    pub(crate) fn side(self) -> Side {
        if self.is_controller {
            Side::Outputs
        } else {
            Side::Inputs
        }
    }
}

/// The game for a player.
#[derive(Drop)]
pub(crate) struct Game {
    pub(crate) arena: Arena,
    pub(crate) tree: Tree,
    pub(crate) turn: Turn,
    /// What each bit is in the next state.
    next: Substitution,
    /// The edges that leave the colours of no node, as far as they were made.
    inside: Column,
    /// The edges at which the player has won.
    pub(crate) won: Diagram,
    /// The edges that decide nothing.
    undecided: Diagram,
    /// The states from which the player is never lost.
    safe: Diagram,
    /// What nodes give, by the edges that do well for nodes above.
    regions: KeyMap<(u32, u32), Diagram>,
}

impl Game {
    /// The game for a player.
    pub(crate) fn new(alloc: Global, arena: Arena, tree: Tree, turn: Turn) -> Self {
        Game {
            arena,
            tree,
            turn,
            next: Substitution::new(alloc),
            inside: Column::new(alloc, UNKNOWN),
            won: diagrams::FALSE,
            undecided: diagrams::TRUE,
            safe: diagrams::TRUE,
            regions: KeyMap::new(alloc),
        }
    }

    /// Tells what each bit is in the next state.
    fn begin(&mut self) -> Result<(), Stop> {
        for bit in &self.arena.bits {
            self.next.set(bit.variable, bit.next)?;
        }
        Ok(())
    }

    /// The states from which the player wins.
    fn solve(&mut self) -> Result<Diagram, Stop> {
        self.decide()?;
        self.find_safe()?;
        self.region(DEPTH, 0, self.won)
    }

    /// Whether the player wins from the first state.
    pub(crate) fn is_won_from_start(&mut self) -> Result<bool, Stop> {
        self.begin()?;
        let region = self.solve()?;
        let start = self.arena.start()?;
        self.arena.diagrams.is_within(start, region)
    }

    /// The states from which the player wins, once the game is solved.
    pub(crate) fn won_states(&mut self) -> Result<Diagram, Stop> {
        let won = self.won;
        self.region(DEPTH, 0, won)
    }

    /// Tells which edges decide the play.
    fn decide(&mut self) -> Result<(), Stop> {
        let arena = &mut self.arena;
        let decided = arena.diagrams.either(arena.won, arena.lost)?;
        self.undecided = arena.diagrams.negated(decided)?;
        self.won = if self.turn.is_controller {
            arena.won
        } else {
            arena.lost
        };
        Ok(())
    }

    /// Finds the states from which the player is never lost.
    fn find_safe(&mut self) -> Result<(), Stop> {
        self.safe = diagrams::TRUE;
        for _ in 0..ROUNDS {
            let stays = self.staying(self.undecided, self.safe)?;
            let good = self.arena.diagrams.either(self.won, stays)?;
            let safe = self.forced(good)?;
            if safe == self.safe {
                return Ok(());
            }
            self.safe = safe;
        }
        Err(Stop::Limit)
    }

    /// The edges among some that lead to some states.
    pub(crate) fn staying(&mut self, edges: Diagram, states: Diagram) -> Result<Diagram, Stop> {
        let leads = self.next.applied(&mut self.arena.diagrams, states)?;
        self.arena.diagrams.both(edges, leads)
    }

    /// The states in which the player can see to it that one of some edges is taken.
    fn forced(&mut self, edges: Diagram) -> Result<Diagram, Stop> {
        let Turn { own, other, .. } = self.turn;
        let diagrams = &mut self.arena.diagrams;
        if self.turn.is_first {
            let kept = diagrams.forall(other, edges)?;
            diagrams.exists(own, kept)
        } else {
            let met = diagrams.exists(own, edges)?;
            diagrams.forall(other, met)
        }
    }

    /// Whether the player wins if just the colours of a node recur.
    pub(crate) fn does_well(&self, node: u32) -> bool {
        self.tree.is_won(node) == self.turn.is_controller
    }

    /// The edges that decide nothing, and whose colours are those of a node.
    pub(crate) fn inside(&mut self, node: u32) -> Result<Diagram, Stop> {
        let known = self.inside.get(node);
        if known != UNKNOWN {
            return Ok(known);
        }
        let mut outside = diagrams::FALSE;
        let set = self.tree.set(node);
        for (colour, edges) in self.arena.colours.iter().enumerate() {
            if (set >> (colour % 64)) % 2 == 0 {
                outside = self.arena.diagrams.either(outside, *edges)?;
            }
        }
        let made = self.arena.diagrams.difference(self.undecided, outside)?;
        self.inside.set(node, made)?;
        Ok(made)
    }

    /// The states from which the player wins with a node, if some edges do well for nodes above.
    #[cycle(region)]
    pub(crate) fn region(
        &mut self,
        depth: u32,
        node: u32,
        escape: Diagram,
    ) -> Result<Diagram, Stop> {
        if let Some(known) = self.regions.get((node, escape)) {
            return Ok(known);
        }
        if depth == 0 {
            return Err(Stop::Limit);
        }
        let mut region = self.first_guess(node);
        for _ in 0..ROUNDS {
            let next = self.improved(depth - 1, node, escape, region)?;
            if next == region {
                self.regions.put((node, escape), region)?;
                return Ok(region);
            }
            region = next;
        }
        Err(Stop::Limit)
    }

    /// Where the fixpoint of a node begins.
    pub(crate) fn first_guess(&self, node: u32) -> Diagram {
        if self.does_well(node) {
            self.safe
        } else {
            diagrams::FALSE
        }
    }

    /// One round of the fixpoint of a node.
    #[cycle(region)]
    pub(crate) fn improved(
        &mut self,
        depth: u32,
        node: u32,
        escape: Diagram,
        region: Diagram,
    ) -> Result<Diagram, Stop> {
        let inside = self.inside(node)?;
        let stays = self.staying(inside, region)?;
        let children = self.tree.children(node);
        if children.start >= children.stop {
            return self.improved_leaf(escape, stays);
        }
        let is_won = self.does_well(node);
        let mut made = if is_won { self.safe } else { diagrams::FALSE };
        for place in children.start..children.stop {
            let child = self.tree.child(place);
            let escape = self.escaping(child, escape, stays)?;
            let region = self.region(depth, child, escape)?;
            made = if is_won {
                self.arena.diagrams.both(made, region)?
            } else {
                self.arena.diagrams.either(made, region)?
            };
        }
        Ok(made)
    }

    /// One round of the fixpoint of a leaf.
    pub(crate) fn improved_leaf(
        &mut self,
        escape: Diagram,
        stays: Diagram,
    ) -> Result<Diagram, Stop> {
        let good = self.arena.diagrams.either(escape, stays)?;
        self.forced(good)
    }

    /// The edges that do well for nodes above a child, if some do for its parent, by leaving its colours.
    pub(crate) fn escaping(
        &mut self,
        child: u32,
        escape: Diagram,
        stays: Diagram,
    ) -> Result<Diagram, Stop> {
        let inside = self.inside(child)?;
        let leaves = self.arena.diagrams.difference(stays, inside)?;
        self.arena.diagrams.either(escape, leaves)
    }
}
