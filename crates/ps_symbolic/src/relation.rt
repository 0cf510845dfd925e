//! The winner's moves, as a relation.
//!
//! The memory of a winner is whose turn it is, of the children of each node of the tree by which the player wins; at
//! other nodes the state tells the child. So a node by whose colours the player wins needs the sum of what its children
//! need, and others the most of it (Dziembowski, Jurdzinski, Walukiewicz, "How Much Memory is Needed to Win Infinite
//! Games?", 1997). Each turn is a number, in bits. The relation is between the turn, the state, the letter and the next
//! turn, which is free where the play is won for good. An edge that leaves the colours of a child gives the turn to the
//! next child.
//!
//! What nodes give is computed again here, from what the game has kept, down to each leaf. There are at most 65,536
//! turns; the steps are those of the diagrams' budget.

use crate::arena::{MEMORY, turn_next, turn_now};
use crate::game::{DEPTH, Game};
use ps_parts::column::Column;
use ps_parts::diagrams::{self, Diagram, Literal};
use ps_parts::stop::Stop;
use std::alloc::Global;

/// The most rounds of a fixpoint.
const ROUNDS: u32 = 1 << 20;

/// The number of turns of a node that is not computed.
const UNKNOWN: u32 = 0;

/// The winner's moves, as far as they are recorded.
#[derive(Drop)]
struct Relation {
    /// The number of turns of each node.
    turns: Column,
    /// The number of bits of a turn.
    bits: u32,
    /// The relation.
    moves: Diagram,
}

/// The winner's moves, in the store of the game.
#[derive(Clone, Copy)]
pub(crate) struct Moves {
    /// The number of bits of a turn.
    pub(crate) bits: u32,
    pub(crate) relation: Diagram,
}

/// The moves from some states from which the player of a game wins.
pub(crate) fn moves_of(alloc: Global, game: &mut Game, states: Diagram) -> Result<Moves, Stop> {
    let mut relation = Relation::new(alloc);
    relation.fill(DEPTH, game, states)?;
    Ok(Moves {
        bits: relation.bits,
        relation: relation.moves,
    })
}

/// A node for some turns and states.
#[derive(Clone, Copy)]
struct Frame {
    node: u32,
    /// The edges that do well for nodes above.
    escape: Diagram,
    /// The same, with the next turn.
    moves: Diagram,
    /// The turns.
    turns: Diagram,
    /// The first turn of the node.
    first: u32,
    /// The states.
    states: Diagram,
}

/// The edges of a frame that stay within the colours of its node and lead to its fixpoint, or nearer to it.
#[derive(Clone, Copy)]
struct Stays {
    edges: Diagram,
    /// The least turn that is none of the node's.
    end: u32,
}

impl Relation {
    /// No moves.
    fn new(alloc: Global) -> Self {
        Relation {
            turns: Column::new(alloc, UNKNOWN),
            bits: 0,
            moves: diagrams::FALSE,
        }
    }

    /// Adds all moves.
    fn fill(&mut self, depth: u32, game: &mut Game, states: Diagram) -> Result<(), Stop> {
        let most = self.turns(depth, game, 0)?.saturating_sub(1);
        self.bits = u32::BITS.saturating_sub(most.leading_zeros());
        if self.bits > MEMORY {
            return Err(Stop::Limit);
        }
        let frame = Frame {
            node: 0,
            escape: game.won,
            moves: game.won,
            turns: diagrams::TRUE,
            first: 0,
            states,
        };
        self.record(depth, game, frame)
    }

    /// The number of turns of a node.
    fn turns(&mut self, depth: u32, game: &Game, node: u32) -> Result<u32, Stop> {
        let known = self.turns.get(node);
        if known != UNKNOWN {
            return Ok(known);
        }
        if depth == 0 {
            return Err(Stop::Limit);
        }
        let is_won = game.does_well(node);
        let children = game.tree.children(node);
        let mut made = 0u32;
        for place in children.start..children.stop {
            let turns = self.turns(depth - 1, game, game.tree.child(place))?;
            made = if is_won {
                made.saturating_add(turns)
            } else {
                made.max(turns)
            };
        }
        self.turns.set(node, made.max(1))?;
        Ok(made.max(1))
    }

    /// Records the moves of a frame.
    #[cycle(record)]
    fn record(&mut self, depth: u32, game: &mut Game, frame: Frame) -> Result<(), Stop> {
        if depth == 0 {
            return Err(Stop::Limit);
        }
        let region = game.region(depth, frame.node, frame.escape)?;
        let end = frame.first.saturating_add(self.turns.get(frame.node));
        if game.does_well(frame.node) {
            let inside = game.inside(frame.node)?;
            let edges = game.staying(inside, region)?;
            return self.record_each(depth - 1, game, frame, Stays { edges, end });
        }
        let mut near = diagrams::FALSE;
        for _ in 0..ROUNDS {
            if near == region {
                return Ok(());
            }
            let states = game.arena.diagrams.difference(frame.states, near)?;
            let inside = game.inside(frame.node)?;
            let edges = game.staying(inside, near)?;
            let nearer = Frame { states, ..frame };
            self.record_one(depth - 1, game, nearer, Stays { edges, end })?;
            near = game.improved(depth - 1, frame.node, frame.escape, near)?;
        }
        Err(Stop::Limit)
    }

    /// Records the moves of a frame by whose colours the player wins.
    #[cycle(record)]
    fn record_each(
        &mut self,
        depth: u32,
        game: &mut Game,
        frame: Frame,
        stays: Stays,
    ) -> Result<(), Stop> {
        let children = game.tree.children(frame.node);
        if children.start >= children.stop {
            return self.record_leaf(game, frame, stays.edges);
        }
        let mut first = frame.first;
        for place in children.start..children.stop {
            let node = game.tree.child(place);
            let stop = first.saturating_add(self.turns.get(node));
            let turns = if place == children.start {
                let others = self.turns_between(game, stop, stays.end)?;
                game.arena.diagrams.difference(frame.turns, others)?
            } else {
                let taken = self.turns_between(game, first, stop)?;
                game.arena.diagrams.both(frame.turns, taken)?
            };
            let next = if stop >= stays.end { frame.first } else { stop };
            let child = self.child(game, frame, stays.edges, node, next)?;
            let child = Frame {
                turns,
                first,
                ..child
            };
            self.record(depth, game, child)?;
            first = stop;
        }
        Ok(())
    }

    /// Records the moves of a frame by whose colours the player loses: for each state those by the first child that
    /// serves.
    #[cycle(record)]
    fn record_one(
        &mut self,
        depth: u32,
        game: &mut Game,
        frame: Frame,
        stays: Stays,
    ) -> Result<(), Stop> {
        let children = game.tree.children(frame.node);
        if children.start >= children.stop {
            let near = game.improved_leaf(frame.escape, stays.edges)?;
            let states = game.arena.diagrams.both(frame.states, near)?;
            return self.record_leaf(game, Frame { states, ..frame }, stays.edges);
        }
        let mut rest = frame.states;
        for place in children.start..children.stop {
            let node = game.tree.child(place);
            let child = self.child(game, frame, stays.edges, node, frame.first)?;
            let region = game.region(depth, node, child.escape)?;
            let states = game.arena.diagrams.both(rest, region)?;
            if states != diagrams::FALSE {
                self.record(depth, game, Frame { states, ..child })?;
                rest = game.arena.diagrams.difference(rest, region)?;
            }
        }
        Ok(())
    }

    /// The frame of a child, if the turn goes to a given one where the colours of the child are left.
    fn child(
        &mut self,
        game: &mut Game,
        frame: Frame,
        stays: Diagram,
        node: u32,
        next: u32,
    ) -> Result<Frame, Stop> {
        let escape = game.escaping(node, frame.escape, stays)?;
        let inside = game.inside(node)?;
        let leaves = game.arena.diagrams.difference(stays, inside)?;
        let moves = self.with_turn(game, leaves, next)?;
        let moves = game.arena.diagrams.either(frame.moves, moves)?;
        Ok(Frame {
            node,
            escape,
            moves,
            ..frame
        })
    }

    /// Records the moves of a leaf.
    fn record_leaf(&mut self, game: &mut Game, frame: Frame, stays: Diagram) -> Result<(), Stop> {
        let stays = self.with_turn(game, stays, frame.first)?;
        let diagrams = &mut game.arena.diagrams;
        let moves = diagrams.either(frame.moves, stays)?;
        let here = diagrams.both(frame.turns, frame.states)?;
        let moves = diagrams.both(here, moves)?;
        self.moves = diagrams.either(self.moves, moves)?;
        Ok(())
    }

    /// Some edges, with a next turn.
    fn with_turn(&self, game: &mut Game, edges: Diagram, turn: u32) -> Result<Diagram, Stop> {
        let diagrams = &mut game.arena.diagrams;
        let mut made = edges;
        for bit in (0..self.bits).rev() {
            let literal = diagrams.literal(Literal {
                variable: turn_next(bit),
                value: turn.checked_shr(bit).unwrap_or(0) % 2 == 1,
            })?;
            made = diagrams.both(literal, made)?;
        }
        Ok(made)
    }

    /// The turns from one on, before another.
    fn turns_between(&self, game: &mut Game, first: u32, end: u32) -> Result<Diagram, Stop> {
        let before_end = self.turns_before(game, end)?;
        let before_first = self.turns_before(game, first)?;
        game.arena.diagrams.difference(before_end, before_first)
    }

    /// The turns before one.
    fn turns_before(&self, game: &mut Game, end: u32) -> Result<Diagram, Stop> {
        if end.checked_shr(self.bits).unwrap_or(0) > 0 {
            return Ok(diagrams::TRUE);
        }
        let mut made = diagrams::FALSE;
        for bit in 0..self.bits {
            let is_set = end.checked_shr(bit).unwrap_or(0) % 2 == 1;
            let (low, high) = if is_set {
                (diagrams::TRUE, made)
            } else {
                (made, diagrams::FALSE)
            };
            made = game.arena.diagrams.split(turn_now(bit), low, high)?;
        }
        Ok(made)
    }
}
