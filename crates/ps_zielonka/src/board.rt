//! What is known of each vertex.

ghost use Rattle.std.specs.Prelude.{◌≡◌, ◌≢◌, ◌+◌, ◌-◌, ◌<◌, ◌≤◌, ℕ, Bool, false, IfSome, IfNone, OnOk, IsTrue, length};
ghost use Rattle.std.specs.Prelude.{take, slice_index, replicate, IfOk, []};
ghost use Rattle.ps_game.specs.Games.{vertex_count, HasEdge};
ghost use Rattle.ps_attractor.specs.Tables.{level_of, moves_of};
ghost use Rattle.ps_attractor.specs.Aims.{IsPosed, IsSetOfPlaced, IsAttracted, IsGrown, StandsFrom, rank_of};
ghost use Rattle.ps_zielonka.specs.Inner.Levels.{code_of};
ghost use Rattle.ps_zielonka.specs.Inner.Aims.{aim_of};
ghost use Rattle.ps_zielonka.specs.Inner.Nests.{IsGiven, IsWonStep, IsKeptAt, IsLostAt, StandsBetween, IsTakenOff};
ghost use Rattle.ps_zielonka.specs.Inner.Nests.{IsReopened};
ghost use Rattle.ps_zielonka.specs.Inner.Boards.{IsBoardOf, IsVertexOn, OnlyMoves, HasTurn};

use crate::attraction::Attraction;
use crate::frame::Frame;
use crate::level::{Level, PlacedLevel};
use ps_attractor::{Adjacency, Tables};
use ps_game::{Arena, Numbers, Player, Width};
use std::alloc::{AllocError, Global};

/// The level, the move and the winner of each vertex.
#[derive(Drop)]
pub struct Board<W: Width> {
    /// The attractor's tables; their trail lists the placed (decided or attracted) vertices in order.
    pub tables: Tables<W>,
    /// The winner of each placed vertex.
    pub winner: Vec<Player>,
    /// A buffer for `reopen`.
    pub spare: Numbers<W>,
}

impl<W: Width> Board<W> {
    /// A board without decided vertices.
    pub fn undecided(alloc: Global, count: usize) -> Result<Board<W>, AllocError>
        requires { count ≤ W.LIMIT }
        ensures levels { IfOk result (λ board. board.tables.level ≡ replicate count (code_of Level.Unplaced)) }
        ensures moves { IfOk result (λ board. board.tables.moves ≡ replicate count 0) }
        ensures trail { IfOk result (λ board. board.tables.trail ≡ []) }
        ensures winners { IfOk result (λ board. board.winner.items ≡ replicate count 0) }
    {
        Ok(Board {
            tables: Tables::new(alloc, count, Level::Unplaced.code())?,
            winner: vec![in alloc; Player::EVEN; count]?,
            spare: Numbers::with_capacity(alloc, 0)?,
        })
    }

    /// Extends the trail by the player's attractor to its vertices from index `begin` on, all of which the player then
    /// wins.
    pub fn attract<A: Arena>(
        &mut self,
        edges: &Adjacency<'_, A, W>,
        attraction: &Attraction,
    ) -> Result<(), AllocError>
        requires fits { IsBoardOf (A.game edges.now.arena.now) self.old }
        requires fits_width { code_of attraction.now.level < W.LIMIT }
        requires begin { attraction.now.begin ≤ length self.old.tables.trail }
        ensures fits { OnOk result (IsBoardOf (A.game edges.now.arena.now) self.new) }
        ensures grown { OnOk result (IsGrown (aim_of attraction.now) self.old.tables self.new.tables) }
        ensures attracted { OnOk result ((subgame target set : ℕ → Bool) →
            IsPosed (A.game edges.now.arena.now) (aim_of attraction.now) self.old.tables subgame target →
            IsSetOfPlaced (aim_of attraction.now) self.new.tables subgame set →
            IsAttracted (A.game edges.now.arena.now) subgame attraction.now.player target set (moves_of self.new.tables)
            (rank_of (aim_of attraction.now) self.new.tables)) }
        ensures given { OnOk result (IsGiven attraction.now.player attraction.now.begin self.new.tables
            self.old.winner.items self.new.winner.items) }
    {
        self.tables.attract(edges, attraction.aim())?;
        self.give(attraction.player, attraction.begin);
        Ok(())
    }

    fn give(&mut self, player: Player, begin: usize)
        requires begin { begin ≤ length self.old.tables.trail }
        requires winners { (j : ℕ) → j < length self.old.tables.trail →
            slice_index self.old.tables.trail j < length self.old.winner.items }
        ensures tables { self.new.tables ≡ self.old.tables }
        ensures winners { length self.new.winner.items ≡ length self.old.winner.items }
        ensures given { IsGiven player begin self.new.tables self.old.winner.items self.new.winner.items }
    {
        for place in begin..self.tables.placed() {
            self.winner[self.tables.vertex_at(place)] = player;
        }
    }

    /// Whether the player keeps each top, at which its moves are written. Then it wins all that the opponent did not.
    pub fn is_kept<A: Arena>(
        &mut self,
        edges: &Adjacency<'_, A, W>,
        frame: &Frame,
        placed: PlacedLevel,
    ) -> bool
        requires fits { IsBoardOf (A.game edges.now.arena.now) self.old }
        requires end { frame.now.top ≤ length self.old.tables.trail }
        ensures moved { OnlyMoves (A.game edges.now.arena.now) self.old self.new
            (StandsBetween self.old.tables frame.now.turn frame.now.top) }
        ensures kept { IsTrue result → (v : ℕ) → StandsBetween self.old.tables frame.now.turn frame.now.top v →
            IsKeptAt (A.game edges.now.arena.now) self.new.tables self.old.winner.items (code_of placed.level)
            frame.now.player
            (1 - frame.now.player) v }
        ensures lost { result ≡ false → (v : ℕ) × StandsBetween self.old.tables frame.now.turn frame.now.top v ×
            IsLostAt (A.game edges.now.arena.now) self.old.tables self.old.winner.items (code_of placed.level)
            frame.now.player
            (1 - frame.now.player) v }
    {
        for place in frame.turn..frame.top {
            let vertex = self.tables.vertex_at(place);
            if !self.keeps(edges, frame.player, placed, vertex) {
                return false;
            }
        }
        true
    }

    /// Whether the player can make each play within the subgame (of levels above `placed`) go on from a vertex to one
    /// that it won. At its own vertex, the first such successor becomes its move.
    fn keeps<A: Arena>(
        &mut self,
        edges: &Adjacency<'_, A, W>,
        player: Player,
        placed: PlacedLevel,
        vertex: usize,
    ) -> bool
        requires { IsVertexOn (A.game edges.now.arena.now) self.old vertex }
        ensures moved { OnlyMoves (A.game edges.now.arena.now) self.old self.new (λ v. v ≡ vertex) }
        ensures kept { IsTrue result →
            IsKeptAt (A.game edges.now.arena.now) self.new.tables self.old.winner.items (code_of placed.level)
            player (1 - player) vertex }
        ensures lost { result ≡ false → IsLostAt (A.game edges.now.arena.now) self.old.tables self.old.winner.items
            (code_of placed.level) player (1 - player) vertex }
    {
        if !player.owns(edges.arena, vertex) {
            return self
                .won_successor(edges, vertex, placed, player.opponent())
                .is_none();
        }
        match self.won_successor(edges, vertex, placed, player) {
            Some(successor) => {
                self.tables.choose(vertex, successor);
                true
            }
            None => false,
        }
    }

    fn won_successor<A: Arena>(
        &self,
        edges: &Adjacency<'_, A, W>,
        vertex: usize,
        placed: PlacedLevel,
        player: Player,
    ) -> Option<usize>
        requires { IsVertexOn (A.game edges.now.arena.now) self.now vertex }
        ensures some { IfSome result
            (IsWonStep (A.game edges.now.arena.now) self.now.tables self.now.winner.items (code_of placed.level)
            player vertex) }
        ensures none { IfNone result ((w : ℕ) → HasEdge (A.game edges.now.arena.now) vertex w →
            code_of placed.level < level_of self.now.tables w → slice_index self.now.winner.items w ≢ player) }
    {
        for number in 0..edges.arena.degree(vertex) {
            let successor = edges.arena.successor(vertex, number);
            if self.tables.level(successor) > placed.level.code()
                && self.winner[successor] == player
            {
                return Some(successor);
            }
        }
        None
    }

    /// Takes the vertices from index `turn` on off the trail: those that the player won become `Unplaced`, and the
    /// others return with the given level.
    pub fn reopen(&mut self, frame: &Frame, placed: PlacedLevel) -> Result<(), AllocError>
        requires turn { HasTurn self.old.tables W.LIMIT frame.now.turn }
        requires winners { length self.old.winner.items ≡ length self.old.tables.level }
        requires fits_width { code_of placed.level < W.LIMIT }
        ensures winner { self.new.winner.items ≡ self.old.winner.items }
        ensures reopened { OnOk result
            (IsReopened self.old.winner.items frame.now.player (code_of placed.level) frame.now.turn
            (StandsFrom self.old.tables frame.now.turn) self.old.tables self.new.tables) }
    {
        self.take_off(frame.turn)?;
        for place in 0..self.spare.len() {
            let vertex = self.spare.at(place);
            if self.winner[vertex] == frame.player {
                self.tables.set_level(vertex, Level::Unplaced.code());
            } else {
                self.tables.place(vertex, placed.level.code())?;
            }
        }
        Ok(())
    }

    fn take_off(&mut self, turn: usize) -> Result<(), AllocError>
        requires { HasTurn self.old.tables W.LIMIT turn }
        ensures winner { self.new.winner.items ≡ self.old.winner.items }
        ensures level { self.new.tables.level ≡ self.old.tables.level }
        ensures moves { self.new.tables.moves ≡ self.old.tables.moves }
        ensures trail { OnOk result (self.new.tables.trail ≡ take turn self.old.tables.trail) }
        ensures spare { OnOk result (IsTakenOff turn self.old.tables.trail self.new.spare) }
    {
        self.spare.truncate(0);
        for place in turn..self.tables.placed() {
            self.spare.push(self.tables.vertex_at(place))?;
        }
        self.tables.cut(turn);
        Ok(())
    }
}
