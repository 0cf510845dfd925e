//! The steps down into a subgame and back up.

ghost use Rattle.std.specs.Prelude.{◌≡◌, ◌≢◌, ◌+◌, ◌-◌, ◌*◌, ◌<◌, ◌≤◌, ℕ, Bool, true, false, [], ◌∷◌, ◌++◌, IfOk, OnOk};
ghost use Rattle.std.specs.Prelude.{IsTrue, None, length, slice_index};
ghost use Rattle.ps_attractor.specs.Tables.{level_of};
ghost use Rattle.ps_zielonka.specs.Inner.Levels.{code_of};
ghost use Rattle.ps_zielonka.specs.Inner.Stacks.{IsStack, IsDeep, IsDone, IsSearching, IsReturning, IsTurnAt};
ghost use Rattle.ps_zielonka.specs.Inner.Stacks.{IsStep, IsResumed};
ghost use Rattle.ps_zielonka.specs.Inner.Nests.{IsNest, IsLostAt, StandsBetween};

use crate::attraction::Attraction;
use crate::board::Board;
use crate::frame::Frame;
use crate::level::{Level, PlacedLevel};
use crate::order::{falling_order, first_unplaced, place_tops};
use ps_attractor::{Adjacency, Tables};
use ps_game::{Arena, Numbers, Player, Width};
use std::alloc::{AllocError, Global};

/// The state of the solver.
#[derive(Drop)]
pub struct Nest<W: Width> {
    /// What is known of each vertex.
    pub board: Board<W>,
    /// All vertices, by descending priority.
    pub order: Numbers<W>,
    /// The calls that wait.
    pub frames: Vec<Frame>,
    /// No earlier vertex in `order` is undecided in the current call.
    pub cursor: usize,
    /// Whether the current call is solved.
    pub solved: bool,
    /// The most calls that have waited so far.
    pub depth: usize,
    /// How often vertices were placed, capped.
    pub work: u64,
}

impl<W: Width> Nest<W> {
    /// No vertex is decided, and no call waits.
    pub fn new<A: Arena>(alloc: Global, edges: &Adjacency<'_, A, W>) -> Result<Nest<W>, AllocError>
        ensures stack { IfOk result (IsStack (A.game edges.now.arena.now)) }
        ensures deep { IfOk result (IsDeep (A.game edges.now.arena.now)) }
    {
        Ok(Nest {
            board: Board::undecided(alloc, edges.arena.count())?,
            order: falling_order(alloc, edges)?,
            frames: Vec::new(alloc),
            cursor: 0,
            solved: false,
            depth: 0,
            work: 0,
        })
    }

    /// Decides each vertex, or stops once vertices were placed `budget` times; returns whether all are decided.
    pub fn solve<A: Arena>(
        &mut self,
        edges: &Adjacency<'_, A, W>,
        budget: Option<u64>,
    ) -> Result<bool, AllocError>
        requires stack { IsStack (A.game edges.now.arena.now) self.old }
        requires deep { IsDeep (A.game edges.now.arena.now) self.old }
        ensures done { IfOk result (λ done. done ≡ true → IsDone (A.game edges.now.arena.now) self.new) }
        ensures unbounded { IfOk result (λ done. budget ≡ None → done ≡ true) }
    {
        'steps: while !self.solved || !self.frames.is_empty() {
            if self.has_spent(budget) {
                return Ok(false);
            }
            if self.solved {
                self.climb(edges)?;
            } else {
                self.descend(edges)?;
            }
        }
        Ok(true)
    }

    fn has_spent(&self, budget: Option<u64>) -> bool
        ensures { budget ≡ None → result ≡ false }
    {
        budget.is_some_and(|most| self.work >= most)
    }

    /// Begins an iteration if an undecided vertex remains; else the current call is solved.
    fn descend<A: Arena>(&mut self, edges: &Adjacency<'_, A, W>) -> Result<(), AllocError>
        requires { IsSearching (A.game edges.now.arena.now) self.old }
        ensures { OnOk result (IsStep (A.game edges.now.arena.now) self.old self.new) }
    {
        let cursor = first_unplaced(&self.board.tables, &self.order, self.cursor);
        if cursor < self.order.len() {
            self.begin_turn(edges, cursor)
        } else {
            self.solved = true;
            Ok(())
        }
    }

    /// Begins an iteration at the first undecided vertex of `order`. In the first call, all tops have its priority.
    fn begin_turn<A: Arena>(
        &mut self,
        edges: &Adjacency<'_, A, W>,
        cursor: usize,
    ) -> Result<(), AllocError>
        requires { IsTurnAt (A.game edges.now.arena.now) self.old cursor }
        ensures { OnOk result (IsStep (A.game edges.now.arena.now) self.old self.new) }
    {
        let player = Player::of_priority(edges.arena.priority(self.order.at(cursor)));
        let depth = self.frames.len();
        let turn = self.board.tables.placed();
        let attraction = Attraction {
            player,
            begin: turn,
            level: Level::Attracted { depth },
        };
        let behind = place_tops(
            edges,
            &mut self.board.tables,
            &self.order,
            &attraction,
            cursor,
            self.frames.is_empty(),
        )?;
        let top = self.board.tables.placed();
        self.board.attract(edges, &attraction)?;
        self.work = work_behind(self.work, &self.board.tables, turn);
        self.frames.push(Frame {
            cursor,
            player,
            turn,
            top,
        })?;
        self.cursor = behind;
        self.depth = self.depth.max(self.frames.len());
        Ok(())
    }

    /// Returns to the last call that waits.
    fn climb<A: Arena>(&mut self, edges: &Adjacency<'_, A, W>) -> Result<(), AllocError>
        requires { IsReturning (A.game edges.now.arena.now) self.old }
        ensures { OnOk result (IsStep (A.game edges.now.arena.now) self.old self.new) }
    {
        let Some(frame) = self.frames.pop() else {
            return Ok(());
        };
        let depth = self.frames.len();
        let placed = PlacedLevel {
            level: Level::Decided { depth },
        };
        if self.board.is_kept(edges, &frame, placed) {
            Ok(())
        } else {
            self.go_on(edges, frame, placed)
        }
    }

    /// Decides what the opponent won in the recursive call, and attracts to it.
    fn go_on<A: Arena>(
        &mut self,
        edges: &Adjacency<'_, A, W>,
        frame: Frame,
        placed: PlacedLevel,
    ) -> Result<(), AllocError>
        requires nest { IsNest (A.game edges.now.arena.now) self.old.board.tables self.old.board.winner.items
            self.old.order (self.old.frames.items ++ frame ∷ []) self.old.cursor true }
        requires level { placed.level ≡ Level.Decided (length self.old.frames.items) }
        requires lost { (v : ℕ) × StandsBetween self.old.board.tables frame.turn frame.top v ×
            IsLostAt (A.game edges.now.arena.now) self.old.board.tables self.old.board.winner.items
            (code_of placed.level)
            frame.player
            (1 - frame.player) v }
        ensures { OnOk result (IsResumed (A.game edges.now.arena.now) self.old self.new) }
    {
        self.board.reopen(&frame, placed)?;
        let attraction = Attraction {
            player: frame.player.opponent(),
            begin: frame.turn,
            level: placed.level,
        };
        self.board.attract(edges, &attraction)?;
        self.work = work_behind(self.work, &self.board.tables, frame.turn);
        self.cursor = frame.cursor;
        self.solved = false;
        Ok(())
    }
}

/// Adds the number of vertices in the trail from index `turn` on.
fn work_behind<W: Width>(work: u64, tables: &Tables<W>, turn: usize) -> u64 {
    let placed = tables.placed().saturating_sub(turn);
    work.saturating_add(placed as u64)
}
