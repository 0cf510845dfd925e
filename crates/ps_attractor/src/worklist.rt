//! The computation of an attractor.

ghost use Rattle.std.specs.Prelude.{◌≡◌, ◌≢◌, ◌+◌, ◌<◌, ◌≤◌, ℕ, Bool, IfSome, IfNone, OnOk, OnErr, IsTrue, false};
ghost use Rattle.std.specs.Prelude.{length, slice_index};
ghost use Rattle.ps_game.specs.Games.{HasEdge, successors_of};
ghost use Rattle.ps_attractor.specs.Tables.{TablesData, FitsGame, level_of, moves_of};
ghost use Rattle.ps_attractor.specs.Levels.{IsLevel};
ghost use Rattle.ps_attractor.specs.Aims.{IsPosed, IsSetOfPlaced, IsAttracted, IsGrown, rank_of};
ghost use Rattle.ps_attractor.specs.Steps.{IsReady, CanLook, HasVertex, HasFree, Look, Reaching, From, free_count};

use crate::aim::Aim;
use crate::sources::Adjacency;
use crate::tables::Tables;
use ps_game::{Arena, Width};
use std::alloc::AllocError;

impl<W: Width> Tables<W> {
    /// Extends the trail by what is attracted to the target, which is the trail from index `aim.begin` on. For each
    /// entry in order, those predecessors are appended from which the player can force every play to the target. Fails
    /// if out of memory; what was attracted so far then stays in the trail.
    pub fn attract<A: Arena>(
        &mut self,
        edges: &Adjacency<'_, A, W>,
        aim: Aim,
    ) -> Result<(), AllocError>
        requires fits { FitsGame (A.game edges.now.arena.now) self.old }
        requires differ { aim.level ≢ aim.free }
        requires fits_width { IsLevel W.LIMIT aim.level }
        requires begin { aim.begin ≤ length self.old.trail }
        ensures fits { FitsGame (A.game edges.now.arena.now) self.new }
        ensures grown { OnOk result (IsGrown aim self.old self.new) }
        ensures attracted { OnOk result ((subgame target set : ℕ → Bool) →
            IsPosed (A.game edges.now.arena.now) aim self.old subgame target → IsSetOfPlaced aim self.new subgame set →
            IsAttracted (A.game edges.now.arena.now) subgame aim.player target set (moves_of self.new)
            (rank_of aim self.new)) }
    {
        let mut place = aim.begin;
        while place < self.placed() {
            self.spread(edges, &aim, place)?;
            place += 1;
        }
        Ok(())
    }

    /// Examines each edge into the vertex at index `place`.
    fn spread<A: Arena>(
        &mut self,
        edges: &Adjacency<'_, A, W>,
        aim: &Aim,
        place: usize,
    ) -> Result<(), AllocError>
        requires ready { IsReady (A.game edges.now.arena.now) W.LIMIT aim.now self.old }
        requires differ { aim.now.level ≢ aim.now.free }
        requires after { aim.now.begin ≤ place }
        requires within { place < length self.old.trail }
        ensures fits { FitsGame (A.game edges.now.arena.now) self.new }
        ensures longer { OnOk result (length self.old.trail ≤ length self.new.trail) }
        ensures frees { OnOk result (free_count aim.now self.new + length self.new.trail ≡
            free_count aim.now self.old + length self.old.trail) }
        ensures reaching { OnOk result ((start : TablesData) → aim.now.begin ≤ length start.trail →
            Reaching (A.game edges.now.arena.now) aim.now start self.old (From place) →
            Reaching (A.game edges.now.arena.now) aim.now start self.new (From (place + 1))) }
    {
        let reached = self.vertex_at(place);
        for source in edges.sources.at(reached) {
            self.look(edges, aim, source.number(), reached)?;
        }
        Ok(())
    }

    /// Examines the edge from `source` to the attracted vertex `reached`.
    fn look<A: Arena>(
        &mut self,
        edges: &Adjacency<'_, A, W>,
        aim: &Aim,
        source: usize,
        reached: usize,
    ) -> Result<(), AllocError>
        requires { CanLook (A.game edges.now.arena.now) W.LIMIT aim.now self.old source reached }
        ensures fits { FitsGame (A.game edges.now.arena.now) self.new }
        ensures looked { OnOk result (Look (A.game edges.now.arena.now) aim.now self.old self.new source reached) }
    {
        if self.level(source) != aim.free {
            return Ok(());
        }
        if aim.player.owns(edges.arena, source) {
            self.choose(source, reached);
        } else if self.has_free(edges, source, aim.free) {
            return Ok(());
        }
        self.place(source, aim.level)
    }

    /// Whether some successor is not attracted, from where the last search ended.
    fn has_free<A: Arena>(
        &mut self,
        edges: &Adjacency<'_, A, W>,
        vertex: usize,
        free: usize,
    ) -> bool
        requires { HasVertex (A.game edges.now.arena.now) self.old vertex }
        ensures same { self.new ≡ self.old }
        ensures found { IsTrue result → HasFree (A.game edges.now.arena.now) free self.old vertex }
        ensures none { result ≡ false → (w : ℕ) → HasEdge (A.game edges.now.arena.now) vertex w →
            level_of self.old w ≢ free }
    {
        let degree = edges.arena.degree(vertex);
        let watched = self.watched(vertex).min(degree);
        let found = match self.first_free(edges, vertex, watched, degree, free) {
            Some(number) => Some(number),
            None => self.first_free(edges, vertex, 0, watched, free),
        };
        match found {
            Some(number) => {
                self.watch(vertex, number);
                true
            }
            None => false,
        }
    }

    /// The first index of such a successor, from `from` up to `to`, which is excluded.
    fn first_free<A: Arena>(
        &self,
        edges: &Adjacency<'_, A, W>,
        vertex: usize,
        from: usize,
        to: usize,
        free: usize,
    ) -> Option<usize>
        requires vertex { HasVertex (A.game edges.now.arena.now) self.now vertex }
        requires order { from ≤ to }
        requires within { to ≤ length (successors_of (A.game edges.now.arena.now) vertex) }
        ensures below { IfSome result (λ number. number < to) }
        ensures some { IfSome result (λ number. level_of self.now
            (slice_index (successors_of (A.game edges.now.arena.now) vertex) number) ≡ free) }
        ensures none { IfNone result ((k : ℕ) → from ≤ k → k < to →
            level_of self.now (slice_index (successors_of (A.game edges.now.arena.now) vertex) k) ≢ free) }
    {
        for number in from..to {
            if self.level(edges.arena.successor(vertex, number)) == free {
                return Some(number);
            }
        }
        None
    }
}
