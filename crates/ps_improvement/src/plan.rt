//! The players' choices, and what follows from them.

ghost use Rattle.std.specs.Prelude.{◌≡◌, ◌<◌, ℕ, IfOk, IfSome, length};
ghost use Rattle.std.specs.Option.{ForSome};
ghost use Rattle.ps_game.specs.Games.{vertex_count};
ghost use Rattle.ps_game.specs.Regions.{move_at};

use crate::fuel::Fuel;
use crate::row::{Raised, Row, Value};
use ps_game::{Arena, Region, Strategy};
use std::alloc::{AllocError, Global};
use std::cmp::Ordering;

/// The players' choices, and the value of each vertex.
#[derive(Drop)]
pub struct Plan<'a, A: Arena> {
    alloc: Global,
    /// The game.
    pub arena: &'a A,
    /// The moves of player 0; without one, it stops.
    pub first: Strategy,
    /// The vertices of player 1 that plays may enter.
    pub opened: Region,
    /// The row of the play from each vertex, or `None` if it never stops.
    pub rows: Vec<Option<Row>>,
    ghost sized: { length rows.items ≡ vertex_count (A.game arena.now) },
    ghost moves: { length first ≡ length rows.items },
    ghost opens: { length opened ≡ length rows.items },
    ghost within: { (v : ℕ) → ForSome (move_at first v) (λ w. w < length rows.items) },
}

impl<'a, A: Arena> Plan<'a, A> {
    /// Player 0 always stops, and plays enter no vertex of player 1.
    pub fn new(alloc: Global, arena: &'a A) -> Result<Plan<'a, A>, AllocError>
        ensures { IfOk result (λ plan. length plan.rows.items ≡ vertex_count (A.game arena.now)) }
    {
        let count = arena.count();
        Ok(Plan {
            alloc,
            arena,
            first: Strategy::empty(alloc, count)?,
            opened: Region::empty(alloc, count)?,
            rows: endless(alloc, count)?,
        })
    }

    /// Whether plays stop before they enter a vertex.
    pub fn is_closed(&self, vertex: usize) -> bool
        requires { vertex < length self.now.rows.items }
    {
        self.arena.owner(vertex) == 1 && !self.opened.contains(vertex)
    }

    /// The value of the play from a vertex.
    pub fn value(&self, vertex: usize) -> Value<'_>
        requires { vertex < length self.now.rows.items }
    {
        match &self.rows[vertex] {
            None => Value::Endless,
            Some(row) => Value::Stops(row),
        }
    }

    /// The value of moving to a vertex, or of stopping if it is none or closed.
    fn seen(&self, to: Option<usize>) -> Value<'_>
        requires { IfSome to (λ vertex. vertex < length self.now.rows.items) }
    {
        match to {
            Some(vertex) if !self.is_closed(vertex) => self.value(vertex),
            _ => Value::Stops(&[]),
        }
    }

    /// Lowers the value of a vertex to that of its owner's choice; returns whether it was greater.
    pub fn lower(&mut self, vertex: usize, fuel: &mut Fuel) -> Result<bool, AllocError>
        requires { vertex < length self.old.rows.items }
        ensures { length self.new.rows.items ≡ length self.old.rows.items }
    {
        let Some(row) = self.lower_row(vertex, fuel)? else {
            return Ok(false);
        };
        fuel.burn(row.len());
        fuel.hold(row.len(), self.value(vertex).cells());
        self.rows[vertex] = Some(row);
        Ok(true)
    }

    /// The row of the owner's choice, if it is worth less than the vertex.
    fn lower_row(&self, vertex: usize, fuel: &mut Fuel) -> Result<Option<Row>, AllocError>
        requires { vertex < length self.now.rows.items }
    {
        let to = if self.arena.owner(vertex) == 0 {
            self.first.get(vertex)
        } else {
            Some(self.least(vertex, fuel))
        };
        let Value::Stops(row) = self.seen(to) else {
            fuel.burn(0);
            return Ok(None);
        };
        let raised = Raised::of(row, self.arena.priority(vertex));
        if !raised.is_below(self.value(vertex), fuel) {
            return Ok(None);
        }
        let row = raised.row(self.alloc)?;
        Ok(Some(row))
    }

    /// The first of the successors that are worth least.
    #[tactic(auto, using(crate::proofs::Within::successor_within))]
    pub fn least(&self, vertex: usize, fuel: &mut Fuel) -> usize
        requires { vertex < length self.now.rows.items }
        ensures { result < length self.now.rows.items }
    {
        let _vertices = self.arena.count();
        let mut least = self.arena.successor(vertex, 0);
        for number in 1..self.arena.degree(vertex) {
            let to = self.arena.successor(vertex, number);
            let value = self.seen(Some(to));
            if value.order(self.seen(Some(least)), fuel) == Ordering::Less {
                least = to;
            }
        }
        least
    }

    /// The first of the successors that are worth most, if it is worth more than the present move.
    #[tactic(auto, using(crate::proofs::Within::successor_within))]
    pub fn better(&self, vertex: usize, fuel: &mut Fuel) -> Option<usize>
        requires { vertex < length self.now.rows.items }
        ensures { IfSome result (λ to. to < length self.now.rows.items) }
    {
        let _vertices = self.arena.count();
        let mut better = None;
        let mut best = self.seen(self.first.get(vertex));
        for number in 0..self.arena.degree(vertex) {
            let to = Some(self.arena.successor(vertex, number));
            let value = self.seen(to);
            if value.order(best, fuel) == Ordering::Greater {
                better = to;
                best = value;
            }
        }
        better
    }
}

fn endless(alloc: Global, count: usize) -> Result<Vec<Option<Row>>, AllocError>
    ensures { IfOk result (λ rows. length rows.items ≡ count) }
{
    (0..count).map(|_| None).collect(alloc)
}
