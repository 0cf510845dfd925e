//! Improves the choices, one component after another.

ghost use Rattle.std.specs.Prelude.{◌≡◌, ◌<◌, ◌≤◌, All, IfOk, length};
ghost use Rattle.ps_game.specs.Games.{vertex_count};

use crate::fuel::Fuel;
use crate::ground::Ground;
use crate::plan::Plan;
use crate::row::Value;
use crate::waiting::Waiting;
use ps_game::Arena;
use std::alloc::{AllocError, Global};
use std::cmp::Ordering;

/// The choices, the component that is being solved, and which of its values may decrease.
#[derive(Drop)]
pub struct Settling<'a, A: Arena> {
    ground: &'a Ground<'a, A>,
    part: &'a [usize],
    /// The plan.
    pub plan: Plan<'a, A>,
    waiting: Waiting,
    ghost within: { All (λ v. v < vertex_count (A.game ground.now.arena.now)) part.now },
    ghost rows: { length plan.rows.items ≡ vertex_count (A.game ground.now.arena.now) },
    ghost waits: { length waiting.waits ≡ vertex_count (A.game ground.now.arena.now) },
}

impl<'a, A: Arena> Settling<'a, A> {
    /// No component is solved.
    pub fn new(alloc: Global, ground: &'a Ground<'a, A>) -> Result<Settling<'a, A>, AllocError>
        ensures { IfOk result (λ settling. A.game settling.ground.now.arena.now ≡ A.game ground.now.arena.now) }
    {
        Ok(Settling {
            ground,
            part: &[],
            plan: Plan::new(alloc, ground.arena)?,
            waiting: Waiting::none(alloc, ground.arena.count())?,
        })
    }

    /// Solves all components, each after those to which its edges lead; returns whether the fuel sufficed.
    pub fn settle_all(&mut self, fuel: &mut Fuel) -> Result<bool, AllocError>
        ensures { self.new.ground ≡ self.old.ground }
    {
        let mut rest = self.ground.order();
        for _ in 0..rest.len() {
            let (part, others) = rest.split_at(length_of_part(self.ground, rest));
            self.part = part;
            if !self.settle(fuel)? {
                return Ok(false);
            }
            rest = others;
        }
        Ok(true)
    }

    /// Improves the choices in the component until nothing improves; returns whether the fuel sufficed.
    fn settle(&mut self, fuel: &mut Fuel) -> Result<bool, AllocError>
        ensures { self.new.ground ≡ self.old.ground }
    {
        for _ in 0..fuel.left {
            self.evaluate(fuel)?;
            if fuel.is_spent() {
                return Ok(false);
            }
            let moved = self.go_on(fuel);
            let opened = self.open_up(fuel);
            if !moved && !opened {
                return Ok(true);
            }
        }
        Ok(false)
    }

    /// Computes the values in the component: from endless plays, lowered until none changes or the fuel is spent.
    fn evaluate(&mut self, fuel: &mut Fuel) -> Result<(), AllocError>
        ensures { self.new.ground ≡ self.old.ground }
    {
        self.forget_all(fuel)?;
        for _ in 0..fuel.left {
            if fuel.is_spent() {
                break;
            }
            let Some(vertex) = self.waiting.take() else {
                break;
            };
            if self.plan.lower(vertex, fuel)? && !self.plan.is_closed(vertex) {
                self.wake(vertex, fuel)?;
            }
        }
        Ok(())
    }

    /// Makes all plays endless, and queues all vertices.
    fn forget_all(&mut self, fuel: &mut Fuel) -> Result<(), AllocError>
        ensures { self.new.ground ≡ self.old.ground }
    {
        for vertex in self.part {
            fuel.hold(0, self.plan.value(*vertex).cells());
            let plan = &mut self.plan;
            plan.rows[*vertex] = None;
            self.waiting.put(*vertex)?;
        }
        Ok(())
    }

    /// Queues the vertices whose values may decrease with that of `vertex`.
    fn wake(&mut self, vertex: usize, fuel: &mut Fuel) -> Result<(), AllocError>
        requires { vertex < vertex_count (A.game self.old.ground.now.arena.now) }
        ensures { self.new.ground ≡ self.old.ground }
    {
        let sources = self.ground.sources(vertex);
        fuel.burn(sources.len());
        for from in sources {
            let moves = self.plan.first.get(*from) == Some(vertex);
            let follows = moves || self.ground.arena.owner(*from) == 1;
            if follows && self.ground.is_one_part(*from, vertex) {
                self.waiting.put(*from)?;
            }
        }
        Ok(())
    }

    /// Moves player 0 to successors that are worth most, if they are worth more than the present move by the values
    /// before. Returns whether a move changed.
    fn go_on(&mut self, fuel: &mut Fuel) -> bool
        ensures { self.new.ground ≡ self.old.ground }
    {
        let mut improved = false;
        for vertex in self.part {
            if self.ground.arena.owner(*vertex) != 0 {
                continue;
            }
            if let Some(to) = self.plan.better(*vertex, fuel) {
                let plan = &mut self.plan;
                plan.first.set(*vertex, to);
                improved = true;
            }
        }
        improved
    }

    /// Opens each closed vertex that is worth more than stopping; returns whether there was one.
    fn open_up(&mut self, fuel: &mut Fuel) -> bool
        ensures { self.new.ground ≡ self.old.ground }
    {
        let mut improved = false;
        for vertex in self.part {
            if self.plan.is_closed(*vertex)
                && self.plan.value(*vertex).order(Value::Stops(&[]), fuel) == Ordering::Greater
            {
                let plan = &mut self.plan;
                plan.opened.insert(*vertex);
                improved = true;
            }
        }
        improved
    }
}

/// How many vertices at the front are in the component of the first.
fn length_of_part<A: Arena>(ground: &Ground<'_, A>, rest: &[usize]) -> usize
    requires { All (λ v. v < vertex_count (A.game ground.now.arena.now)) rest.now }
    ensures { result ≤ length rest.now }
{
    match rest.first() {
        Some(first) => rest
            .iter()
            .position(|vertex| !ground.is_one_part(*first, *vertex))
            .unwrap_or(rest.len()),
        None => 0,
    }
}
