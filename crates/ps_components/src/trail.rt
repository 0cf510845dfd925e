//! Paths, found by breadth-first search.

ghost use Rattle.std.specs.Prelude.{◌≡◌, ℕ, ◌+◌, ◌<◌, ◌≤◌, length, slice_get, Some, OnOk, IfOk, IfSome, IfNone};
ghost use Rattle.ps_components.specs.Graphs.{SameOrWay, Link};
ghost use Rattle.ps_components.specs.Trails.{IsTrail};
ghost use Rattle.ps_components.specs.Inner.Spreading.{IsSpread, LeadsTo, Reaches, ComeBack, AreApart, KeepsSteps, unseen};
ghost use Rattle.ps_components.specs.declared.trail.Step.{Step};

use crate::graph::Graph;
use std::alloc::{AllocError, Global};

/// A vertex that was reached, and the index of the step from which it was.
#[derive(Clone, Copy)]
pub struct Step {
    item: usize,
    from: usize,
}

/// The vertices reached so far, in order.
#[derive(Drop)]
struct Spread {
    seen: Vec<bool>,
    steps: Vec<Step>,
}

/// A path from `start` to `end` without repeated vertices, listed backwards; `None` if there is none. Fails if out of
/// memory.
pub fn way_back<G: Graph>(
    alloc: Global,
    graph: &G,
    start: usize,
    end: usize,
) -> Result<Option<Vec<usize>>, AllocError>
    requires { start < (G.graph graph.now).count }
    ensures found { IfOk result (λ o. IfSome o (λ trail. IsTrail (G.graph graph.now) trail.items end start)) }
    ensures none { IfOk result (λ o. IfNone o (¬ SameOrWay (G.graph graph.now) start end)) }
{
    let mut spread = Spread::new(alloc, graph, start)?;
    let mut place = 0;
    while place < spread.steps.len() {
        if spread.steps[place].item == end {
            let trail = trail_from(alloc, graph, &spread.steps, place)?;
            return Ok(Some(trail));
        }
        spread.reach_from(graph, place)?;
        place += 1;
    }
    Ok(None)
}

impl Spread {
    fn new<G: Graph>(alloc: Global, graph: &G, start: usize) -> Result<Self, AllocError>
        requires { start < (G.graph graph.now).count }
        ensures spread { IfOk result (λ s. IsSpread (G.graph graph.now) s.seen.items s.steps.items 0) }
        ensures first { IfOk result (λ s. slice_get s.steps.items 0 ≡ Some (record { item = start; from = 0 })) }
    {
        let mut seen = vec![in alloc; false; graph.count()]?;
        seen[start] = true;
        let mut steps = Vec::new(alloc);
        steps.push(Step {
            item: start,
            from: 0,
        })?;
        Ok(Spread { seen, steps })
    }

    /// Reaches the targets of all links from the vertex of step `place`.
    fn reach_from<G: Graph>(&mut self, graph: &G, place: usize) -> Result<(), AllocError>
        requires place { place < length self.old.steps.items }
        requires spread { IsSpread (G.graph graph.now) self.old.seen.items self.old.steps.items place }
        ensures spread { OnOk result (IsSpread (G.graph graph.now) self.new.seen.items self.new.steps.items
            (place + 1)) }
        ensures kept { OnOk result (KeepsSteps self.old.steps.items self.new.steps.items) }
        ensures fewer { OnOk result (unseen self.new.seen.items + length self.new.steps.items ≤ unseen
            self.old.seen.items + length self.old.steps.items) }
    {
        let item = self.steps[place].item;
        for number in 0..graph.degree(item) {
            if let Some(to) = graph.target(item, number) {
                self.reach(graph, to, place)?;
            }
        }
        Ok(())
    }

    /// Reaches `to` from the vertex of step `place`, unless it was reached before.
    fn reach<G: Graph>(&mut self, graph: &G, to: usize, place: usize) -> Result<(), AllocError>
        requires { LeadsTo (G.graph graph.now) to place self.old.seen.items self.old.steps.items }
        ensures { OnOk result (Reaches (G.graph graph.now) to place self.old.seen.items self.old.steps.items
            self.new.seen.items self.new.steps.items) }
    {
        if !self.seen[to] {
            self.seen[to] = true;
            self.steps.push(Step {
                item: to,
                from: place,
            })?;
        }
        Ok(())
    }
}

/// The path from the vertex of the first step to that of step `place`, listed backwards.
fn trail_from<G: Graph>(
    alloc: Global,
    graph: &G,
    steps: &[Step],
    place: usize,
) -> Result<Vec<usize>, AllocError>
    requires place { place < length steps.now }
    requires back { ComeBack (G.graph graph.now) steps.now }
    requires apart { AreApart steps.now }
    ensures { (e s : Step) → slice_get steps.now place ≡ Some e → slice_get steps.now 0 ≡ Some s →
        IfOk result (λ trail. IsTrail (G.graph graph.now) trail.items e.item s.item) }
{
    let mut items = Vec::new(alloc);
    items.push(steps[place].item)?;
    let mut at = place;
    while at > 0 {
        at = steps[at].from;
        items.push(steps[at].item)?;
    }
    Ok(items)
}
