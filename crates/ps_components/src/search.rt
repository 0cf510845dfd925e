//! Gabow's path-based algorithm.

ghost use Rattle.std.specs.Prelude.{◌≡◌, ℕ, ◌<◌, ◌≤◌, ◌++◌, ◌∷◌, [], ◌-◌, All, length, slice_get, slice_set, Some};
ghost use Rattle.std.specs.Prelude.{OnOk, IfOk, ◌^◌};
ghost use Rattle.ps_components.specs.Graphs.{Link};
ghost use Rattle.ps_components.specs.Searching.{IsSettled, IsCutAt, AreListed, close_all, waits};
ghost use Rattle.ps_components.specs.Searches.{IsSound, IsSoundButFor, IsIdle, IsFresh, HasVisited, Visits, Runs};
ghost use Rattle.ps_components.specs.Searches.{EndsAt, HasNext, IsReachedNext, Advances, Enters, Merges, Takes};
ghost use Rattle.ps_components.specs.Inner.Following.{LeadsOn, LeadsBack, IsFollowed};
ghost use Rattle.ps_components.specs.declared.search.Pending.{Pending};

use crate::graph::Graph;
use crate::statuses::{Status, Statuses};
use std::alloc::{AllocError, Global};

/// A link still to be followed, from index `from` of the search path.
#[derive(Clone, Copy)]
pub struct Pending {
    from: usize,
    to: usize,
}

/// The state of the search: `active` is the search path, to which new vertices are appended; `bounds` has the indices
/// at which its segments begin, whose vertices can reach one another. A link back merges segments.
#[derive(Drop)]
pub struct Search {
    /// Unseen, on the search path, or finished.
    pub statuses: Statuses,
    active: Vec<usize>,
    bounds: Vec<usize>,
    pending: Vec<Pending>,
    /// The finished vertices, component by component.
    pub order: Vec<usize>,
}

impl Search {
    /// Nothing is visited yet.
    pub fn new<G: Graph>(alloc: Global, graph: &G) -> Result<Self, AllocError>
        ensures { IfOk result (IsFresh (G.graph graph.now)) }
    {
        Ok(Search {
            statuses: Statuses::unseen(alloc, graph.count())?,
            active: Vec::new(alloc),
            bounds: Vec::new(alloc),
            pending: Vec::new(alloc),
            order: Vec::new(alloc),
        })
    }

    /// A search of the empty graph.
    pub fn empty(alloc: Global) -> Self
        ensures statuses { result.statuses ≡ [] }
        ensures order { result.order.items ≡ [] }
    {
        Search {
            statuses: Statuses::new(alloc),
            active: Vec::new(alloc),
            bounds: Vec::new(alloc),
            pending: Vec::new(alloc),
            order: Vec::new(alloc),
        }
    }

    /// Forgets all vertices, but keeps the memory.
    pub fn forget(&mut self)
        ensures statuses { self.new.statuses ≡ [] }
        ensures order { self.new.order.items ≡ [] }
    {
        self.statuses.clear();
        self.order.clear();
    }

    /// Searches from the roots. What the last search visited, as `order` lists, first becomes `Unseen`.
    pub fn again<G: Graph>(&mut self, graph: &G, roots: &[usize]) -> Result<(), AllocError>
        requires listed { AreListed self.old.statuses self.old.order.items }
        requires within { All (λ v. v < (G.graph graph.now).count) roots.now }
        ensures { OnOk result (HasVisited (G.graph graph.now) roots.now self.new) }
    {
        reset(&mut self.statuses, &self.order);
        self.statuses.resize(graph.count())?;
        self.active.clear();
        self.bounds.clear();
        self.pending.clear();
        self.order.clear();
        for &root in roots {
            self.visit(graph, root)?;
        }
        Ok(())
    }

    /// Visits a vertex and all that it can reach, unless it was visited before.
    pub fn visit<G: Graph>(&mut self, graph: &G, item: usize) -> Result<(), AllocError>
        requires within { item < (G.graph graph.now).count }
        requires idle { IsIdle (G.graph graph.now) self.old }
        ensures { OnOk result (Visits (G.graph graph.now) item self.old self.new) }
    {
        if let Status::Unseen = self.statuses.at(item) {
            self.enter(graph, item)?;
            self.run(graph)?;
        }
        Ok(())
    }

    /// Visits all that the search path can reach.
    fn run<G: Graph>(&mut self, graph: &G) -> Result<(), AllocError>
        requires { IsSound (G.graph graph.now) self.old }
        ensures { OnOk result (Runs (G.graph graph.now) self.old self.new) }
    {
        while let Some(&bound) = self.bounds.last() {
            self.step(graph, bound)?;
        }
        Ok(())
    }

    /// Follows the last pending link if it starts in the last segment; else finishes this segment.
    fn step<G: Graph>(&mut self, graph: &G, bound: usize) -> Result<(), AllocError>
        requires { EndsAt (G.graph graph.now) bound self.old }
        ensures { OnOk result (Advances (G.graph graph.now) self.old self.new) }
    {
        let Some(&pending) = self.pending.last() else {
            return self.close(graph, bound);
        };
        if pending.from < bound {
            return self.close(graph, bound);
        }
        match self.statuses.at(pending.to) {
            Status::Unseen => return self.follow(graph, pending),
            Status::Active(place) => {
                self.merge(graph, pending, place);
                self.take(graph, pending);
            }
            Status::Closed(_) => self.take(graph, pending),
        }
        Ok(())
    }

    /// Appends the unseen target of the last pending link to the search path.
    fn follow<G: Graph>(&mut self, graph: &G, pending: Pending) -> Result<(), AllocError>
        requires { LeadsOn (G.graph graph.now) pending self.old }
        ensures { OnOk result (Enters (G.graph graph.now) pending.to self.old self.new) }
    {
        self.pending.pop();
        self.enter(graph, pending.to)
    }

    fn enter<G: Graph>(&mut self, graph: &G, item: usize) -> Result<(), AllocError>
        requires reached { IsReachedNext (G.graph graph.now) item self.old }
        requires sound { IsSoundButFor (G.graph graph.now) item self.old }
        ensures { OnOk result (Enters (G.graph graph.now) item self.old self.new) }
    {
        let place = self.active.len();
        self.active.push(item)?;
        self.bounds.push(place)?;
        wait(&mut self.pending, graph, place, item)?;
        self.statuses.put(item, place)?;
        Ok(())
    }

    /// Merges the segment at index `place` with all later ones.
    fn merge<G: Graph>(&mut self, graph: &G, pending: Pending, place: usize)
        requires { LeadsBack (G.graph graph.now) pending place self.old }
        ensures { Merges (G.graph graph.now) pending self.old self.new }
    {
        cut(&mut self.bounds, place);
    }

    /// Removes the last pending link, whose target is finished or in the last segment.
    fn take<G: Graph>(&mut self, graph: &G, pending: Pending)
        requires next { HasNext (G.graph graph.now) pending self.old }
        requires settled { IsSettled self.old.statuses self.old.bounds.items pending.from pending.to }
        ensures { Takes (G.graph graph.now) self.old self.new }
    {
        self.pending.pop();
    }

    /// Finishes the last segment, from index `bound` on, as a component.
    fn close<G: Graph>(&mut self, graph: &G, bound: usize) -> Result<(), AllocError>
        requires { IsFollowed (G.graph graph.now) bound self.old }
        ensures { OnOk result (Advances (G.graph graph.now) self.old self.new) }
    {
        let number = self.order.len();
        let segment = &self.active[bound..];
        self.order.extend_from_slice(segment)?;
        close_items(&mut self.statuses, segment, number)?;
        self.active.truncate(bound);
        self.bounds.pop();
        Ok(())
    }
}

/// Appends all links of a vertex, at index `from` of the search path.
fn wait<G: Graph>(
    pending: &mut Vec<Pending>,
    graph: &G,
    from: usize,
    item: usize,
) -> Result<(), AllocError>
    requires { item < (G.graph graph.now).count }
    ensures { OnOk result (pending.new.items ≡ pending.old.items ++
        waits (G.graph graph.now) from item ((G.graph graph.now).degree item)) }
{
    for place in 0..graph.degree(item) {
        if let Some(to) = graph.target(item, place) {
            pending.push(Pending { from, to })?;
        }
    }
    Ok(())
}

/// Drops all entries that are greater than `place`.
fn cut(bounds: &mut Vec<usize>, place: usize)
    requires rise { (i j b c : ℕ) → slice_get bounds.old.items i ≡ Some b → slice_get bounds.old.items j ≡ Some c →
        i < j → b < c }
    ensures { IsCutAt bounds.old.items place bounds.new.items }
{
    while let Some(&bound) = bounds.last() {
        if bound <= place {
            break;
        }
        bounds.pop();
    }
}

fn reset(statuses: &mut Statuses, items: &[usize])
    requires { AreListed statuses.old items.now }
    ensures { All (λ m. m ≡ Status.Unseen) statuses.new }
{
    for &item in items {
        statuses.clear_at(item);
    }
}

/// Finishes the vertices as the component with this number.
fn close_items(statuses: &mut Statuses, items: &[usize], number: usize) -> Result<(), AllocError>
    requires within { (k v : ℕ) → slice_get items.now k ≡ Some v → v < length statuses.old }
    requires number { number < 2 ^ 63 }
    ensures { OnOk result (statuses.new ≡ close_all statuses.old items.now number) }
{
    for &item in items {
        statuses.close(item, number)?;
    }
    Ok(())
}
