//! Closed walks with each mark.

ghost use Rattle.std.specs.Prelude.{◌≡◌, ◌<◌, ◌-◌, ◌++◌, ◌∷◌, ◌+◌, ℕ, IfOk, IfNone, IfSome, List, OnOk, Some, length};
ghost use Rattle.std.specs.Prelude.{slice_get};
ghost use Rattle.ps_components.specs.ComponentLists.{AreAllMet, AreComponents, IsIn};
ghost use Rattle.ps_components.specs.Graphs.{Link, SameOrWay};
ghost use Rattle.ps_fairness.specs.Marks.{IsEdge, IsFairCycle, Leads};
ghost use Rattle.ps_fairness.specs.Inner.Inside.{AreInside, GoesOnTo, IsWalkBack, JoinsAll};

use crate::edge::Edge;
use crate::full::full_component;
use crate::inner::Inner;
use crate::marked::Marked;
use ps_components::{Components, Graph, components_of, way_back};
use std::alloc::{AllocError, Global};

/// A closed walk of one or more edges on which each mark occurs, if there is one: each edge leads to the vertex of the
/// next, and the last to that of the first. Fails if out of memory.
pub fn fair_cycle<G: Marked>(alloc: Global, graph: &G) -> Result<Option<Vec<Edge>>, AllocError>
    ensures found { IfOk result (λ cycle. IfSome cycle (λ walk.
        IsFairCycle (G.graph graph.now) (G.marks graph.now) walk.items)) }
    ensures none { IfOk result (λ cycle. IfNone cycle ((walk : List Edge) →
        ¬ IsFairCycle (G.graph graph.now) (G.marks graph.now) walk)) }
{
    let components = components_of(alloc, graph)?;
    fair_cycle_within(alloc, graph, &components)
}

/// The edges of a path, if there is one, and no edges from a vertex to itself. Fails if out of memory.
pub fn walk_to<G: Graph>(
    alloc: Global,
    graph: &G,
    from: usize,
    to: usize,
) -> Result<Option<Vec<Edge>>, AllocError>
    requires { from < (G.graph graph.now).count }
    ensures found { IfOk result (λ way. IfSome way (λ walk. Leads (G.graph graph.now) walk.items from to)) }
    ensures none { IfOk result (λ way. IfNone way (¬ SameOrWay (G.graph graph.now) from to)) }
{
    let Some(trail) = way_back(alloc, graph, from, to)? else {
        return Ok(None);
    };
    let mut walk = Vec::new(alloc);
    append_trail(graph, &trail, &mut walk)?;
    Ok(Some(walk))
}

/// The same, by the components of all vertices.
fn fair_cycle_within<G: Marked>(
    alloc: Global,
    graph: &G,
    components: &Components,
) -> Result<Option<Vec<Edge>>, AllocError>
    requires components { AreComponents (G.graph graph.now) components.now }
    requires met { AreAllMet (G.graph graph.now) components.now }
    ensures found { IfOk result (λ cycle. IfSome cycle (λ walk.
        IsFairCycle (G.graph graph.now) (G.marks graph.now) walk.items)) }
    ensures none { IfOk result (λ cycle. IfNone cycle ((walk : List Edge) →
        ¬ IsFairCycle (G.graph graph.now) (G.marks graph.now) walk)) }
{
    let Some(full) = full_component(alloc, graph, components)? else {
        return Ok(None);
    };
    let inner = Inner {
        graph,
        components,
        number: full.number,
    };
    Ok(Some(closed_walk(alloc, &inner, &full.edges)?))
}

/// A closed walk through these edges within a component.
fn closed_walk<G: Graph>(
    alloc: Global,
    inner: &Inner<G>,
    edges: &[Edge],
) -> Result<Vec<Edge>, AllocError>
    requires components { AreComponents (G.graph inner.now.graph.now) inner.now.components.now }
    requires inside { AreInside (G.graph inner.now.graph.now) inner.now.components.now inner.now.number edges.now }
    ensures { IfOk result (λ walk. JoinsAll (G.graph inner.now.graph.now) edges.now walk.items) }
{
    let start = edges[0].vertex;
    let mut walk = Vec::new(alloc);
    let mut at = start;
    for edge in edges {
        go_on(alloc, inner, at, edge.vertex, &mut walk)?;
        walk.push(*edge)?;
        at = end_of(inner.graph, *edge);
    }
    go_on(alloc, inner, at, start, &mut walk)?;
    Ok(walk)
}

/// Extends a walk by a path within a component.
fn go_on<G: Graph>(
    alloc: Global,
    inner: &Inner<G>,
    from: usize,
    to: usize,
    walk: &mut Vec<Edge>,
) -> Result<(), AllocError>
    requires components { AreComponents (G.graph inner.now.graph.now) inner.now.components.now }
    requires from { IsIn inner.now.components.now from inner.now.number }
    requires to { IsIn inner.now.components.now to inner.now.number }
    ensures { OnOk result (GoesOnTo (G.graph inner.now.graph.now) from to walk.old.items walk.new.items) }
{
    if from == to {
        return Ok(());
    }
    let Some(trail) = way_back(alloc, inner, from, to)? else {
        unreachable!()
    };
    append_trail(inner.graph, &trail, walk)
}

/// Extends a walk by a path, whose vertices are listed from its end to its start.
fn append_trail<G: Graph>(
    graph: &G,
    trail: &[usize],
    walk: &mut Vec<Edge>,
) -> Result<(), AllocError>
    requires { IsWalkBack (G.graph graph.now) trail.now }
    ensures { (v w : ℕ) → slice_get trail.now (length trail.now - 1) ≡ Some v → slice_get trail.now 0 ≡ Some w →
        OnOk result (GoesOnTo (G.graph graph.now) v w walk.old.items walk.new.items) }
{
    let mut place = trail.len() - 1;
    while place > 0 {
        walk.push(edge_to(graph, trail[place], trail[place - 1]))?;
        place -= 1;
    }
    Ok(())
}

fn edge_to<G: Graph>(graph: &G, from: usize, to: usize) -> Edge
    requires { Link (G.graph graph.now) from to }
    ensures vertex { result.vertex ≡ from }
    ensures edge { IsEdge (G.graph graph.now) result to }
{
    for slot in 0..graph.degree(from) {
        if graph.target(from, slot) == Some(to) {
            return Edge { vertex: from, slot };
        }
    }
    unreachable!()
}

fn end_of<G: Graph>(graph: &G, edge: Edge) -> usize
    requires { (to : ℕ) × IsEdge (G.graph graph.now) edge to }
    ensures { IsEdge (G.graph graph.now) edge result }
{
    match graph.target(edge.vertex, edge.slot) {
        Some(to) => to,
        None => unreachable!(),
    }
}
