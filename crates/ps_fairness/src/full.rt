//! Components in which each mark is on an edge.

ghost use Rattle.std.specs.Prelude.{◌≡◌, ◌<◌, ◌↔◌, ℕ, All, IfOk, IfNone, IfSome, IsTrue, length};
ghost use Rattle.ps_components.specs.ComponentLists.{AreComponents, IsIn};
ghost use Rattle.ps_fairness.specs.Inner.Inside.{Bears, IsInside, IsWanted, AreFullIfAny, IsOnOne, IsSlot, IsFullIfAny};

use crate::edge::Edge;
use crate::inner::is_in;
use crate::marked::Marked;
use ps_components::{Components, Graph};
use std::alloc::{AllocError, Global};

/// Edges within a component, one at least, with each mark on one of them.
#[derive(Drop)]
pub(crate) struct Full {
    pub(crate) number: usize,
    pub(crate) edges: Vec<Edge>,
}

/// Such edges of any component; `None` if each lacks a mark, or an edge.
pub(crate) fn full_component<G: Marked>(
    alloc: Global,
    graph: &G,
    components: &Components,
) -> Result<Option<Full>, AllocError>
    requires { AreComponents (G.graph graph.now) components.now }
    ensures { IfOk result (IsFullIfAny (G.graph graph.now) (G.marks graph.now) components.now) }
{
    for number in 0..components.order().len() {
        if let Some(edges) = marked_edges(alloc, graph, components, number)? {
            return Ok(Some(Full { number, edges }));
        }
    }
    Ok(None)
}

/// Such edges of this component, at most one for each mark.
fn marked_edges<G: Marked>(
    alloc: Global,
    graph: &G,
    components: &Components,
    number: usize,
) -> Result<Option<Vec<Edge>>, AllocError>
    requires { AreComponents (G.graph graph.now) components.now }
    ensures { IfOk result (AreFullIfAny (G.graph graph.now) (G.marks graph.now) components.now number) }
{
    let mut edges = Vec::new(alloc);
    for mark in 0..graph.mark_count().max(1) {
        if !is_on_one(graph, &edges, mark) {
            let Some(edge) = edge_within(graph, components, number, mark) else {
                return Ok(None);
            };
            edges.push(edge)?;
        }
    }
    Ok(Some(edges))
}

/// Whether one of the edges bears the mark.
fn is_on_one<G: Marked>(graph: &G, edges: &[Edge], mark: usize) -> bool
    requires { All (IsSlot (G.graph graph.now)) edges.now }
    ensures { IsTrue result → IsOnOne (G.marks graph.now) mark edges.now }
{
    for edge in edges {
        if bears(graph, *edge, mark) {
            return true;
        }
    }
    false
}

/// An edge within the component that bears the mark.
fn edge_within<G: Marked>(
    graph: &G,
    components: &Components,
    number: usize,
    mark: usize,
) -> Option<Edge>
    requires { AreComponents (G.graph graph.now) components.now }
    ensures some { IfSome result (IsWanted (G.graph graph.now) (G.marks graph.now) components.now number mark) }
    ensures none { IfNone result ((e : Edge) → ¬ IsWanted (G.graph graph.now) (G.marks graph.now) components.now number
        mark e) }
{
    let order = components.order();
    for place in number..order.len() {
        let vertex = order[place];
        if !is_in(components, vertex, number) {
            return None;
        }
        if let Some(edge) = edge_from(graph, components, vertex, number, mark) {
            return Some(edge);
        }
    }
    None
}

/// The first such edge from a vertex.
fn edge_from<G: Marked>(
    graph: &G,
    components: &Components,
    vertex: usize,
    number: usize,
    mark: usize,
) -> Option<Edge>
    requires components { AreComponents (G.graph graph.now) components.now }
    requires vertex { IsIn components.now vertex number }
    ensures some { IfSome result (IsWanted (G.graph graph.now) (G.marks graph.now) components.now number mark) }
    ensures none { IfNone result ((e : Edge) → e.vertex ≡ vertex →
        ¬ IsWanted (G.graph graph.now) (G.marks graph.now) components.now number mark e) }
{
    for slot in 0..graph.degree(vertex) {
        let edge = Edge { vertex, slot };
        if leads_into(graph, components, edge, number) && bears(graph, edge, mark) {
            return Some(edge);
        }
    }
    None
}

/// Whether an edge leads into the component.
fn leads_into<G: Graph>(graph: &G, components: &Components, edge: Edge, number: usize) -> bool
    requires components { AreComponents (G.graph graph.now) components.now }
    requires vertex { IsIn components.now edge.vertex number }
    requires slot { edge.slot < (G.graph graph.now).degree edge.vertex }
    ensures { IsTrue result ↔ IsInside (G.graph graph.now) components.now number edge }
{
    match graph.target(edge.vertex, edge.slot) {
        Some(to) => is_in(components, to, number),
        None => false,
    }
}

/// Whether an edge bears the mark, if there is one with this number.
fn bears<G: Marked>(graph: &G, edge: Edge, mark: usize) -> bool
    requires { IsSlot (G.graph graph.now) edge }
    ensures { IsTrue result ↔ Bears (G.marks graph.now) mark edge }
{
    mark >= graph.mark_count() || graph.has_mark(edge.vertex, edge.slot, mark)
}
