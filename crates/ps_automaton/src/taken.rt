//! The letters at which an edge is taken, as a decision diagram.

ghost use Rattle.std.specs.Prelude.{◌≡◌, ◌↔◌, ℕ, ◌+◌, ◌<◌, ◌≤◌, IfOk, IsTrue, OnOk, Some, length, slice_get};
ghost use Rattle.ps_diagram.specs.Table.{IsNode, Keeps, MakesNode};
ghost use Rattle.ps_hoa.specs.Files.{EdgeData};
ghost use Rattle.ps_hoa.specs.Views.{edge_data, row_data};
ghost use Rattle.ps_automaton.specs.Answers.{AreClashing};
ghost use Rattle.ps_automaton.specs.Inner.Drafts.{IsReadyAt, IsReadyTo, Meet, ShowsEdge};

use crate::guards::Guards;
use crate::targets::target_of;
use ps_diagram::{Node, OverlayError, Store};
use ps_hoa::{Edge, Guard};
use std::alloc::AllocError;

/// The diagram with the leaf 1 at the letters at which an edge is taken, and no leaf elsewhere.
pub(crate) fn taken(store: &mut Store, guards: &Guards, edge: &Edge) -> Result<Node, AllocError>
    requires { IsReadyTo store.old guards.now edge.now }
    ensures { MakesNode store.old store.new result (λ node. ShowsEdge guards.now.file.now (row_data guards.now.row.now)
        (edge_data edge.now) store.new node 1) }
{
    match &edge.guard {
        Guard::Stated(label) => store.of_label_by(guards.aliases, label),
        Guard::OfState => match guards.label {
            None => store.none(),
            Some(node) => Ok(node),
        },
        Guard::Letter(letter) => store.of_letter(*letter),
    }
}

/// Like `taken`, with the leaf `value`.
pub(crate) fn marked(
    store: &mut Store,
    guards: &Guards,
    edge: &Edge,
    value: u64,
) -> Result<Node, AllocError>
    requires { IsReadyTo store.old guards.now edge.now }
    ensures { MakesNode store.old store.new result (λ node. ShowsEdge guards.now.file.now (row_data guards.now.row.now)
        (edge_data edge.now) store.new node value) }
{
    match &edge.guard {
        Guard::Stated(label) => store.of_label_as(guards.aliases, label, value),
        _ => {
            let letters = taken(store, guards, edge)?;
            store.guard(letters, value)
        }
    }
}

/// Whether there is a letter at which both diagrams have a leaf.
fn meet(store: &mut Store, one: Node, other: Node) -> Result<bool, AllocError>
    requires one { IsNode store.old one }
    requires other { IsNode store.old other }
    ensures keeps { OnOk result (Keeps store.old store.new) }
    ensures meet { IfOk result (λ both. IsTrue both ↔ Meet store.old one other) }
{
    let zero = store.guard(one, 0)?;
    let one = store.guard(other, 1)?;
    match store.overlay(zero, one) {
        Ok(_) => Ok(false),
        Err(OverlayError::Clash { .. }) => Ok(true),
        Err(OverlayError::OutOfMemory) => Err(AllocError),
    }
}

/// The first edge that clashes with the given later edge of the state.
pub(crate) fn first_clash(
    store: &mut Store,
    guards: &Guards,
    second: usize,
) -> Result<usize, AllocError>
    requires ready { IsReadyAt store.old guards.now second }
    requires clash { (first : ℕ) × AreClashing guards.now.file.now (row_data guards.now.row.now) first second }
    ensures clashing { IfOk result (λ first. AreClashing guards.now.file.now (row_data guards.now.row.now) first
        second) }
    ensures least { IfOk result (λ first. (a : ℕ) → AreClashing guards.now.file.now (row_data guards.now.row.now) a
        second → first ≤ a) }
{
    let later = taken(store, guards, &guards.row.edges[second])?;
    for first in 0..second {
        if clashes(store, guards, first, second, later)? {
            return Ok(first);
        }
    }
    unreachable!()
}

/// Whether two edges clash: they share a letter, but differ in targets or sets. `later` is the diagram of the second.
fn clashes(
    store: &mut Store,
    guards: &Guards,
    first: usize,
    second: usize,
    later: Node,
) -> Result<bool, AllocError>
    requires ready { IsReadyAt store.old guards.now second }
    requires earlier { first < second }
    requires held { IsNode store.old later }
    requires shows { (edge : EdgeData) → slice_get (row_data guards.now.row.now).edges second ≡ Some edge →
        ShowsEdge guards.now.file.now (row_data guards.now.row.now) edge store.old later 1 }
    ensures keeps { OnOk result (Keeps store.old store.new) }
    ensures clashing { IfOk result (λ both. IsTrue both ↔ AreClashing guards.now.file.now (row_data guards.now.row.now)
        first second) }
{
    let row = guards.row;
    let edge = &row.edges[first];
    if target_of(row, edge) == target_of(row, &row.edges[second]) {
        return Ok(false);
    }
    let earlier = taken(store, guards, edge)?;
    meet(store, earlier, later)
}
