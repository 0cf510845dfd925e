//! A cover loses the letters at which another asks for no more.

ghost use Rattle.std.specs.Prelude.{◌≡◌, ◌++◌, ◌∷◌, [], All, IfSome, IsTrue, slice_get};
ghost use Rattle.ps_tableau.specs.Boards.{IsEdgeOf, MakesEdges, cover_of, covers_of};
ghost use Rattle.ps_tableau.specs.Inner.Calls.{Gives, GivesEdges};
ghost use Rattle.ps_tableau.specs.Inner.Joins.{AreBothEdges};
ghost use Rattle.ps_tableau.specs.Inner.Pruning.{AddsEdge, AsksLess, IsPlaceOfSame, LeavesBeside, LeavesOf, Makes};
ghost use Rattle.ps_tableau.specs.Operators.{ArePruned};

use crate::board::Board;
use crate::edge::Edge;
use crate::set::Set;
use crate::sketches::{Sketch, Sketches, sketch_of};
use ps_keys::KeyList;
use std::alloc::AllocError;

/// The covers of a list, each without such letters. Covers that ask for the same become one, in the place of the last.
pub(crate) fn pruned(board: &mut Board, edges: &[Edge]) -> Result<Vec<Edge>, AllocError>
    requires { All (IsEdgeOf board.old) edges.now }
    ensures { GivesEdges board.old board.new result (ArePruned (covers_of board.old edges.now)) }
{
    let united = united_all(board, edges)?;
    let mut lessened = lessened_all(board, &united)?;
    lessened.reverse();
    lessened_all(board, &lessened)
}

/// One cover for those that ask for the same, from the last to the first.
fn united_all(board: &mut Board, edges: &[Edge]) -> Result<Vec<Edge>, AllocError>
    requires { All (IsEdgeOf board.old) edges.now }
    ensures { GivesEdges board.old board.new result (ArePruned (covers_of board.old edges.now)) }
{
    board.parts_fit();
    let mut united = Vec::new(board.allocator());
    let mut keys = KeyList::new(board.allocator());
    for place in (0..edges.len()).rev() {
        unite(board, edges[place], &mut keys, &mut united)?;
    }
    Ok(united)
}

/// Adds a cover to a list, or unites it with one that asks for the same. `keys` has the sets of each cover of the list,
/// by which that one is found.
fn unite(
    board: &mut Board,
    edge: Edge,
    keys: &mut KeyList<(Set, Set)>,
    united: &mut Vec<Edge>,
) -> Result<(), AllocError>
    requires edge { IsEdgeOf board.old edge }
    requires united { All (IsEdgeOf board.old) united.old.items }
    ensures { Gives board.old board.new result (λ _. MakesEdges board.new
        (ArePruned (covers_of board.old united.old.items ++ cover_of board.old edge ∷ [])) united.new.items) }
{
    board.parts_fit();
    let place = keys.place_of((edge.next, edge.postponed))?;
    if let Some(place) = place_of_same(edge, united, place) {
        united[place] = one_of_both(board, united[place], edge)?;
        return Ok(());
    }
    united.push(edge)?;
    Ok(())
}

/// Each cover of a list without the letters at which one before it asks for no more.
fn lessened_all(board: &mut Board, edges: &[Edge]) -> Result<Vec<Edge>, AllocError>
    requires { All (IsEdgeOf board.old) edges.now }
    ensures { GivesEdges board.old board.new result (ArePruned (covers_of board.old edges.now)) }
{
    board.parts_fit();
    let mut kept = Vec::new(board.allocator());
    let mut sketches = Sketches::new(board.allocator());
    for edge in edges {
        let sketch = sketch_of(board, *edge);
        let places = sketches.places(sketch)?;
        let left = left_beside(board, *edge, &kept, &places)?;
        add_edge(board, left, sketch, &mut kept, &mut sketches)?;
    }
    Ok(kept)
}

/// What is left of a cover beside those of others that have the given places.
fn left_beside(
    board: &mut Board,
    edge: Edge,
    others: &[Edge],
    places: &[usize],
) -> Result<Edge, AllocError>
    requires edge { IsEdgeOf board.old edge }
    requires others { All (IsEdgeOf board.old) others.now }
    ensures { Gives board.old board.new result (LeavesBeside board.old board.new others.now edge) }
{
    board.parts_fit();
    let mut left = edge;
    for place in places {
        left = left_at(board, left, others, *place)?;
    }
    Ok(left)
}

/// What is left of a cover beside the one at a place of a list, if the list is that long.
fn left_at(board: &mut Board, edge: Edge, others: &[Edge], place: usize) -> Result<Edge, AllocError>
    requires edge { IsEdgeOf board.old edge }
    requires others { All (IsEdgeOf board.old) others.now }
    ensures { Gives board.old board.new result (LeavesBeside board.old board.new others.now edge) }
{
    board.parts_fit();
    if let Some(other) = cover_at(others, place) {
        return left_of(board, &edge, &other);
    }
    Ok(edge)
}

/// What is left of a cover beside another: if that asks for no more, its letters are taken away.
fn left_of(board: &mut Board, edge: &Edge, other: &Edge) -> Result<Edge, AllocError>
    requires { AreBothEdges board.old edge.now other.now }
    ensures { Gives board.old board.new result (LeavesOf board.old board.new edge.now other.now) }
{
    board.parts_fit();
    if asks_less(board, *other, *edge) {
        return lessened(board, *edge, *other);
    }
    Ok(*edge)
}

/// Adds a cover and its sketch, unless it serves at no letter.
fn add_edge(
    board: &mut Board,
    edge: Edge,
    sketch: Sketch,
    kept: &mut Vec<Edge>,
    sketches: &mut Sketches,
) -> Result<(), AllocError>
    requires { IsEdgeOf board.old edge }
    ensures { Gives board.old board.new result (λ _.
        AddsEdge board.old board.new edge kept.old.items kept.new.items) }
{
    let none = board.no_letter()?;
    if edge.guard == none {
        return Ok(());
    }
    sketches.add(sketch)?;
    kept.push(edge)?;
    Ok(())
}

/// Whether a cover asks for no more than another.
fn asks_less(board: &Board, edge: Edge, other: Edge) -> bool
    requires { AreBothEdges board.now edge other }
    ensures { IsTrue result → AsksLess (cover_of board.now edge) (cover_of board.now other) }
{
    let sets = board.sets();
    sets.is_within(edge.next, other.next) && sets.is_within(edge.postponed, other.postponed)
}

/// A cover without the letters for which another serves.
fn lessened(board: &mut Board, edge: Edge, other: Edge) -> Result<Edge, AllocError>
    requires both { AreBothEdges board.old edge other }
    requires less { AsksLess (cover_of board.old other) (cover_of board.old edge) }
    ensures { Gives board.old board.new result (LeavesOf board.old board.new edge other) }
{
    let none = board.no_letter()?;
    let guard = board.choose(other.guard, none, edge.guard)?;
    Ok(Edge { guard, ..edge })
}

/// The cover that serves where one of two with the same sets does.
fn one_of_both(board: &mut Board, edge: Edge, other: Edge) -> Result<Edge, AllocError>
    requires both { AreBothEdges board.old edge other }
    requires next { edge.next ≡ other.next }
    requires postponed { edge.postponed ≡ other.postponed }
    ensures { Gives board.old board.new result (Makes board.new (λ c. ArePruned
        (cover_of board.old edge ∷ cover_of board.old other ∷ []) (c ∷ []))) }
{
    let guard = board.choose(edge.guard, edge.guard, other.guard)?;
    Ok(Edge { guard, ..edge })
}

/// The place, if the cover there asks for the same as another.
fn place_of_same(edge: Edge, covers: &[Edge], place: usize) -> Option<usize>
    ensures { IfSome result (IsPlaceOfSame edge covers.now) }
{
    let other = cover_at(covers, place)?;
    if other.next == edge.next && other.postponed == edge.postponed {
        Some(place)
    } else {
        None
    }
}

fn cover_at(covers: &[Edge], place: usize) -> Option<Edge>
    ensures { result ≡ slice_get covers.now place }
{
    covers.get(place).copied()
}
