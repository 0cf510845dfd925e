//! Products and unions of lists of covers.

ghost use Rattle.std.specs.Prelude.{◌≡◌, ◌++◌, ◌∷◌, [], All, IfOk};
ghost use Rattle.ps_diagram.specs.Table.{IsNode};
ghost use Rattle.ps_tableau.specs.Boards.{IsEdgeOf, covers_of};
ghost use Rattle.ps_tableau.specs.Inner.Calls.{Gives, GivesEdges};
ghost use Rattle.ps_tableau.specs.Inner.Joins.{AddsRow, AreBothEdges, AreJoined, AsksForBoth, HasBothLists};
ghost use Rattle.ps_tableau.specs.Operators.{AreProducts, ArePruned};

use crate::board::Board;
use crate::edge::Edge;
use crate::pruning::pruned;
use ps_diagram::Node;
use std::alloc::{AllocError, Global};

/// The joins of each cover of one list with each of another, pruned.
pub(crate) fn joined(
    board: &mut Board,
    first: &[Edge],
    second: &[Edge],
) -> Result<Vec<Edge>, AllocError>
    requires { HasBothLists board.old first.now second.now }
    ensures { GivesEdges board.old board.new result
        (AreJoined (covers_of board.old first.now) (covers_of board.old second.now)) }
{
    let products = products(board, first, second)?;
    pruned(board, &products)
}

/// The covers of two lists, pruned.
pub(crate) fn either(
    board: &mut Board,
    first: &[Edge],
    second: &[Edge],
) -> Result<Vec<Edge>, AllocError>
    requires { HasBothLists board.old first.now second.now }
    ensures { GivesEdges board.old board.new result
        (ArePruned (covers_of board.old first.now ++ covers_of board.old second.now)) }
{
    board.parts_fit();
    let all = appended(board.allocator(), first, second)?;
    pruned(board, &all)
}

pub(crate) fn appended(
    alloc: Global,
    first: &[Edge],
    second: &[Edge],
) -> Result<Vec<Edge>, AllocError>
    ensures { IfOk result (λ edges. edges.items ≡ first.now ++ second.now) }
{
    let mut all = Vec::new(alloc);
    all.extend_from_slice(first)?;
    all.extend_from_slice(second)?;
    Ok(all)
}

/// As `joined`, not pruned.
pub(crate) fn products(
    board: &mut Board,
    first: &[Edge],
    second: &[Edge],
) -> Result<Vec<Edge>, AllocError>
    requires { HasBothLists board.old first.now second.now }
    ensures { GivesEdges board.old board.new result
        (AreProducts (covers_of board.old first.now) (covers_of board.old second.now)) }
{
    board.parts_fit();
    let mut joins = Vec::new(board.allocator());
    for edge in first {
        add_row(board, edge, second, &mut joins)?;
    }
    Ok(joins)
}

/// Adds the joins of a cover with each of a list.
fn add_row(
    board: &mut Board,
    edge: &Edge,
    others: &[Edge],
    joins: &mut Vec<Edge>,
) -> Result<(), AllocError>
    requires edge { IsEdgeOf board.old edge.now }
    requires others { All (IsEdgeOf board.old) others.now }
    ensures { Gives board.old board.new result (λ _.
        AddsRow board.old board.new edge.now others.now joins.old.items joins.new.items) }
{
    board.parts_fit();
    for other in others {
        add_join(board, *edge, *other, joins)?;
    }
    Ok(())
}

/// Adds the cover that serves where two others do and asks for what both ask for, if there is such a letter.
fn add_join(board: &mut Board, a: Edge, b: Edge, joins: &mut Vec<Edge>) -> Result<(), AllocError>
    requires { AreBothEdges board.old a b }
    ensures { Gives board.old board.new result (λ _.
        AddsRow board.old board.new a (b ∷ []) joins.old.items joins.new.items) }
{
    let none = board.no_letter()?;
    let guard = board.choose(a.guard, b.guard, none)?;
    if guard == none {
        return Ok(());
    }
    let edge = join_with(board, guard, a, b)?;
    joins.push(edge)?;
    Ok(())
}

/// The cover with this guard that asks for what both ask for.
fn join_with(board: &mut Board, guard: Node, a: Edge, b: Edge) -> Result<Edge, AllocError>
    requires guard { IsNode board.old.guards guard }
    requires both { AreBothEdges board.old a b }
    ensures { Gives board.old board.new result (AsksForBoth board.old board.new guard a b) }
{
    let next = board.union(a.next, b.next)?;
    let postponed = board.union(a.postponed, b.postponed)?;
    Ok(Edge {
        guard,
        next,
        postponed,
    })
}
