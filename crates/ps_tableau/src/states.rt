//! The covers of a state.

ghost use Rattle.std.specs.Prelude.{◌<◌, ◌∷◌, ℕ, [], All, List, length};
ghost use Rattle.ps_formula.specs.NormalForms.{NormalFormula, normal_formula_at};
ghost use Rattle.ps_tableau.specs.Boards.{AreKnown, HasCovers, IsEdgeOf, IsRight, IsState, covers_of, formulas_in};
ghost use Rattle.ps_tableau.specs.Covers.{AreCoversOf};
ghost use Rattle.ps_tableau.specs.Inner.Calls.{GivesEdges, GivesKnown};
ghost use Rattle.ps_tableau.specs.Inner.Joins.{IsPlaceOf};
ghost use Rattle.ps_tableau.specs.Needs.{IsNeeded};

use crate::board::Board;
use crate::edge::Edge;
use crate::joins::{appended, products};
use crate::known::Known;
use crate::operators::ways_at;
use crate::reduction::reduced;
use crate::set::Set;
use crate::single;
use std::alloc::AllocError;

/// The edges from a state. The covers of its sets of least formulas are kept.
pub(crate) fn edges_from(
    board: &mut Board,
    ways: &[Vec<Edge>],
    known: &mut Known,
    state: Set,
) -> Result<Vec<Edge>, AllocError>
    requires right { IsRight board.old ways.now }
    requires known { AreKnown board.old known.old }
    requires state { IsState board.old state }
    ensures { GivesKnown board.old board.new known.new result (λ edges.
        HasCovers board.new (formulas_in board.old state) edges.items) }
{
    board.parts_fit();
    let formulas = board.members(state)?;
    let mut last = place_of_none(board, known)?;
    for place in (0..formulas.len()).rev() {
        last = place_with(board, ways, known, formulas[place], last)?;
    }
    appended(board.allocator(), &known.covers[last], &[])
}

/// The place of the empty set.
fn place_of_none(board: &mut Board, known: &mut Known) -> Result<usize, AllocError>
    requires { AreKnown board.old known.old }
    ensures { GivesKnown board.old board.new known.new result (IsPlaceOf board.new known.new []) }
{
    board.parts_fit();
    if let Some(place) = known.sets.find(Set::EMPTY) {
        return Ok(place);
    }
    let free = single::free(board)?;
    let covers = appended(board.allocator(), &[free], &[])?;
    known.add(Set::EMPTY, covers)
}

/// The place of the set with the formulas of another and one more, the greatest, by the place of the other.
fn place_with(
    board: &mut Board,
    ways: &[Vec<Edge>],
    known: &mut Known,
    index: u32,
    others: usize,
) -> Result<usize, AllocError>
    requires right { IsRight board.old ways.now }
    requires known { AreKnown board.old known.old }
    requires needed { IsNeeded board.old.needed.items index }
    requires others { others < length known.old.sets }
    ensures { GivesKnown board.old board.new known.new result (λ place. (rest : List ℕ) →
        IsPlaceOf board.old known.old rest others → IsPlaceOf board.new known.new (index ∷ rest) place) }
{
    board.parts_fit();
    let rest = known.sets.as_slice()[others];
    let set = board.set_with(index, rest)?;
    if let Some(place) = known.sets.find(set) {
        return Ok(place);
    }
    let covers = joined_with(board, ways, index, &known.covers[others])?;
    known.add(set, covers)
}

/// The covers of a formula and others, by those of the others.
fn joined_with(
    board: &mut Board,
    ways: &[Vec<Edge>],
    index: u32,
    edges: &[Edge],
) -> Result<Vec<Edge>, AllocError>
    requires right { IsRight board.old ways.now }
    requires edges { All (IsEdgeOf board.old) edges.now }
    requires needed { IsNeeded board.old.needed.items index }
    ensures { GivesEdges board.old board.new result (λ covers. (others : List NormalFormula) →
        AreCoversOf others (covers_of board.old edges.now) →
        AreCoversOf (normal_formula_at board.old.formulas index ∷ others) covers) }
{
    board.parts_fit();
    let first = ways_at(board, ways, index);
    let products = products(board, first, edges)?;
    reduced(board, &products)
}
