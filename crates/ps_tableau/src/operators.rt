//! The covers of each formula, by those of its operands.

ghost use Rattle.std.specs.Prelude.{◌≡◌, ◌<◌, ◌∷◌, [], Contains, IfOk, Some, length, slice_get};
ghost use Rattle.ps_formula.specs.NormalForms.{NormalFormula, after, keeps, literal, normal_formula_at, reaches, truth};
ghost use Rattle.ps_tableau.specs.Boards.{HasCovers, HaveWays, covers_of};
ghost use Rattle.ps_tableau.specs.Covers.{AreCoversOf};
ghost use Rattle.ps_tableau.specs.Inner.Calls.{Gives, GivesCovers, GivesEdges};
ghost use Rattle.ps_tableau.specs.Inner.Joins.{HasBothLists, HaveWaysBelow};
ghost use Rattle.ps_tableau.specs.Needs.{IsNeeded};

use crate::board::Board;
use crate::edge::Edge;
use crate::joins::{appended, either, joined};
use crate::reduction::reduced;
use crate::single;
use ps_formula::NormalNode;
use std::alloc::AllocError;

/// The covers of each formula that is needed, by its index.
pub(crate) fn all_ways(board: &mut Board) -> Result<Vec<Vec<Edge>>, AllocError>
    ensures ways { Gives board.old board.new result (λ ways. HaveWays board.new ways.items) }
    ensures count { IfOk result (λ ways. length ways.items ≡ length board.old.formulas) }
{
    board.parts_fit();
    let mut ways = Vec::new(board.allocator());
    for index in 0..board.formulas().len() {
        let covers = next_ways(board, index as u32, &ways)?;
        ways.push(covers)?;
    }
    Ok(ways)
}

/// The covers of the next formula, if it is needed.
fn next_ways(board: &mut Board, index: u32, known: &[Vec<Edge>]) -> Result<Vec<Edge>, AllocError>
    requires index { index < length board.old.formulas }
    requires known { HaveWaysBelow board.old index known.now }
    ensures { Gives board.old board.new result (λ edges. IsNeeded board.old.needed.items index →
        HasCovers board.new (normal_formula_at board.old.formulas index ∷ []) edges.items) }
{
    board.parts_fit();
    if !board.is_needed(index) {
        return Ok(Vec::new(board.allocator()));
    }
    let node = board.formulas().as_slice()[index as usize];
    let covers = ways_of(board, index, node, known)?;
    reduced(board, &covers)
}

/// The covers of a formula, by those of the formulas before it.
fn ways_of(
    board: &mut Board,
    index: u32,
    node: NormalNode,
    known: &[Vec<Edge>],
) -> Result<Vec<Edge>, AllocError>
    requires node { slice_get board.old.formulas index ≡ Some node }
    requires needed { IsNeeded board.old.needed.items index }
    requires known { HaveWaysBelow board.old index known.now }
    ensures { GivesCovers board.old board.new result (normal_formula_at board.old.formulas index ∷ []) }
{
    board.parts_fit();
    match node {
        NormalNode::Constant(value) => ways_of_constant(board, value),
        NormalNode::Proposition(p) => ways_of_literal(board, p, false),
        NormalNode::Negated(p) => ways_of_literal(board, p, true),
        NormalNode::Next(f) => ways_of_next(board, f),
        NormalNode::And(f, g) => {
            let first = ways_at(board, known, f);
            let second = ways_at(board, known, g);
            joined(board, first, second)
        }
        NormalNode::Or(f, g) => {
            let first = ways_at(board, known, f);
            let second = ways_at(board, known, g);
            either(board, first, second)
        }
        NormalNode::Until(f, g) => {
            let first = ways_at(board, known, f);
            let second = ways_at(board, known, g);
            ways_of_until(board, index, first, second)
        }
        NormalNode::Release(f, g) => {
            let first = ways_at(board, known, f);
            let second = ways_at(board, known, g);
            ways_of_release(board, index, first, second)
        }
    }
}

/// The known covers of a formula of the board.
pub(crate) fn ways_at<'a>(board: &Board, known: &'a [Vec<Edge>], index: u32) -> &'a [Edge]
    requires known { HaveWays board.now known.now }
    requires within { index < length known.now }
    requires needed { IsNeeded board.now.needed.items index }
    ensures { HasCovers board.now (normal_formula_at board.now.formulas index ∷ []) result.now }
{
    board.parts_fit();
    &known[index as usize]
}

/// Those of `true` or `false`.
fn ways_of_constant(board: &mut Board, value: bool) -> Result<Vec<Edge>, AllocError>
    ensures { GivesCovers board.old board.new result (truth value ∷ []) }
{
    board.parts_fit();
    if !value {
        return Ok(Vec::new(board.allocator()));
    }
    let edge = single::free(board)?;
    appended(board.allocator(), &[edge], &[])
}

/// Those of a proposition or its negation.
fn ways_of_literal(board: &mut Board, p: u32, negated: bool) -> Result<Vec<Edge>, AllocError>
    requires { p < 64 }
    ensures { GivesCovers board.old board.new result (literal negated p ∷ []) }
{
    let edge = single::literal(board, p, negated)?;
    appended(board.allocator(), &[edge], &[])
}

/// Those of `X f`.
fn ways_of_next(board: &mut Board, f: u32) -> Result<Vec<Edge>, AllocError>
    requires { IsNeeded board.old.needed.items f }
    ensures { GivesCovers board.old board.new result (after (normal_formula_at board.old.formulas f) ∷ []) }
{
    let edge = single::next(board, f)?;
    appended(board.allocator(), &[edge], &[])
}

/// Those of an until.
fn ways_of_until(
    board: &mut Board,
    index: u32,
    first: &[Edge],
    second: &[Edge],
) -> Result<Vec<Edge>, AllocError>
    requires index { IsNeeded board.old.needed.items index }
    requires until { Contains board.old.untils.items index }
    requires operands { HasBothLists board.old first.now second.now }
    ensures { GivesEdges board.old board.new result (λ covers. (f g : NormalFormula) →
        normal_formula_at board.old.formulas index ≡ reaches f g →
        AreCoversOf (f ∷ []) (covers_of board.old first.now) →
        AreCoversOf (g ∷ []) (covers_of board.old second.now) → AreCoversOf (reaches f g ∷ []) covers) }
{
    let edge = single::postponing(board, index)?;
    let later = joined(board, first, &[edge])?;
    either(board, second, &later)
}

/// Those of a release.
fn ways_of_release(
    board: &mut Board,
    index: u32,
    first: &[Edge],
    second: &[Edge],
) -> Result<Vec<Edge>, AllocError>
    requires index { IsNeeded board.old.needed.items index }
    requires operands { HasBothLists board.old first.now second.now }
    ensures { GivesEdges board.old board.new result (λ covers. (f g : NormalFormula) →
        normal_formula_at board.old.formulas index ≡ keeps f g →
        AreCoversOf (f ∷ []) (covers_of board.old first.now) →
        AreCoversOf (g ∷ []) (covers_of board.old second.now) → AreCoversOf (keeps f g ∷ []) covers) }
{
    let edge = single::next(board, index)?;
    let either = appended(board.allocator(), first, &[edge])?;
    joined(board, second, &either)
}
