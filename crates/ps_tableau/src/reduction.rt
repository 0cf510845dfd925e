//! A set loses the formulas that its others bring back.

ghost use Rattle.std.specs.Prelude.{◌≡◌, ◌<◌, ◌∷◌, [], All, IsTrue, OnOk, Some, length, slice_get};
ghost use Rattle.ps_formula.specs.NormalForms.{IsNormalTable, normal_formula_at};
ghost use Rattle.ps_tableau.specs.Boards.{IsEdgeOf, IsState, cover_of, covers_of};
ghost use Rattle.ps_tableau.specs.Inner.Calls.{Gives, GivesEdges};
ghost use Rattle.ps_tableau.specs.Inner.Pruning.{Makes};
ghost use Rattle.ps_tableau.specs.Inner.Reduction.{IsFormulaAt, IsOneOf, IsReduced, KeepsOrBrings, WithinTable};
ghost use Rattle.ps_tableau.specs.Covers.{Brings};
ghost use Rattle.ps_tableau.specs.Operators.{ArePruned};

use crate::board::Board;
use crate::edge::Edge;
use crate::pruning::pruned;
use crate::set::Set;
use ps_formula::{NormalFormulas, NormalNode};
use std::alloc::AllocError;

/// The covers with reduced sets for the next index, pruned.
pub(crate) fn reduced(board: &mut Board, edges: &[Edge]) -> Result<Vec<Edge>, AllocError>
    requires { All (IsEdgeOf board.old) edges.now }
    ensures { GivesEdges board.old board.new result (ArePruned (covers_of board.old edges.now)) }
{
    board.parts_fit();
    let mut reduced = Vec::new(board.allocator());
    for edge in edges {
        let one = reduced_edge(board, edge)?;
        reduced.push(one)?;
    }
    pruned(board, &reduced)
}

fn reduced_edge(board: &mut Board, edge: &Edge) -> Result<Edge, AllocError>
    requires { IsEdgeOf board.old edge.now }
    ensures { Gives board.old board.new result
        (Makes board.new (λ c. ArePruned (cover_of board.old edge.now ∷ []) (c ∷ []))) }
{
    let next = reduced_set(board, edge.next)?;
    Ok(Edge {
        guard: edge.guard,
        next,
        postponed: edge.postponed,
    })
}

/// A set without the formulas that its others bring back, which is then known to be reduced.
fn reduced_set(board: &mut Board, set: Set) -> Result<Set, AllocError>
    requires { IsState board.old set }
    ensures { Gives board.old board.new result (IsReduced board.old set board.new) }
{
    board.parts_fit();
    if board.sets().is_reduced(set) {
        return Ok(set);
    }
    let reduced = reduced_anew(board, set)?;
    board.note_reduced(reduced);
    Ok(reduced)
}

fn reduced_anew(board: &mut Board, set: Set) -> Result<Set, AllocError>
    requires { IsState board.old set }
    ensures { Gives board.old board.new result (IsReduced board.old set board.new) }
{
    board.parts_fit();
    let members = board.members(set)?;
    let mut kept = Vec::new(board.allocator());
    for place in 0..members.len() {
        keep(
            board.formulas(),
            &mut kept,
            &members[place + 1..],
            members[place],
        )?;
    }
    board.set_with_all(&kept, Set::EMPTY)
}

/// Adds a formula, unless those of either list bring it back.
fn keep(
    formulas: &NormalFormulas,
    kept: &mut Vec<u32>,
    rest: &[u32],
    index: u32,
) -> Result<(), AllocError>
    requires kept { WithinTable formulas.now kept.old.items }
    requires rest { WithinTable formulas.now rest.now }
    requires index { index < length formulas.now }
    ensures { OnOk result (KeepsOrBrings formulas.now kept.old.items rest.now index kept.new.items) }
{
    if is_brought(formulas, kept, index) {
        return Ok(());
    }
    if is_brought(formulas, rest, index) {
        return Ok(());
    }
    kept.push(index)?;
    Ok(())
}

/// Whether one of these formulas brings a formula back.
fn is_brought(formulas: &NormalFormulas, known: &[u32], index: u32) -> bool
    requires known { WithinTable formulas.now known.now }
    requires index { index < length formulas.now }
    ensures { IsTrue result → Brings (IsOneOf formulas.now known.now) (normal_formula_at formulas.now index) }
{
    for other in known {
        if brings(formulas, *other, index) {
            return true;
        }
    }
    false
}

/// Whether a formula brings another back: it keeps it, or its end.
fn brings(formulas: &NormalFormulas, from: u32, to: u32) -> bool
    requires from { from < length formulas.now }
    requires to { to < length formulas.now }
    ensures { IsTrue result → Brings (IsFormulaAt formulas.now from) (normal_formula_at formulas.now to) }
{
    let mut end = to;
    'ends: loop {
        if keeps(formulas, from, end) {
            return true;
        }
        match node_at(formulas, end) {
            NormalNode::Until(_, g) => end = g,
            _ => return false,
        }
    }
}

/// Whether a formula keeps another: it is that, or a release whose right side keeps it.
fn keeps(formulas: &NormalFormulas, from: u32, to: u32) -> bool
    requires { from < length formulas.now }
    ensures { IsTrue result → Brings (IsFormulaAt formulas.now from) (normal_formula_at formulas.now to) }
{
    let mut kept = from;
    loop {
        if kept == to {
            return true;
        }
        match node_at(formulas, kept) {
            NormalNode::Release(_, g) => kept = g,
            _ => return false,
        }
    }
}

fn node_at(formulas: &NormalFormulas, index: u32) -> NormalNode
    requires { index < length formulas.now }
    ensures node { slice_get formulas.now index ≡ Some result }
    ensures table { IsNormalTable formulas.now }
{
    formulas.as_slice()[index as usize]
}
