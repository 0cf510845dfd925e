//! The simplest covers.

ghost use Rattle.std.specs.Prelude.{◌<◌, Contains, true};
ghost use Rattle.ps_formula.specs.NormalForms.{normal_formula_at};
ghost use Rattle.ps_tableau.specs.Boards.{IsSetOf, IsState, formulas_in};
ghost use Rattle.ps_tableau.specs.Inner.Calls.{GivesEdge};
ghost use Rattle.ps_tableau.specs.Needs.{IsNeeded};
ghost use Rattle.ps_tableau.specs.Operators.{free_cover, literal_cover, next_cover, postponing_cover};

use crate::board::Board;
use crate::edge::Edge;
use crate::set::Set;
use std::alloc::AllocError;

/// The cover that asks for nothing.
pub(crate) fn free(board: &mut Board) -> Result<Edge, AllocError>
    ensures { GivesEdge board.old board.new result free_cover }
{
    everywhere(board, Set::EMPTY, Set::EMPTY)
}

/// The cover that leaves a formula for the next index.
pub(crate) fn next(board: &mut Board, index: u32) -> Result<Edge, AllocError>
    requires { IsNeeded board.old.needed.items index }
    ensures { GivesEdge board.old board.new result (next_cover (normal_formula_at board.old.formulas index)) }
{
    let next = board.set_with(index, Set::EMPTY)?;
    everywhere(board, next, Set::EMPTY)
}

/// The cover that postpones an until.
pub(crate) fn postponing(board: &mut Board, index: u32) -> Result<Edge, AllocError>
    requires index { IsNeeded board.old.needed.items index }
    requires until { Contains board.old.untils.items index }
    ensures { GivesEdge board.old board.new result
        (postponing_cover (normal_formula_at board.old.formulas index)) }
{
    let next = board.set_with(index, Set::EMPTY)?;
    everywhere(board, next, next)
}

/// The cover that serves where a proposition is true, or where it is false.
pub(crate) fn literal(board: &mut Board, p: u32, negated: bool) -> Result<Edge, AllocError>
    requires { p < 64 }
    ensures { GivesEdge board.old board.new result (literal_cover negated p) }
{
    let guard = board.letters_of(p, negated)?;
    Ok(Edge {
        guard,
        next: Set::EMPTY,
        postponed: Set::EMPTY,
    })
}

/// The cover that serves at each letter.
fn everywhere(board: &mut Board, next: Set, postponed: Set) -> Result<Edge, AllocError>
    requires next { IsState board.old next }
    requires postponed { IsSetOf (Contains board.old.untils.items) board.old postponed }
    ensures { GivesEdge board.old board.new result (record {
      guard = λ _. true;
      next = formulas_in board.old next;
      postponed = formulas_in board.old postponed;
    }) }
{
    let guard = board.every_letter()?;
    Ok(Edge {
        guard,
        next,
        postponed,
    })
}
