//! Claimed solutions as certificates.

ghost use Rattle.std.specs.Prelude.{◌≡◌, ◌<◌, length, [], Some, IfOk, OnOk, ◌++◌, ◌∷◌};
ghost use Rattle.ps_game.specs.Games.{vertex_count};
ghost use Rattle.ps_referee.specs.Solutions.{AreSizedFor, choice_by, claimed, winner_by};
ghost use Rattle.ps_referee.specs.Inner.Building.{claims, winner_row, winner_rows};

use ps_certificate::{Certificate, Entries, Row};
use ps_game::{Arena, Player, Region, Strategy};
use ps_measure::CountTable;
use std::alloc::{AllocError, Global};

/// A claimed solution of a game.
#[derive(Drop)]
pub(crate) struct Solution<'a, A: Arena> {
    pub(crate) arena: &'a A,
    pub(crate) won: &'a Region,
    pub(crate) first: &'a Strategy,
    pub(crate) second: &'a Strategy,
    ghost sized: { AreSizedFor (A.game arena.now) won.now first.now second.now },
}

/// The certificate without priorities and counts.
pub(crate) fn claim_of<A: Arena>(
    alloc: Global,
    solution: &Solution<'_, A>,
) -> Result<Certificate, AllocError>
    ensures { IfOk result (λ claim. claim ≡
        claimed (A.game solution.now.arena.now) solution.now.won.now solution.now.first.now solution.now.second.now) }
{
    let mut entries = Entries::with_capacity(alloc, solution.arena.count())?;
    for vertex in 0..solution.arena.count() {
        let (winner, choice) = claim_at(solution, vertex);
        entries.push_row(winner, choice, &Row::of(0, &[]))?;
    }
    Ok(Certificate {
        odd: Vec::new(alloc),
        even: Vec::new(alloc),
        entries,
    })
}

pub(crate) fn entries_of<A: Arena>(
    alloc: Global,
    solution: &Solution<'_, A>,
    first_rows: &CountTable,
    second_rows: &CountTable,
) -> Result<Entries, AllocError>
    requires first_rows { length first_rows.now ≡ vertex_count (A.game solution.now.arena.now) }
    requires second_rows { length second_rows.now ≡ vertex_count (A.game solution.now.arena.now) }
    ensures { IfOk result (λ entries. entries ≡ claims (A.game solution.now.arena.now)
        solution.now.won.now solution.now.first.now solution.now.second.now
        (winner_row solution.now.won.now first_rows.now second_rows.now)
        (vertex_count (A.game solution.now.arena.now))) }
{
    let mut entries = Entries::with_capacity(alloc, solution.arena.count())?;
    let mut nonzero = Vec::new(alloc);
    for vertex in 0..solution.arena.count() {
        let rows = winner_rows(vertex, solution.won, first_rows, second_rows);
        rows.nonzero_into(vertex, &mut nonzero)?;
        let (winner, choice) = claim_at(solution, vertex);
        entries.push_row(winner, choice, &Row::of(rows.width(), &nonzero))?;
    }
    Ok(entries)
}

fn winner_rows<'a>(
    vertex: usize,
    won: &Region,
    first_rows: &'a CountTable,
    second_rows: &'a CountTable,
) -> &'a CountTable
    requires { vertex < length won.now }
    ensures { result.now ≡ winner_rows won.now first_rows.now second_rows.now vertex }
{
    if won.contains(vertex) {
        first_rows
    } else {
        second_rows
    }
}

/// The claimed winner of a vertex, and its move there.
fn claim_at<A: Arena>(solution: &Solution<'_, A>, vertex: usize) -> (Player, Option<usize>)
    requires { vertex < vertex_count (A.game solution.now.arena.now) }
    ensures winner { result.0 ≡ winner_by solution.now.won.now vertex }
    ensures choice { result.1 ≡ choice_by (A.game solution.now.arena.now) solution.now.won.now solution.now.first.now
        solution.now.second.now vertex }
{
    let (winner, moves) = if solution.won.contains(vertex) {
        (Player::EVEN, solution.first)
    } else {
        (Player::ODD, solution.second)
    };
    let choice = if winner.owns(solution.arena, vertex) {
        moves.get(vertex)
    } else {
        None
    };
    (winner, choice)
}
