//! The first half of a certificate's check.

ghost use Rattle.std.specs.Prelude.{◌≡◌, ◌≢◌, ℕ, ◌<◌, ◌↔◌, IsTrue, IsOk, IfErr, OnOk, IfNone, IfSome, length};
ghost use Rattle.ps_game.specs.Games.{vertex_count, owner_of, successors_of, HasEdge};
ghost use Rattle.ps_certificate.specs.Certificates.{HasRightMove, IsClosed, IsFirstFlaw};
ghost use Rattle.ps_certificate.specs.Regions.{BothKeep};
ghost use Rattle.ps_certificate.specs.Inner.Prefixes.{HasEntry, HasRightEntry, StaysInside, IsSoundAt, IsFirstEscape};
ghost use Rattle.ps_certificate.specs.Inner.Prefixes.{IsFirstFlawAt};

use crate::certificate::Certificate;
use crate::flaw::Flaw;
use ps_game::Arena;

fn has_edge<A: Arena>(arena: &A, vertex: usize, successor: usize) -> bool
    requires { vertex < vertex_count (A.game arena.now) }
    ensures { IsTrue result ↔ HasEdge (A.game arena.now) vertex successor }
{
    for place in 0..arena.degree(vertex) {
        if arena.successor(vertex, place) == successor {
            return true;
        }
    }
    false
}

/// Whether the move of a vertex is right: a successor if the winner owns the vertex, else none.
fn has_right_move<A: Arena>(arena: &A, certificate: &Certificate, vertex: usize) -> bool
    requires { HasEntry (A.game arena.now) certificate.now vertex }
    ensures { IsTrue result ↔ HasRightMove (A.game arena.now) certificate.now vertex }
{
    let choice = certificate.choice(vertex);
    if arena.owner(vertex) != certificate.winner(vertex) {
        return choice.is_none();
    }
    match choice {
        Some(successor) => has_edge(arena, vertex, successor),
        None => false,
    }
}

/// The end of a vertex's first escape.
fn first_escape<A: Arena>(arena: &A, certificate: &Certificate, vertex: usize) -> Option<usize>
    requires { HasRightEntry (A.game arena.now) certificate.now vertex }
    ensures none { IfNone result (StaysInside (A.game arena.now) certificate.now vertex) }
    ensures some { IfSome result (IsFirstEscape (A.game arena.now) certificate.now vertex) }
{
    let _vertices = arena.count();
    let winner = certificate.winner(vertex);
    if arena.owner(vertex) == winner {
        return match certificate.choice(vertex) {
            Some(successor) if certificate.winner(successor) != winner => Some(successor),
            _ => None,
        };
    }
    for number in 0..arena.degree(vertex) {
        let successor = arena.successor(vertex, number);
        if certificate.winner(successor) != winner {
            return Some(successor);
        }
    }
    None
}

/// The first flaw of a vertex: a wrong move, or else its first escape.
pub(crate) fn unsound_at<A: Arena>(
    arena: &A,
    certificate: &Certificate,
    vertex: usize,
) -> Option<Flaw>
    requires { HasEntry (A.game arena.now) certificate.now vertex }
    ensures none { IfNone result (IsSoundAt (A.game arena.now) certificate.now vertex) }
    ensures some { IfSome result (IsFirstFlawAt (A.game arena.now) certificate.now 0 vertex) }
{
    if !has_right_move(arena, certificate, vertex) {
        let choice = certificate.choice(vertex);
        return Some(Flaw::Move { vertex, choice });
    }
    match first_escape(arena, certificate, vertex) {
        Some(successor) => Some(Flaw::Escape { vertex, successor }),
        None => None,
    }
}

/// Checks that no move is wrong, and that no remaining edge is an escape, which leads to a vertex with the other
/// winner. Ignores priorities and counts, and allocates no memory.
///
/// # Errors
///
/// [`Flaw::Move`] or [`Flaw::Escape`], of the first vertex that has one: a wrong move, or else its first escape in the
/// order of the successors.
pub fn closed<A: Arena>(arena: &A, certificate: &Certificate) -> Result<(), Flaw>
    requires { length certificate.now.entries ≡ vertex_count (A.game arena.now) }
    ensures exact { IsOk result ↔ IsClosed (A.game arena.now) certificate.now }
    ensures flaw { IfErr result (IsFirstFlaw (A.game arena.now) certificate.now) }
    ensures regions { OnOk result (BothKeep (A.game arena.now) certificate.now) }
{
    for vertex in 0..arena.count() {
        if let Some(flaw) = unsound_at(arena, certificate, vertex) {
            return Err(flaw);
        }
    }
    Ok(())
}
