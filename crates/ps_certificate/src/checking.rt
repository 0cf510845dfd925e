//! The whole check of a certificate.

ghost use Rattle.std.specs.Prelude.{◌≡◌, ℕ, ◌+◌, ◌<◌, ◌↔◌, IsTrue, IsOk, IfErr, OnOk, IfNone, IfSome};
ghost use Rattle.ps_certificate.specs.Certificates.{Fits, IsValid, IsFirstFlaw};
ghost use Rattle.ps_certificate.specs.Regions.{BothHold, NoneWinsOutside};
ghost use Rattle.ps_certificate.specs.Inner.Prefixes.{AreComparable, IsRankable, KeepsCounts, KeepsCountsAt};
ghost use Rattle.ps_certificate.specs.Inner.Prefixes.{KeepCountsBefore};
ghost use Rattle.ps_certificate.specs.Inner.Prefixes.{IsFirstBroken};
ghost use Rattle.ps_certificate.specs.Inner.Prefixes.{IsFirstFlawAt, IsFirstUnranked};

use crate::certificate::Certificate;
use crate::closing::unsound_at;
use crate::flaw::Flaw;
use crate::rising::Rising;
use ps_game::{Arena, Player};

/// The first opposing priority for which an edge breaks the rule of counts. A binary search finds the first that is not
/// below either end of the edge; from there on, only nonzero counts are compared.
fn broken_priority<A: Arena>(
    arena: &A,
    certificate: &Certificate,
    vertex: usize,
    successor: usize,
) -> Option<u64>
    requires { AreComparable (A.game arena.now) certificate.now vertex successor }
    ensures none { IfNone result (KeepsCounts (A.game arena.now) certificate.now vertex successor) }
    ensures some { IfSome result (IsFirstBroken (A.game arena.now) certificate.now vertex successor) }
{
    let priorities = certificate.opposing(Player::of_number(certificate.winner(vertex)));
    let rising = Rising { list: priorities };
    let before = certificate.counts(vertex);
    let after = certificate.counts(successor);
    let own = arena.priority(vertex);
    let start = rising.first_at_least(own.max(arena.priority(successor)));
    if start == priorities.len() {
        return None;
    }
    if priorities[start] == own && after.at(start) >= before.at(start) {
        return Some(own);
    }
    match after.first_above(&before, start) {
        Some(place) => Some(priorities[place]),
        None => None,
    }
}

/// The first remaining edge of a vertex that breaks the rule of counts.
fn unranked_at<A: Arena>(arena: &A, certificate: &Certificate, vertex: usize) -> Option<Flaw>
    requires { IsRankable (A.game arena.now) certificate.now vertex }
    ensures none { IfNone result (KeepsCountsAt (A.game arena.now) certificate.now vertex) }
    ensures some { IfSome result (IsFirstFlawAt (A.game arena.now) certificate.now 1 vertex) }
{
    let _vertices = arena.count();
    if arena.owner(vertex) == certificate.winner(vertex) {
        let Some(successor) = certificate.choice(vertex) else {
            return None;
        };
        return match broken_priority(arena, certificate, vertex, successor) {
            Some(priority) => Some(Flaw::Rank {
                vertex,
                successor,
                priority,
            }),
            None => None,
        };
    }
    for number in 0..arena.degree(vertex) {
        let successor = arena.successor(vertex, number);
        if let Some(priority) = broken_priority(arena, certificate, vertex, successor) {
            return Some(Flaw::Rank {
                vertex,
                successor,
                priority,
            });
        }
    }
    None
}

/// The first flaw in the counts up to `vertex`, given that of the earlier ones.
fn unranked_through<A: Arena>(
    arena: &A,
    certificate: &Certificate,
    vertex: usize,
    earlier: Option<Flaw>,
) -> Option<Flaw>
    requires rankable { IsRankable (A.game arena.now) certificate.now vertex }
    requires none { IfNone earlier (KeepCountsBefore (A.game arena.now) certificate.now vertex) }
    requires some { IfSome earlier (IsFirstUnranked (A.game arena.now) certificate.now) }
    ensures none { IfNone result (KeepCountsBefore (A.game arena.now) certificate.now (vertex + 1)) }
    ensures some { IfSome result (IsFirstUnranked (A.game arena.now) certificate.now) }
{
    match earlier {
        Some(flaw) => Some(flaw),
        None => unranked_at(arena, certificate, vertex),
    }
}

/// Checks whether a certificate is valid: it is closed, and each remaining edge obeys the rule of counts. Allocates no
/// memory.
///
/// # Errors
///
/// The first [`Flaw`]: the one that [`crate::closed`] returns, or else the first remaining edge that breaks the rule,
/// ordered by vertex, successor and priority.
pub fn check<A: Arena>(arena: &A, certificate: &Certificate) -> Result<(), Flaw>
    requires { Fits (A.game arena.now) certificate.now }
    ensures exact { IsOk result ↔ IsValid (A.game arena.now) certificate.now }
    ensures flaw { IfErr result (IsFirstFlaw (A.game arena.now) certificate.now) }
    ensures regions { OnOk result (BothHold (A.game arena.now) certificate.now) }
    ensures best { OnOk result (NoneWinsOutside (A.game arena.now) certificate.now) }
{
    let mut unranked = None;
    for vertex in 0..arena.count() {
        if let Some(flaw) = unsound_at(arena, certificate, vertex) {
            return Err(flaw);
        }
        unranked = unranked_through(arena, certificate, vertex, unranked);
    }
    match unranked {
        Some(flaw) => Err(flaw),
        None => Ok(()),
    }
}
