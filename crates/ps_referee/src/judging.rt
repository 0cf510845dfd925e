//! Judges claimed solutions.

ghost use Rattle.std.specs.Prelude.{◌≡◌, ℕ, ◌<◌, length, not, IfOk, IfErr, OnOk};
ghost use Rattle.ps_game.specs.Games.{vertex_count};
ghost use Rattle.ps_game.specs.Regions.{has, move_at};
ghost use Rattle.ps_certificate.specs.Certificates.{IsClosed};
ghost use Rattle.ps_measure.specs.Ranks.{AreRanks};
ghost use Rattle.ps_referee.specs.Solutions.{claimed, AreSizedFor, IsCertificateOf, IsSolution, IsRefusal};
ghost use Rattle.ps_referee.specs.Solutions.{IsOutOfMemory};
ghost use Rattle.ps_referee.specs.Inner.Counting.{IsLostIn};

use crate::building::{Solution, claim_of, entries_of};
use crate::fault::JudgeFault;
use ps_certificate::{Certificate, closed};
use ps_game::{Arena, Counts, Player, Region, Strategy};
use ps_measure::{MeasureFault, Ranks, ranks};
use std::alloc::{AllocError, Global};

/// The certificate of a solution, with the least counts. Player 0 wins `won`, player 1 the rest.
///
/// # Errors
///
/// [`JudgeFault::Unclosed`] has the first flaw, as [`ps_certificate::closed`] reports it; [`JudgeFault::BadCycle`] has
/// a lost cycle of a solution without a flaw; [`JudgeFault::OutOfMemory`] is the only error of a right one.
pub fn judge<A: Arena>(
    alloc: Global,
    arena: &A,
    won: &Region,
    first: &Strategy,
    second: &Strategy,
) -> Result<Certificate, JudgeFault>
    requires sized { AreSizedFor (A.game arena.now) won.now first.now second.now }

    // Right means that each player's moves stay among the vertices that it is claimed to win, and win there.
    ensures solution { OnOk result (IsSolution (A.game arena.now) won.now first.now second.now) }
    ensures judged { IsSolution (A.game arena.now) won.now first.now second.now → IfErr result IsOutOfMemory }

    ensures certificate { IfOk result (IsCertificateOf (A.game arena.now) won.now first.now second.now) }

    ensures refused { IfErr result (IsRefusal (A.game arena.now) won.now first.now second.now) }
{
    let _vertices = arena.count();
    let solution = Solution {
        arena,
        won,
        first,
        second,
    };
    closing(alloc, &solution)?;
    counting(alloc, &solution)
}

/// The certificate, with the least counts, of a solution that is right, which is not checked. Fails only if out of
/// memory.
pub fn certificate_of_solution<A: Arena>(
    alloc: Global,
    arena: &A,
    won: &Region,
    first: &Strategy,
    second: &Strategy,
) -> Result<Certificate, AllocError>
    requires sized { AreSizedFor (A.game arena.now) won.now first.now second.now }
    requires holds { IsSolution (A.game arena.now) won.now first.now second.now }

    ensures certificate { IfOk result (IsCertificateOf (A.game arena.now) won.now first.now second.now) }
{
    let _vertices = arena.count();
    let solution = Solution {
        arena,
        won,
        first,
        second,
    };
    match counting(alloc, &solution) {
        Ok(certificate) => Ok(certificate),
        Err(JudgeFault::OutOfMemory) => Err(AllocError),
        Err(JudgeFault::Unclosed(_)) => unreachable!(),
        Err(
            JudgeFault::BadCycle {
                player: _,
                cycle: _,
            },
        ) => unreachable!(),
    }
}

/// Checks that there is no flaw.
fn closing<A: Arena>(alloc: Global, solution: &Solution<'_, A>) -> Result<(), JudgeFault>
    ensures closed { OnOk result
        (IsClosed (A.game solution.now.arena.now) (claimed (A.game solution.now.arena.now) solution.now.won.now
        solution.now.first.now solution.now.second.now)) }
    ensures refused { IfErr result (IsRefusal (A.game solution.now.arena.now) solution.now.won.now
        solution.now.first.now solution.now.second.now) }
{
    let claim = claim_of(alloc, solution)?;
    match closed(solution.arena, &claim) {
        Ok(()) => Ok(()),
        Err(flaw) => Err(JudgeFault::Unclosed(flaw)),
    }
}

/// The certificate of a solution without a flaw, or a lost cycle.
fn counting<A: Arena>(alloc: Global, solution: &Solution<'_, A>) -> Result<Certificate, JudgeFault>
    requires { IsClosed (A.game solution.now.arena.now)
        (claimed (A.game solution.now.arena.now) solution.now.won.now solution.now.first.now solution.now.second.now) }
    ensures solution { OnOk result (IsSolution (A.game solution.now.arena.now) solution.now.won.now
        solution.now.first.now solution.now.second.now) }
    ensures certificate { IfOk result (IsCertificateOf (A.game solution.now.arena.now) solution.now.won.now
        solution.now.first.now solution.now.second.now) }
    ensures refused { IfErr result (IsRefusal (A.game solution.now.arena.now) solution.now.won.now
        solution.now.first.now solution.now.second.now) }
{
    let arena = solution.arena;
    let _vertices = arena.count();
    let lost = others(alloc, solution.won)?;
    let odd = counts_of(alloc, arena, Player::EVEN, solution.won, solution.first)?;
    let even = counts_of(alloc, arena, Player::ODD, &lost, solution.second)?;
    let entries = entries_of(alloc, solution, &odd.counts, &even.counts)?;
    Ok(Certificate {
        odd: odd.priorities,
        even: even.priorities,
        entries,
    })
}

fn others(alloc: Global, region: &Region) -> Result<Region, AllocError>
    ensures places { IfOk result (λ others. length others ≡ length region.now) }
    ensures others { IfOk result (λ others. (v : ℕ) → v < length region.now → has others v ≡ not (has region.now v)) }
{
    let mut others = Region::full(alloc, region.places())?;
    others.difference_with(region);
    Ok(others)
}

/// The least counts for the vertices that a player is claimed to win, or a cycle there that it loses.
fn counts_of<A: Arena>(
    alloc: Global,
    arena: &A,
    player: Player,
    region: &Region,
    strategy: &Strategy,
) -> Result<Ranks, JudgeFault>
    requires region { length region.now ≡ vertex_count (A.game arena.now) }
    requires strategy { length strategy.now ≡ vertex_count (A.game arena.now) }
    ensures ranks { IfOk result (λ r. AreRanks (A.game arena.now) player (has region.now) (move_at strategy.now)
        r.priorities.items r.counts) }
    ensures lost { IfErr result (IsLostIn (A.game arena.now) player (has region.now) (move_at strategy.now)) }
{
    let mut counts = Counts::default();
    match ranks(alloc, arena, player, region, strategy, &mut counts) {
        Ok(ranks) => Ok(ranks),
        Err(MeasureFault::BadCycle { cycle }) => Err(JudgeFault::BadCycle {
            player: player.number(),
            cycle,
        }),
        Err(MeasureFault::OutOfMemory) => Err(JudgeFault::OutOfMemory),
    }
}
