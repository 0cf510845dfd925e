//! Checks certificates that solvers return.

ghost use Rattle.std.specs.Prelude.{◌≡◌, ◌<◌, ◌↔◌, IsTrue, true, map, slice_index, All, Ok, Err, IfOk, IfErr};
ghost use Rattle.ps_certificate.specs.Regions.{BothHold, NoneWinsOutside};
ghost use Rattle.ps_game.specs.Games.{vertex_count};
ghost use Rattle.ps_solver.specs.Solvers.{Answered, IsKept};
ghost use Rattle.ps_solver.specs.Solving.{IsCertified, NamesVertices};
ghost use Rattle.ps_synthesis.specs.Stages.{IsFaultFor, IsSolverFault};
ghost use Rattle.ps_synthesis.specs.declared.fault.SynthFault.TheVariants.{OutOfMemory};

use crate::fault::SynthFault;
use ps_certificate::{Certificate, check, fits};
use ps_game::NamedGame;
use ps_machine::{SolveFault, Solver};
use std::alloc::{AllocError, Global};

/// The certificate that a solver returns, if it fits the game and is valid. Fails with the solver's fault, with
/// `NotCertified`, or if out of memory: with a sure solver, the only fault.
pub fn certified<S: Solver>(
    alloc: Global,
    game: &NamedGame,
    solver: &mut S,
) -> Result<Certificate, SynthFault>
    ensures answered { IfOk result (λ certificate. Answered (S.known solver.old) (S.known solver.new) game.now
        (Ok certificate)) }
    ensures certified { IfOk result (IsCertified game.now) }
    ensures both_hold { IfOk result (BothHold game.now.game) }
    ensures none_wins_outside { IfOk result (NoneWinsOutside game.now.game) }
    ensures refused { IfErr result (IsSolverFault (Answered (S.known solver.old) (S.known solver.new)) game.now) }
    ensures sure { (S.known solver.old).is_sure ≡ true → IfErr result (λ fault. fault ≡ OutOfMemory) }
    ensures kept { IsKept (S.known solver.old) (S.known solver.new) }
{
    match solver.solve(game) {
        Ok(certificate) if is_certified(game, &certificate) => Ok(certificate),
        Ok(_) => Err(SynthFault::NotCertified),
        Err(fault) => Err(refused(alloc, game, fault)),
    }
}

/// Whether a certificate fits a game and is valid.
pub fn is_certified(game: &NamedGame, certificate: &Certificate) -> bool
    ensures exact { IsTrue result ↔ IsCertified game.now certificate.now }
    ensures both_hold { IsTrue result → BothHold game.now.game certificate.now }
    ensures none_wins_outside { IsTrue result → NoneWinsOutside game.now.game certificate.now }
{
    fits(game.game(), certificate) && check(game.game(), certificate).is_ok()
}

/// The fault of synthesis for a solver's fault, with ids for vertices.
fn refused(alloc: Global, game: &NamedGame, fault: SolveFault) -> SynthFault
    requires { NamesVertices game.now (Err fault) }
    ensures { IsFaultFor game.now fault result }
{
    match fault {
        SolveFault::BadCycle(cycle) => match ids_of(alloc, game, &cycle) {
            Ok(ids) => SynthFault::BadCycle(ids),
            Err(_) => SynthFault::OutOfMemory,
        },
        SolveFault::Text { cause, offset } => SynthFault::Certificate { cause, offset },
        SolveFault::OutOfMemory => SynthFault::OutOfMemory,
    }
}

/// The ids that the given vertices have in the game's text. Fails if out of memory.
pub fn ids_of(alloc: Global, game: &NamedGame, vertices: &[usize]) -> Result<Vec<u64>, AllocError>
    requires { All (λ v. v < vertex_count game.now.game) vertices.now }
    ensures { IfOk result (λ ids. ids.items ≡ map (λ v. slice_index game.now.ids v) vertices.now) }
{
    let mut ids = Vec::new(alloc);
    for vertex in vertices {
        ids.push(game.id(*vertex))?;
    }
    Ok(ids)
}
