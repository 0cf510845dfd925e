//! Synthesis, from an HOA text to a report.

ghost use Rattle.std.specs.Prelude.{◌≡◌, true, IfOk, IfErr};
ghost use Rattle.ps_hoa.specs.Files.{FileData};
ghost use Rattle.ps_solver.specs.Solvers.{Answered, IsKept};
ghost use Rattle.ps_synthesis.specs.Promises.{IsAcceptedText};
ghost use Rattle.ps_synthesis.specs.Reports.{IsReport};
ghost use Rattle.ps_synthesis.specs.SynthFaults.{IsReportOrFault, IsSynthFault};

use ps_machine::{Order, Solver};
use ps_synthesis::{Report, SynthFault, synthesise_by};
use std::alloc::Global;

/// The report on an HOA text. The report contains the game of the text's automaton in the given order of moves, a
/// certificate of the game that the given solver found, and the circuit of the player who wins from the start. The
/// certificate lists the counts of each vertex for all priorities or, with `compact`, only the nonzero ones.
///
/// # Errors
///
/// Fails with the first error of the text, or else with the reason why psyn builds no automaton from it. If the solver
/// fails, fails with the solver's fault. Fails if the solver's certificate does not fit the game or is not valid. With
/// a valid certificate, fails if the circuit is too large. Fails at any time if memory runs out.
pub fn synthesise(
    alloc: Global,
    text: &[u8],
    order: Order,
    compact: bool,
    solver: &mut Box<dyn Solver>,
) -> Result<Report, SynthFault>
    // The report is right, whatever the solver does, and each fault is returned only if its cause is there. The clauses
    // `report` and `refused` refer to what the solver returned.
    ensures report { IfOk result (IsReport (Answered (known solver.old) (known solver.new)) order compact text.now) }
    ensures refused { IfErr result (IsSynthFault (Answered (known solver.old) (known solver.new)) order text.now) }
    // If the solver is sure (its certificates are always valid, and it fails only if memory runs out), every accepted
    // text gets a report, unless memory runs out or the circuit is too large.
    ensures sure { (known solver.old).is_sure ≡ true → (file : FileData) → IsAcceptedText text.now file →
        IsReportOrFault (Answered (known solver.old) (known solver.new)) order compact text.now result }
    // The call changes neither whether the solver is sure nor the text that the solver was fed (given) before. Every
    // answer that the solver may give after the call was possible before.
    ensures kept { IsKept (known solver.old) (known solver.new) }
{
    synthesise_by(alloc, text, order, compact, solver)
}
