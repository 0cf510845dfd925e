//! From an HOA text to a report, with a given solver.

ghost use Rattle.std.specs.Prelude.{◌≡◌, ℕ, true, List, IfOk, IfErr};
ghost use Rattle.ps_hoa.specs.Files.{FileData};
ghost use Rattle.ps_solver.specs.Solvers.{Answered, IsKept};
ghost use Rattle.ps_machine.specs.declared.key.Order.{Order};
ghost use Rattle.ps_synthesis.specs.Problems.{IsProblemOf};
ghost use Rattle.ps_synthesis.specs.Promises.{IsAcceptedText};
ghost use Rattle.ps_synthesis.specs.Reports.{IsReport};
ghost use Rattle.ps_synthesis.specs.SynthFaults.{IsReportOrFault, IsSynthFault};

use crate::fault::SynthFault;
use crate::problem::Problem;
use crate::report::{Report, report_of};
use ps_machine::{Order, Solver};
use std::alloc::Global;

/// The report of an HOA text. Fails with the first of these: an error of the text, the reason why it has no automaton,
/// the solver's fault, `NotCertified`, `CircuitTooLarge`; or if out of memory.
pub fn synthesise_by<S: Solver>(
    alloc: Global,
    text: &[u8],
    order: Order,
    compact: bool,
    solver: &mut S,
) -> Result<Report, SynthFault>
    // Whatever the solver returns, which `Answered` refers to, a report is right and a fault has its cause.
    ensures report { IfOk result (IsReport (Answered (S.known solver.old) (S.known solver.new)) order compact
        text.now) }
    ensures refused { IfErr result (IsSynthFault (Answered (S.known solver.old) (S.known solver.new)) order
        text.now) }
    // With a sure solver, an accepted text gets a report, unless memory runs out or the circuit is too large.
    ensures sure { (S.known solver.old).is_sure ≡ true → (file : FileData) → IsAcceptedText text.now file →
        IsReportOrFault (Answered (S.known solver.old) (S.known solver.new)) order compact text.now result }
    // The solver stays as sure as it was, is fed the same text, and can give no answer that it could not give before.
    ensures kept { IsKept (S.known solver.old) (S.known solver.new) }
{
    let problem = Problem::read(alloc, text, order)?;
    let report = report_by(alloc, &problem, compact, solver);
    problem.close();
    report
}

/// The report of a problem, whose game the solver solves.
fn report_by<S: Solver>(
    alloc: Global,
    problem: &Problem,
    compact: bool,
    solver: &mut S,
) -> Result<Report, SynthFault>
    ensures report { (order : Order) (text : List ℕ) → IsProblemOf order text problem.now →
        IfOk result (IsReport (Answered (S.known solver.old) (S.known solver.new)) order compact text) }
    ensures refused { (order : Order) (text : List ℕ) → IsProblemOf order text problem.now →
        IfErr result (IsSynthFault (Answered (S.known solver.old) (S.known solver.new)) order text) }
    ensures sure { (S.known solver.old).is_sure ≡ true → (order : Order) (text : List ℕ) →
        IsProblemOf order text problem.now →
        IsReportOrFault (Answered (S.known solver.old) (S.known solver.new)) order compact text result }
    ensures kept { IsKept (S.known solver.old) (S.known solver.new) }
{
    let synthesis = problem.solve(alloc, solver)?;
    Ok(report_of(
        alloc,
        problem.game(),
        &synthesis.certificate,
        &synthesis.circuit,
        compact,
    )?)
}
