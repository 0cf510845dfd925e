//! The command `synth`.

ghost use Rattle.std.specs.Prelude.{◌≡◌, ℕ, List};
ghost use Rattle.ps_program.specs.Outcomes.{Gives};
ghost use Rattle.ps_program.specs.Replies.{reply_of};
ghost use Rattle.ps_program.specs.Solvers.{solvers_of};
ghost use Rattle.ps_program.specs.Commands.Synthesis.{AnswersCertified, AnswersReport, AnswersSynth};
ghost use Rattle.ps_synthesis.specs.Problems.{IsProblemOf};

use crate::answer::{Answer, Refusal};
use crate::commands::SynthLine;
use crate::printing::{print, print_circuit};
use crate::texts::two_texts;
use ps_machine::Solver;
use ps_synthesis::{Attempt, Problem, attempted};
use std::alloc::Global;

/// The circuit for the automaton of a text. If a certificate follows, the second solver is fed it. Fails if a text is
/// missing, or with the fault of synthesis.
pub fn synth<S: Solver, T: Solver>(
    alloc: Global,
    asked: SynthLine,
    texts: &[u8],
    built_in: &mut S,
    replay: &mut T,
) -> Result<Answer, Refusal>
    ensures answer { Gives reply_of (AnswersSynth (solvers_of (S.known built_in.old) (T.known replay.old)) asked
        texts.now) result }
    ensures built_in_kept { (S.known built_in.new).is_sure ≡ (S.known built_in.old).is_sure }
    ensures replay_kept { (T.known replay.new).is_sure ≡ (T.known replay.old).is_sure }
{
    if asked.cert {
        report_by_certificate(alloc, asked, texts, replay)
    } else {
        report(alloc, asked, texts, built_in)
    }
}

/// The circuit by the certificate that follows in the input.
fn report_by_certificate<S: Solver>(
    alloc: Global,
    asked: SynthLine,
    texts: &[u8],
    solver: &mut S,
) -> Result<Answer, Refusal>
    ensures answer { Gives reply_of (AnswersCertified (S.known solver.old) asked texts.now) result }
    ensures kept { (S.known solver.new).is_sure ≡ (S.known solver.old).is_sure }
{
    let (text, certificate) = two_texts(texts)?;
    solver.feed(certificate)?;
    report(alloc, asked, text, solver)
}

/// The circuit, and the texts that are asked for; the circuit alone may come without the game.
fn report<S: Solver>(
    alloc: Global,
    asked: SynthLine,
    text: &[u8],
    solver: &mut S,
) -> Result<Answer, Refusal>
    ensures answer { Gives reply_of (AnswersReport (S.known solver.old) asked text.now) result }
    ensures kept { (S.known solver.new).is_sure ≡ (S.known solver.old).is_sure }
{
    if asked.full {
        return report_by_game(alloc, asked, text, solver);
    }
    match attempted(alloc, text, asked.order, solver)? {
        Attempt::Short(short) => Ok(print_circuit(alloc, short.realizable, &short.circuit)?),
        Attempt::Problem(problem) => {
            let answer = solution(alloc, asked, &problem, solver);
            problem.close();
            answer
        }
    }
}

/// The same by the certificate that the solver returns for the text's game.
fn report_by_game<S: Solver>(
    alloc: Global,
    asked: SynthLine,
    text: &[u8],
    solver: &mut S,
) -> Result<Answer, Refusal>
    ensures answer { Gives reply_of (AnswersReport (S.known solver.old) asked text.now) result }
    ensures kept { (S.known solver.new).is_sure ≡ (S.known solver.old).is_sure }
{
    let problem = Problem::read(alloc, text, asked.order)?;
    let answer = solution(alloc, asked, &problem, solver);
    problem.close();
    answer
}

fn solution<S: Solver>(
    alloc: Global,
    asked: SynthLine,
    problem: &Problem,
    solver: &mut S,
) -> Result<Answer, Refusal>
    ensures answer { (text : List ℕ) → IsProblemOf asked.order text problem.now →
        Gives reply_of (AnswersReport (S.known solver.old) asked text) result }
    ensures kept { (S.known solver.new).is_sure ≡ (S.known solver.old).is_sure }
{
    let synthesis = problem.solve(alloc, solver)?;
    Ok(print(alloc, asked, problem.game(), &synthesis)?)
}
