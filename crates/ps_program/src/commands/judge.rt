//! The command `judge`.

ghost use Rattle.std.specs.Prelude.{◌≡◌, ◌<◌, IfOk};
ghost use Rattle.std.specs.List.{All};
ghost use Rattle.ps_game.specs.Games.{vertex_count};
ghost use Rattle.ps_program.specs.Inner.Judged.{HasPlaces, IsCycleTold, IsTold, Names};
ghost use Rattle.ps_program.specs.Commands.Judging.{AnswersJudge, Judges, ReadsSolutionText, ReadsSolved};
ghost use Rattle.ps_program.specs.Outcomes.{Gives};
ghost use Rattle.ps_program.specs.Replies.{reply_of};

use crate::answer::{Answer, Refusal};
use crate::fault::{FaultLine, Place};
use crate::texts::{flaw_line, read_game, two_texts};
use ps_game::NamedGame;
use ps_referee::JudgeFault;
use ps_solution::Solution;
use ps_synthesis::{certificate_text, ids_of};
use std::alloc::Global;

/// The certificate for a solution's winners and moves, with the least counts that are valid for them. Fails with the
/// first of: a missing text, an error in the game's or the solution's text, a wrong move or edge, a cycle on which a
/// player who follows the solution loses.
pub fn judge(alloc: Global, compact: bool, texts: &[u8]) -> Result<Answer, Refusal>
    ensures { Gives reply_of (AnswersJudge compact texts.now) result }
{
    let (game, solution) = read_solved(alloc, texts)?;
    judged(alloc, compact, &game, &solution)
}

fn judged(
    alloc: Global,
    compact: bool,
    game: &NamedGame,
    solution: &Solution,
) -> Result<Answer, Refusal>
    requires { HasPlaces game.now solution.now }
    ensures { Gives reply_of (Judges compact game.now solution.now) result }
{
    let Solution { won, moves } = solution;
    match ps_referee::judge(alloc, game.game(), won, moves, moves) {
        Ok(certificate) => Ok(Answer::text(certificate_text(alloc, &certificate, game, compact)?)),
        Err(fault) => Err(refused(alloc, game, fault)),
    }
}

fn read_solved(alloc: Global, texts: &[u8]) -> Result<(NamedGame, Solution), Refusal>
    ensures read { Gives (λ both. (both.0, both.1)) (ReadsSolved texts.now) result }
    ensures places { IfOk result (λ both. HasPlaces both.0 both.1) }
{
    let (first, second) = two_texts(texts)?;
    let game = read_game(alloc, first)?;
    let solution = read_solution(alloc, &game, second)?;
    Ok((game, solution))
}

fn read_solution(alloc: Global, game: &NamedGame, text: &[u8]) -> Result<Solution, Refusal>
    ensures read { Gives (λ solution. solution) (ReadsSolutionText game.now text.now) result }
    ensures places { IfOk result (HasPlaces game.now) }
{
    match ps_solution::read(alloc, text, game) {
        Ok(solution) => Ok(solution),
        Err(fault) => Err(Refusal::from(fault)),
    }
}

/// Why a solution is refused, with the ids of vertices.
fn refused(alloc: Global, game: &NamedGame, fault: JudgeFault) -> Refusal
    requires { Names (vertex_count game.now.game) fault }
    ensures { IsTold game.now fault result }
{
    match fault {
        JudgeFault::Unclosed(flaw) => Refusal::Fault(flaw_line(game, flaw)),
        JudgeFault::BadCycle { player: _, cycle } => cycle_refusal(alloc, game, &cycle),
        JudgeFault::OutOfMemory => Refusal::OutOfMemory,
    }
}

fn cycle_refusal(alloc: Global, game: &NamedGame, cycle: &[usize]) -> Refusal
    requires { All (λ v. v < vertex_count game.now.game) cycle.now }
    ensures { IsCycleTold game.now cycle.now result }
{
    match ids_of(alloc, game, cycle) {
        Ok(ids) => Refusal::Fault(FaultLine {
            number: 40,
            name: "BadCycle",
            place: Place::Cycle(ids),
        }),
        Err(_) => Refusal::OutOfMemory,
    }
}
