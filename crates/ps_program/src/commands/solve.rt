//! The command `solve`.

ghost use Rattle.std.specs.Prelude.{◌≡◌};
ghost use Rattle.ps_program.specs.Outcomes.{Gives};
ghost use Rattle.ps_program.specs.Replies.{reply_of};
ghost use Rattle.ps_program.specs.Commands.Solving.{AnswersGame, AnswersSolve};

use crate::answer::{Answer, Refusal};
use crate::texts::read_game;
use ps_game::NamedGame;
use ps_machine::Solver;
use ps_synthesis::{certificate_text, certified};
use std::alloc::Global;

/// The text of a certificate of a game, which states who wins each vertex, and by which moves. Fails with the first
/// error of the game's text, or else as `certify` does.
pub fn solve<S: Solver>(
    alloc: Global,
    text: &[u8],
    solver: &mut S,
    compact: bool,
) -> Result<Answer, Refusal>
    ensures answer { Gives reply_of (AnswersSolve (S.known solver.old) compact text.now) result }
    ensures kept { (S.known solver.new).is_sure ≡ (S.known solver.old).is_sure }
{
    let game = read_game(alloc, text)?;
    certify(alloc, &game, solver, compact)
}

/// The text of a certificate of a game. Fails with the solver's fault, or because its certificate does not fit the game
/// or is not valid.
pub fn certify<S: Solver>(
    alloc: Global,
    game: &NamedGame,
    solver: &mut S,
    compact: bool,
) -> Result<Answer, Refusal>
    ensures answer { Gives reply_of (AnswersGame (S.known solver.old) compact game.now) result }
    ensures kept { (S.known solver.new).is_sure ≡ (S.known solver.old).is_sure }
{
    let certificate = certified(alloc, game, solver)?;
    Ok(Answer::text(certificate_text(alloc, &certificate, game, compact)?))
}
