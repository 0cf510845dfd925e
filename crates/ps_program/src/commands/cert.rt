//! The command `cert`.

ghost use Rattle.std.specs.Prelude.{◌≡◌};
ghost use Rattle.ps_program.specs.Commands.Games.{AnswersCert};
ghost use Rattle.ps_program.specs.Outcomes.{Gives};
ghost use Rattle.ps_program.specs.Replies.{reply_of};

use crate::answer::{Answer, Refusal};
use crate::commands::game::read_game_of;
use crate::commands::solve::certify;
use ps_machine::{Order, Solver};
use std::alloc::Global;

/// The text of a certificate of the game of an automaton. Fails with the text's first error, because the file has no
/// automaton, or else as `certify` does.
pub fn cert<S: Solver>(
    alloc: Global,
    order: Order,
    text: &[u8],
    solver: &mut S,
    compact: bool,
) -> Result<Answer, Refusal>
    ensures answer { Gives reply_of (AnswersCert (S.known solver.old) order compact text.now) result }
    ensures kept { (S.known solver.new).is_sure ≡ (S.known solver.old).is_sure }
{
    let game = read_game_of(alloc, order, text)?;
    certify(alloc, &game, solver, compact)
}
