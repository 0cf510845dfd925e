//! The command `game`.

ghost use Rattle.std.specs.Prelude.{◌<◌, IfOk};
ghost use Rattle.ps_automaton.specs.Automata.{IsBuiltFrom};
ghost use Rattle.ps_automaton.specs.Chains.{Chain};
ghost use Rattle.ps_game.specs.Games.{vertex_count};
ghost use Rattle.ps_hoa.specs.Files.{FileData};
ghost use Rattle.ps_program.specs.Commands.Games.{AnswersGameText, MakesGame, ReadsGameOf};
ghost use Rattle.ps_program.specs.Outcomes.{Gives};
ghost use Rattle.ps_program.specs.Replies.{reply_of};

use crate::answer::{Answer, Refusal};
use crate::automata::read_automaton;
use ps_automaton::Automaton;
use ps_game::NamedGame;
use ps_machine::{Order, game_of};
use std::alloc::Global;

/// The text of the game of an automaton. Fails like `read_game_of`.
pub fn game(alloc: Global, order: Order, text: &[u8]) -> Result<Answer, Refusal>
    ensures { Gives reply_of (AnswersGameText order text.now) result }
{
    let game = read_game_of(alloc, order, text)?;
    Ok(Answer::text(ps_pgsolver::write(alloc, &game)?))
}

/// The game of the automaton of an HOA text. Fails with the text's first error, or because the file has no automaton.
pub fn read_game_of(alloc: Global, order: Order, text: &[u8]) -> Result<NamedGame, Refusal>
    ensures game { Gives (λ game. game) (ReadsGameOf order text.now) result }
    ensures some { IfOk result (λ game. 0 < vertex_count game.game) }
{
    let automaton = read_automaton(alloc, text)?;
    make_game(alloc, order, &automaton)
}

fn make_game(alloc: Global, order: Order, automaton: &Automaton) -> Result<NamedGame, Refusal>
    ensures game { (file : FileData) (chain : Chain) → IsBuiltFrom file chain automaton.now →
        Gives (λ game. game) (MakesGame order file) result }
    ensures some { IfOk result (λ game. 0 < vertex_count game.game) }
{
    Ok(game_of(alloc, automaton, order)?)
}
