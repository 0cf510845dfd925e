//! The commands `closed` and `check`.

ghost use Rattle.std.specs.Prelude.{◌≡◌, IfErr};
ghost use Rattle.ps_game.specs.Games.{vertex_count};
ghost use Rattle.ps_program.specs.Commands.Checks.{AnswersClosed, AnswersCheck, test_told};
ghost use Rattle.ps_program.specs.Outcomes.{Gives};
ghost use Rattle.ps_program.specs.Replies.{reply_of};
ghost use Rattle.ps_program.specs.Texts.{NamesVertices};

use crate::answer::{Answer, Refusal};
use crate::texts::{flaw_line, read_certified};
use ps_certificate::Flaw;
use ps_game::NamedGame;
use std::alloc::Global;

/// Whether a certificate is closed (see `Line::Closed`). Fails with the first of: a missing text, an error in the
/// game's text, one in the certificate's, a flaw of the certificate.
pub fn closed(alloc: Global, texts: &[u8]) -> Result<Answer, Refusal>
    ensures { Gives reply_of (AnswersClosed texts.now) result }
{
    let (game, certificate) = read_certified(alloc, texts)?;
    let outcome = ps_certificate::closed(game.game(), &certificate);
    tell(alloc, &game, "closed", outcome)
}

/// Whether the certificate is valid. Fails like `closed`, and also if it is closed but some of its counts are wrong.
pub fn check(alloc: Global, texts: &[u8]) -> Result<Answer, Refusal>
    ensures { Gives reply_of (AnswersCheck texts.now) result }
{
    let (game, certificate) = read_certified(alloc, texts)?;
    let outcome = ps_certificate::check(game.game(), &certificate);
    tell(alloc, &game, "valid", outcome)
}

fn tell(
    alloc: Global,
    game: &NamedGame,
    word: &str,
    outcome: Result<(), Flaw>,
) -> Result<Answer, Refusal>
    requires { IfErr outcome (NamesVertices (vertex_count game.now.game)) }
    ensures { Gives reply_of (λ told. told ≡ test_told word.now game.now outcome) result }
{
    match outcome {
        Ok(()) => Ok(Answer::line(alloc, word)?),
        Err(flaw) => Err(Refusal::Fault(flaw_line(game, flaw))),
    }
}
