//! A law about solvers.

ghost use Rattle.std.specs.Prelude.{Ok};
ghost use Rattle.ps_game.specs.Games.{IsGame, NamedGameData};
ghost use Rattle.ps_certificate.specs.Certificates.{CertificateData};
ghost use Rattle.ps_solver.specs.Solving.{AnswersLeast};

/// Each game has a certificate that psyn's own solver may return: it fits and is valid, and its counts are the least
/// for its moves. A call may still run out of memory.
pub fn each_game_has_a_certificate()
    ensures { (game : NamedGameData) → IsGame game.game →
        (certificate : CertificateData) × AnswersLeast game (Ok certificate) }
{
    ps_zielonka::each_game_is_divided();
    ps_referee::solution_is_judged();
    ps_referee::one_verdict();
}
