//! Reports.

ghost use Rattle.std.specs.Prelude.{◌≡◌, ◌<◌, ◌↔◌, IsTrue, IfOk};
ghost use Rattle.ps_certificate.specs.Certificates.{Fits};
ghost use Rattle.ps_game.specs.Games.{vertex_count};
ghost use Rattle.ps_solver.specs.Solving.{winner_at_start};
ghost use Rattle.ps_synthesis.specs.Printing.{PrintsCertificate, PrintsCircuit, PrintsGame};

use ps_aiger::Circuit;
use ps_certificate::Certificate;
use ps_game::NamedGame;
use std::alloc::{AllocError, Global};

/// Who wins, and the texts that show it: the winner's circuit, the automaton's game, and a certificate of it.
#[derive(Debug, Drop)]
pub struct Report {
    /// Whether the controller wins.
    pub realizable: bool,
    pub circuit_text: Vec<u8>,
    pub game_text: Vec<u8>,
    pub certificate_text: Vec<u8>,
}

/// The report of a circuit, a game and a certificate, whose text is plain or compact. Fails if out of memory.
pub fn report_of(
    alloc: Global,
    game: &NamedGame,
    certificate: &Certificate,
    circuit: &Circuit,
    compact: bool,
) -> Result<Report, AllocError>
    requires some { 0 < vertex_count game.now.game }
    requires fits { Fits game.now.game certificate.now }
    ensures realizable { IfOk result (λ report. IsTrue report.realizable ↔ (winner_at_start certificate.now ≡ 0)) }
    ensures circuit { IfOk result (λ report. PrintsCircuit report.circuit_text.items circuit.now) }
    ensures game { IfOk result (λ report. PrintsGame report.game_text.items game.now) }
    ensures certificate { IfOk result (λ report. PrintsCertificate compact report.certificate_text.items game.now
        certificate.now) }
{
    Ok(Report {
        realizable: certificate.winner(0) == 0,
        circuit_text: ps_aiger::write(alloc, circuit)?,
        game_text: ps_pgsolver::write(alloc, game)?,
        certificate_text: certificate_text(alloc, certificate, game, compact)?,
    })
}

/// The text of a certificate, in which `compact` leaves out counts that are 0. Fails if out of memory.
pub fn certificate_text(
    alloc: Global,
    certificate: &Certificate,
    game: &NamedGame,
    compact: bool,
) -> Result<Vec<u8>, AllocError>
    requires { Fits game.now.game certificate.now }
    ensures { IfOk result (λ text. PrintsCertificate compact text.items game.now certificate.now) }
{
    if compact {
        ps_certificate::write_compact(alloc, certificate, game)
    } else {
        ps_certificate::write(alloc, certificate, game)
    }
}
