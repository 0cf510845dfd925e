//! Prints what `synth` made.

ghost use Rattle.std.specs.Prelude.{◌≡◌, ◌<◌, ◌++◌, codes, length, IfOk, OnOk};
ghost use Rattle.ps_certificate.specs.Certificates.{Fits};
ghost use Rattle.ps_certificate.specs.Written.{text_in};
ghost use Rattle.ps_circuit.specs.Written.{text_of};
ghost use Rattle.ps_game.specs.Games.{vertex_count};
ghost use Rattle.ps_pgsolver.specs.Written.{game_text};
ghost use Rattle.ps_program.specs.Replies.{reply_of};
ghost use Rattle.ps_program.specs.Commands.Synthesis.{IsPrinted, is_realizable, proof_text, synthesis_reply};
ghost use Rattle.ps_program.specs.Commands.Synthesis.{verdict_line};
ghost use Rattle.ps_program.specs.Commands.Synthesis.{verdict_status};
ghost use Rattle.ps_synthesis.specs.Printing.{PrintsCertificate, PrintsCircuit, PrintsGame};

use crate::answer::{Answer, REALIZABLE, UNREALIZABLE};
use crate::commands::SynthLine;
use ps_certificate::Certificate;
use ps_circuit::Circuit;
use ps_game::NamedGame;
use ps_synthesis::{Synthesis, certificate_text};
use std::alloc::{AllocError, Global};

const DIVIDER: &[u8] = b"%%\n";

/// The winner, the winner's circuit and, if they are asked for, the game and its certificate. Fails if memory runs out.
pub fn print(
    alloc: Global,
    asked: SynthLine,
    game: &NamedGame,
    synthesis: &Synthesis,
) -> Result<Answer, AllocError>
    requires some { 0 < vertex_count game.now.game }
    requires fits { Fits game.now.game synthesis.now.certificate }
    ensures answer { IfOk result (λ answer. reply_of answer ≡ synthesis_reply asked.full asked.compact
        (record { game = game.now; certificate = synthesis.now.certificate; circuit = synthesis.now.circuit })) }
    ensures printed { IfOk result (λ _. IsPrinted asked.full asked.compact
        (record { game = game.now; certificate = synthesis.now.certificate; circuit = synthesis.now.circuit })) }
{
    let realizable = synthesis.certificate.winner(0) == 0;
    let mut answer = print_circuit(alloc, realizable, &synthesis.circuit)?;
    if asked.full {
        let certificate = &synthesis.certificate;
        add_proof(alloc, &mut answer.text, game, certificate, asked.compact)?;
    }
    Ok(answer)
}

/// The winner's line and circuit. Fails if memory runs out.
pub(crate) fn print_circuit(
    alloc: Global,
    realizable: bool,
    circuit: &Circuit,
) -> Result<Answer, AllocError>
    ensures text { IfOk result (λ answer. answer.text.items ≡ verdict_line realizable ++ text_of circuit.now) }
    ensures status { IfOk result (λ answer. answer.status ≡ verdict_status realizable) }
    ensures printed { IfOk result (λ _. PrintsCircuit (text_of circuit.now) circuit.now) }
{
    let (word, status) = verdict(realizable);
    let mut text = word.as_bytes().to_vec(alloc)?;
    text.extend_from_slice(&ps_aiger::write(alloc, circuit)?)?;
    Ok(Answer { text, status })
}

fn verdict(realizable: bool) -> (&'static str, u8)
    ensures word { result.0.now ≡ verdict_line realizable }
    ensures status { result.1 ≡ verdict_status realizable }
{
    if realizable {
        ("REALIZABLE\n", REALIZABLE)
    } else {
        ("UNREALIZABLE\n", UNREALIZABLE)
    }
}

fn add_proof(
    alloc: Global,
    text: &mut Vec<u8>,
    game: &NamedGame,
    certificate: &Certificate,
    compact: bool,
) -> Result<(), AllocError>
    requires some { 0 < vertex_count game.now.game }
    requires fits { Fits game.now.game certificate.now }
    ensures text { OnOk result (text.new.items ≡
        text.old.items ++ proof_text compact game.now certificate.now) }
    ensures game { OnOk result (PrintsGame (game_text game.now) game.now) }
    ensures certificate { OnOk result (PrintsCertificate compact (text_in compact game.now certificate.now) game.now
        certificate.now) }
{
    add_game(alloc, text, game)?;
    add_certificate(alloc, text, game, certificate, compact)
}

/// Appends a line `%%` and the game.
fn add_game(alloc: Global, text: &mut Vec<u8>, game: &NamedGame) -> Result<(), AllocError>
    requires { 0 < vertex_count game.now.game }
    ensures text { OnOk result (text.new.items ≡ text.old.items ++ codes "%%\n" ++ game_text game.now) }
    ensures printed { OnOk result (PrintsGame (game_text game.now) game.now) }
{
    text.extend_from_slice(DIVIDER)?;
    text.extend_from_slice(&ps_pgsolver::write(alloc, game)?)
}

/// Appends a line `%%` and the certificate.
fn add_certificate(
    alloc: Global,
    text: &mut Vec<u8>,
    game: &NamedGame,
    certificate: &Certificate,
    compact: bool,
) -> Result<(), AllocError>
    requires { Fits game.now.game certificate.now }
    ensures text { OnOk result (text.new.items ≡
        text.old.items ++ codes "%%\n" ++ text_in compact game.now certificate.now) }
    ensures printed { OnOk result (PrintsCertificate compact (text_in compact game.now certificate.now) game.now
        certificate.now) }
{
    text.extend_from_slice(DIVIDER)?;
    text.extend_from_slice(&certificate_text(alloc, certificate, game, compact)?)
}
