//! Parses the texts that commands read, and tells their faults. Parsing fails with a text's first error, or if memory
//! runs out.

ghost use Rattle.std.specs.Prelude.{◌≡◌, ◌<◌, false, length, All, IfOk};
ghost use Rattle.ps_circuit.specs.Circuits.{IsCircuit};
ghost use Rattle.ps_certificate.specs.Certificates.{Fits};
ghost use Rattle.ps_game.specs.Games.{vertex_count};
ghost use Rattle.ps_simulate.specs.Stimuli.{stem_of};
ghost use Rattle.ps_tlsf.specs.SpecificationViews.{specification_data};
ghost use Rattle.ps_program.specs.Faults.{fault_text};
ghost use Rattle.ps_program.specs.Inner.Parsed.{IsParsed};
ghost use Rattle.ps_program.specs.Outcomes.{Gives};
ghost use Rattle.ps_program.specs.Texts.{CutsInTwo, CutsInThree, ReadsGameText, ReadsCertificateText, ReadsCertified};
ghost use Rattle.ps_program.specs.Texts.{ReadsCircuitText, ReadsStimulusText, ReadsSimulated, NamesVertices, flaw_text};
ghost use Rattle.ps_program.specs.Texts.{ReadsSpecificationText, missing_text};

use crate::answer::Refusal;
use crate::cut::cut;
use crate::fault::{FaultLine, Place};
use ps_certificate::{Certificate, Flaw};
use ps_circuit::Circuit;
use ps_game::NamedGame;
use ps_simulate::{Letters, Stimulus};
use ps_tlsf::Specification;
use std::alloc::Global;

fn missing_text() -> FaultLine
    ensures { fault_text result ≡ missing_text }
{
    FaultLine {
        number: 27,
        name: "MissingText",
        place: Place::Nowhere,
    }
}

/// The two texts of an input. Fails if one is missing.
pub fn two_texts(texts: &[u8]) -> Result<(&[u8], &[u8]), Refusal>
    ensures { Gives (λ parts. (parts.0.now, parts.1.now)) (CutsInTwo texts.now) result }
{
    match cut(texts) {
        Some(parts) => Ok(parts),
        None => Err(Refusal::Fault(missing_text())),
    }
}

/// Three texts. Fails if one is missing, even if another has an error.
pub fn three_texts(texts: &[u8]) -> Result<(&[u8], &[u8], &[u8]), Refusal>
    ensures { Gives (λ parts. (parts.0.now, parts.1.now, parts.2.now)) (CutsInThree texts.now) result }
{
    if let Some((first, rest)) = cut(texts)
        && let Some((second, third)) = cut(rest)
    {
        return Ok((first, second, third));
    }
    Err(Refusal::Fault(missing_text()))
}

/// Parses a game.
pub fn read_game(alloc: Global, text: &[u8]) -> Result<NamedGame, Refusal>
    ensures { Gives (λ game. game) (ReadsGameText text.now) result }
{
    Ok(ps_pgsolver::read(alloc, text)?)
}

fn read_certificate(alloc: Global, game: &NamedGame, text: &[u8]) -> Result<Certificate, Refusal>
    ensures read { Gives (λ certificate. certificate) (ReadsCertificateText game.now text.now) result }
    ensures fits { IfOk result (Fits game.now.game) }
{
    Ok(ps_certificate::read(alloc, text, game)?)
}

/// A game and a certificate of it. Fails with the first of: a missing text, an error in the game's text, one in the
/// certificate's.
pub fn read_certified(alloc: Global, texts: &[u8]) -> Result<(NamedGame, Certificate), Refusal>
    ensures read { Gives (λ both. (both.0, both.1)) (ReadsCertified texts.now) result }
    ensures fits { IfOk result (λ both. Fits both.0.game both.1) }
{
    let (first, second) = two_texts(texts)?;
    let game = read_game(alloc, first)?;
    let certificate = read_certificate(alloc, &game, second)?;
    Ok((game, certificate))
}

/// Parses a specification.
pub fn read_specification(alloc: Global, text: &[u8]) -> Result<Specification, Refusal>
    ensures read { Gives specification_data (ReadsSpecificationText text.now) result }
    ensures parsed { IfOk result IsParsed }
{
    ps_tlsf::names_differ();
    Ok(ps_tlsf::read(alloc, text)?)
}

/// Parses a circuit.
pub fn read_circuit(alloc: Global, text: &[u8]) -> Result<Circuit, Refusal>
    ensures { Gives (λ circuit. circuit) (ReadsCircuitText text.now) result }
{
    Ok(ps_circuit::read(alloc, text)?)
}

/// Parses a stimulus for so many inputs. If it is `split`, a line `-` must divide stem from lap.
pub fn read_stimulus(
    alloc: Global,
    text: &[u8],
    width: usize,
    split: bool,
) -> Result<Stimulus, Refusal>
    ensures { Gives (λ stimulus. stimulus) (ReadsStimulusText width split text.now) result }
{
    Ok(ps_simulate::parse_stimulus(alloc, text, width, split)?)
}

/// Parses a stimulus that has only a stem.
fn read_letters(alloc: Global, text: &[u8], width: usize) -> Result<Letters, Refusal>
    ensures { Gives stem_of (ReadsStimulusText width false text.now) result }
{
    Ok(ps_simulate::parse_letters(alloc, text, width)?)
}

/// A circuit and a stimulus for it. Fails with the first of: a missing text, an error in the circuit's text, one in the
/// stimulus.
pub fn read_simulated(alloc: Global, texts: &[u8]) -> Result<(Circuit, Letters), Refusal>
    ensures read { Gives (λ both. (both.0, stem_of both.1)) (ReadsSimulated texts.now) result }
    ensures fits { IfOk result (λ both. All (λ letter. length letter ≡ length both.0.inputs) both.1) }
    ensures circuit { IfOk result (λ both. IsCircuit both.0) }
{
    let (text, stimulus) = two_texts(texts)?;
    let circuit = read_circuit(alloc, text)?;
    let width = circuit.inputs().len();
    let letters = read_letters(alloc, stimulus, width)?;
    Ok((circuit, letters))
}

/// The line of a flaw, with the ids of vertices.
pub fn flaw_line(game: &NamedGame, flaw: Flaw) -> FaultLine
    requires { NamesVertices (vertex_count game.now.game) flaw }
    ensures { fault_text result ≡ flaw_text game.now flaw }
{
    let place = match flaw {
        Flaw::Move { vertex, choice } => Place::Move {
            vertex: game.id(vertex),
            choice: match choice {
                Some(successor) => Some(game.id(successor)),
                None => None,
            },
        },
        Flaw::Escape { vertex, successor } => Place::Edge {
            vertex: game.id(vertex),
            successor: game.id(successor),
        },
        Flaw::Rank {
            vertex,
            successor,
            priority,
        } => Place::Count {
            vertex: game.id(vertex),
            successor: game.id(successor),
            priority,
        },
    };
    FaultLine {
        number: flaw.number(),
        name: flaw.name(),
        place,
    }
}
