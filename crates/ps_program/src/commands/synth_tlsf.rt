//! The command `synth --tlsf`.

ghost use Rattle.std.specs.Prelude.{◌≡◌, IfOk};
ghost use Rattle.ps_circuit.specs.Written.{text_of};
ghost use Rattle.ps_program.specs.Outcomes.{Gives};
ghost use Rattle.ps_program.specs.Replies.{reply_of};
ghost use Rattle.ps_program.specs.Commands.SynthesisTlsf.{AnswersSynthTlsf, is_controller, winner_reply};
ghost use Rattle.ps_synthesis.specs.Printing.{PrintsCircuit};

use crate::answer::{Answer, Refusal};
use crate::printing::print_circuit;
use ps_simulate::Role;
use ps_specification::{Proposer, Winner, synthesise_specification};
use std::alloc::{AllocError, Global};

/// The circuit for the specification of a text, judged by it. Fails with the fault of synthesis.
pub fn synth_tlsf<P: Proposer>(alloc: Global, text: &[u8], proposer: &P) -> Result<Answer, Refusal>
    ensures { Gives reply_of (AnswersSynthTlsf (P.known proposer.now) text.now) result }
{
    let winner = synthesise_specification(alloc, text, proposer)?;
    Ok(print_winner(alloc, &winner)?)
}

/// The line that states the winner, and the circuit.
fn print_winner(alloc: Global, winner: &Winner) -> Result<Answer, AllocError>
    ensures answer { IfOk result (λ answer. reply_of answer ≡ winner_reply winner.now.role winner.now.circuit) }
    ensures printed { IfOk result (λ _. PrintsCircuit (text_of winner.now.circuit) winner.now.circuit) }
{
    print_circuit(alloc, is_controller(winner.role), &winner.circuit)
}

fn is_controller(role: Role) -> bool
    ensures { result ≡ is_controller role }
{
    match role {
        Role::Controller => true,
        Role::Environment => false,
    }
}
