//! The winner's circuit.

ghost use Rattle.std.specs.Prelude.{IfOk, IfErr};
ghost use Rattle.ps_automaton.specs.Automata.{IsBuiltFrom};
ghost use Rattle.ps_automaton.specs.Chains.{Chain};
ghost use Rattle.ps_hoa.specs.Files.{FileData};
ghost use Rattle.ps_machine.specs.Boards.{IsGameOf};
ghost use Rattle.ps_machine.specs.BuiltBoards.{board_of};
ghost use Rattle.ps_machine.specs.Dividing.{HasClasses};
ghost use Rattle.ps_solver.specs.Solving.{winner_at_start};
ghost use Rattle.ps_machine.specs.Keys.{mover_of};
ghost use Rattle.ps_solver.specs.Solving.{IsCertified};
ghost use Rattle.ps_synthesis.specs.Stages.{IsCircuitFault, IsCircuitOf};
ghost use Rattle.ps_traces.specs.Answers.{IsWitness};

use crate::fault::SynthFault;
use ps_aiger::{Circuit, encode};
use ps_automaton::Automaton;
use ps_certificate::Certificate;
use ps_machine::{AutomatonGame, Order, machine_of_certificate, one_game};
use ps_traces::certified_circuit_answers;
use std::alloc::Global;

/// The circuit of the player who wins the start vertex, from a valid certificate of the automaton's game. Fails if it
/// needs more than 2147483647 variables, or if out of memory.
pub fn circuit_of_certificate(
    alloc: Global,
    automaton: &Automaton,
    order: Order,
    game: &AutomatonGame,
    certificate: &Certificate,
) -> Result<Circuit, SynthFault>
    requires game { IsGameOf (board_of order automaton.now) (mover_of order) game.now.keys.items game.now.game.game }
    requires classes { HasClasses order automaton.now game.now }
    requires certified { IsCertified game.now.game certificate.now }
    ensures made { IfOk result (IsCircuitOf order automaton.now game.now.game.game certificate.now) }
    ensures answers { IfOk result (λ circuit. (file : FileData) (chain : Chain) → IsBuiltFrom file chain automaton.now →
        IsWitness order file (winner_at_start certificate.now) circuit) }
    ensures refused { IfErr result (IsCircuitFault order automaton.now game.now.game.game certificate.now) }
{
    one_game();
    let machine = machine_of_certificate(alloc, automaton, order, game, certificate)?;
    machine.parts_fit();
    let circuit = encode(alloc, &machine);
    drop(machine);
    certified_circuit_answers();
    Ok(circuit?)
}
