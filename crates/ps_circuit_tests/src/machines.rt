//! The machine of the winner of an automaton's game, and its circuit.

ghost use Rattle.std.specs.Prelude.{IfOk};
ghost use Rattle.ps_solver.specs.Solving.{IsCertified};

use ps_aiger::{encode, write};
use ps_automaton::Automaton;
use ps_certificate::Certificate;
use ps_game::NamedGame;
use ps_machine::{BuiltIn, Machine, Order, Solver, extract, game_of};
use ps_synthesis::read_automaton;
use std::alloc::Global;
use std::test::Fail;

/// A grant must be given exactly when there is a request. The controller moves first here, so the environment wins: it
/// requests exactly when there is no grant.
const EXACT: &[u8] =
    b"HOA: v1 Start: 0 AP: 2 \"r\" \"g\" controllable-AP: 1 Acceptance: 0 t --BODY-- State: 0 [0&1 | !0&!1] 0 --END--";

fn solved(alloc: Global, game: &NamedGame) -> Result<Certificate, Fail>
    ensures { IfOk result (IsCertified game.now) }
{
    match BuiltIn::new(alloc).solve(game) {
        Ok(certificate) => Ok(certificate),
        Err(_) => Err(Fail::new("a certificate")),
    }
}

/// The machine of the winner.
fn machine_for(alloc: Global, automaton: &Automaton, order: Order) -> Result<Machine, Fail> {
    let game = game_of(alloc, automaton, order)?;
    let certificate = solved(alloc, &game)?;
    Ok(extract(alloc, automaton, order, &game, &certificate)?)
}

/// The same for a text, if the controller moves first.
fn machine_of(alloc: Global, text: &[u8]) -> Result<Machine, Fail> {
    let automaton = read_automaton(alloc, text)?;
    machine_for(alloc, &automaton, Order::Moore)
}

fn circuit_text(alloc: Global, machine: &Machine) -> Result<Vec<u8>, Fail> {
    let circuit = encode(alloc, machine)?;
    Ok(write(alloc, &circuit)?)
}

fn circuit_text_of(alloc: Global, text: &[u8]) -> Result<Vec<u8>, Fail> {
    let machine = machine_of(alloc, text)?;
    circuit_text(alloc, &machine)
}

fn has_circuit(alloc: Global, text: &[u8], wanted: &[u8]) -> Result<bool, Fail> {
    Ok(circuit_text_of(alloc, text)?.as_slice() == wanted)
}

#[test]
fn a_machine_has_a_circuit(rt: HostRuntime) -> Result<(), Fail> {
    let wanted = b"aag 3 1 1 1 1\n2\n4 1\n6\n6 5 3\ni0 g\no0 r\n";
    assert!(rt; has_circuit(rt.alloc(), EXACT, wanted)?);
    Ok(())
}
