//! Judges a circuit.

ghost use Rattle.std.specs.Prelude.{◌≡◌, ◌<◌, ◌∷◌, [], ℕ, IfErr, IfOk, false, length, replicate};
ghost use Rattle.ps_hoa.specs.Files.{FileData};
ghost use Rattle.ps_hoa.specs.Sound.{AreNames};
ghost use Rattle.ps_automaton.specs.Automata.{IsBuiltFrom};
ghost use Rattle.ps_automaton.specs.Chains.{Chain};
ghost use Rattle.ps_circuit.specs.Circuits.{IsCircuit};
ghost use Rattle.ps_game.specs.Games.{IsGame, owner_of, vertex_count};
ghost use Rattle.ps_game.specs.Plays.{other_player};
ghost use Rattle.ps_product.specs.ProductFaults.{IsProductRefusal, asked_of};
ghost use Rattle.ps_product.specs.Products.{IsLedTo};
ghost use Rattle.ps_simulate.specs.Stimuli.{letters_of};
ghost use Rattle.ps_verify.specs.Inner.Readings.{IsToldOf};
ghost use Rattle.ps_verify.specs.Judgements.{IsJudgement};

use crate::cycle::lost_cycle;
use crate::judgement::Judgement;
use crate::readings::stimulus_of;
use ps_automaton::Automaton;
use ps_circuit::Circuit;
use ps_cone::reduced;
use ps_game::Player;
use ps_machine::Order;
use ps_product::{Built, Product, ProductFault};
use ps_simulate::{Role, Stimulus, circuit_has_one_values};
use std::alloc::{AllocError, Global};

/// Decides whether the circuit wins: the automaton accepts each lasso trace of a controller, or no lasso trace of an
/// environment. If the circuit loses, the result is a counterexample: a stimulus on which the automaton rejects the
/// controller's trace, or accepts the environment's. Latches and gates on which no output depends are left out first. If
/// a controller moves second, a step into the automaton's sink ends the search for a counterexample.
///
/// # Errors
///
/// Fails with [`ProductFault::Symbols`] if the names of the circuit's inputs and outputs are not those of its role's
/// propositions. Fails with [`ProductFault::Timing`] if these names are right and the circuit's player moves first, but
/// some output depends on an input, at some latch values that a trace reaches. Fails also if memory runs out.
pub fn verified(
    alloc: Global,
    circuit: &Circuit,
    automaton: &Automaton,
    order: Order,
    role: Role,
) -> Result<Judgement, ProductFault>
    ensures judged { IfOk result (λ judgement. (file : FileData) (chain : Chain) →
        IsBuiltFrom file chain automaton.now → IsJudgement order role file circuit.now judgement) }
    ensures refused { IfErr result (IsProductRefusal order role automaton.now circuit.now) }
{
    circuit_has_one_values();
    sound(circuit, automaton);
    let part = reduced(alloc, circuit)?;
    judged(alloc, &part, automaton, order, role)
}

/// The judgement on a circuit, all of whose latches are in the product.
fn judged(
    alloc: Global,
    circuit: &Circuit,
    automaton: &Automaton,
    order: Order,
    role: Role,
) -> Result<Judgement, ProductFault>
    ensures judged { IfOk result (λ judgement. (file : FileData) (chain : Chain) →
        IsBuiltFrom file chain automaton.now → IsJudgement order role file circuit.now judgement) }
    ensures refused { IfErr result (IsProductRefusal order role automaton.now circuit.now) }
{
    circuit_has_one_values();
    sound(circuit, automaton);
    let built = Product::build(alloc, circuit, automaton, order, role)?;
    match built {
        Built::Whole(product) => Ok(told(alloc, &product, asked(role))?),
        Built::Sink(stem) => Ok(Judgement::Loses(lost_by(alloc, circuit, stem)?)),
    }
}

/// The stimulus that has the stem, and then one letter for ever: that in which each input is false.
fn lost_by(alloc: Global, circuit: &Circuit, stem: Vec<Vec<bool>>) -> Result<Stimulus, AllocError>
    ensures stem { IfOk result (λ stimulus. stimulus.stem ≡ letters_of stem.items) }
    ensures lap { IfOk result (λ stimulus. stimulus.lap ≡ replicate (length circuit.now.inputs) false ∷ []) }
{
    let letter = vec![in alloc; false; circuit.inputs().len()]?;
    let mut lap = Vec::new(alloc);
    lap.push(letter)?;
    Ok(Stimulus { stem, lap })
}

/// Properties that the types `Circuit` and `Automaton` guarantee.
fn sound(circuit: &Circuit, automaton: &Automaton)
    ensures circuit { IsCircuit circuit.now }
    ensures names { AreNames automaton.now.names }
{
    circuit.most();
    automaton.names();
}

/// The circuit's player: player 0 for a controller, player 1 for an environment.
fn asked(role: Role) -> Player
    ensures { result ≡ asked_of role }
{
    match role {
        Role::Controller => Player::EVEN,
        Role::Environment => Player::ODD,
    }
}

/// The judgement on the circuit of a product in which only the player's opponent moves: the circuit wins, unless there
/// is a cycle that the player loses.
fn told(alloc: Global, product: &Product, player: Player) -> Result<Judgement, AllocError>
    requires owners { (v : ℕ) → v < vertex_count product.now.game →
        owner_of product.now.game v ≡ other_player player }
    requires reached { (w : ℕ) → 0 < w → w < vertex_count product.now.game → IsLedTo product.now.game w }
    ensures is_game { IsGame product.now.game }
    ensures told { IfOk result (IsToldOf player product.now) }
{
    let Some(cycle) = lost_cycle(alloc, product.game(), player)? else {
        return Ok(Judgement::Wins);
    };
    let stimulus = stimulus_of(alloc, product, cycle, player)?;
    Ok(Judgement::Loses(stimulus))
}
