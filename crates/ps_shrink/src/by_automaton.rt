//! Smaller circuits by an automaton.

ghost use Rattle.std.specs.Prelude.{⊤, IfErr, IfOk};
ghost use Rattle.ps_hoa.specs.Files.{FileData};
ghost use Rattle.ps_automaton.specs.Automata.{IsBuiltFrom};
ghost use Rattle.ps_automaton.specs.Chains.{Chain};
ghost use Rattle.ps_product.specs.ProductFaults.{IsProductRefusal};
ghost use Rattle.ps_verify.specs.Judgements.{IsLosing, IsWinning};
ghost use Rattle.ps_shrink.specs.Reductions.{IsReduction};

use crate::judging::{Alphabet, Judge};
use crate::reduction::Reduction;
use crate::shrinking::shrunk_by;
use ps_automaton::{Automaton, Step};
use ps_circuit::Circuit;
use ps_machine::Order;
use ps_product::ProductFault;
use ps_simulate::Role;
use ps_verify::{Judgement, verified};
use std::alloc::{AllocError, Global};

/// How often a lap is read at most.
const LAPS: usize = 256;

/// Decides whether a circuit wins, as [`verified`] does. If so, the result wins too, with the same inputs and outputs,
/// at most as many latches and at most as many gates; at most `steps` changes are tried, and fewer if there are many
/// gates. If not, the result is a stimulus on which it loses.
///
/// Fails with [`ProductFault::Symbols`] if the names of inputs and outputs are not those of the role's propositions;
/// else with [`ProductFault::Timing`] if the circuit's player moves first, but some output depends on an input, at
/// latch values that a trace reaches; or if memory runs out.
pub fn shrunk(
    alloc: Global,
    circuit: Circuit,
    automaton: &Automaton,
    order: Order,
    role: Role,
    steps: u32,
) -> Result<Reduction, ProductFault>
    ensures reduced { IfOk result (λ reduction. (file : FileData) (chain : Chain) →
        IsBuiltFrom file chain automaton.now → IsReduction order role file circuit reduction) }
    ensures refused { IfErr result (IsProductRefusal order role automaton.now circuit) }
{
    let judge = ByAutomaton {
        automaton,
        order,
        role,
    };
    let alphabet = Alphabet {
        names: automaton.names(),
        controllable: automaton.controllable(),
        role,
    };
    shrunk_by(alloc, circuit, &judge, alphabet, steps)
}

/// An automaton that circuits in this role have to win, in this order of moves.
#[derive(Clone, Copy)]
pub(crate) struct ByAutomaton<'a> {
    pub automaton: &'a Automaton,
    pub order: Order,
    pub role: Role,
}

impl<'a> Judge for ByAutomaton<'a> {
    ghost may_judge = { λ judge. ⊤ };

    ghost wins = { λ judge c. ((file : FileData) (chain : Chain) → IsBuiltFrom file chain judge.automaton.now →
        IsWinning judge.order judge.role file c) };

    ghost loses = { λ judge c s. ((file : FileData) (chain : Chain) → IsBuiltFrom file chain judge.automaton.now →
        IsLosing judge.order judge.role file c s) };

    ghost refuses = { λ judge c fault. IsProductRefusal judge.order judge.role judge.automaton.now c fault };

    ghost memory = { λ judge c. tt };

    fn judge(&self, alloc: Global, circuit: &Circuit) -> Result<Judgement, ProductFault> {
        verified(alloc, circuit, self.automaton, self.order, self.role)
    }

    /// False if the automaton's states do not repeat in so many laps.
    fn refutes(&self, alloc: Global, stem: &[u64], lap: &[u64]) -> Result<bool, AllocError> {
        let mut state = read(self.automaton, self.automaton.start(), stem).state;
        let mut laps = Vec::new(alloc);
        for _ in 0..LAPS {
            if let Some(accepts) = repeated(&laps, state) {
                return Ok(accepts == (self.role == Role::Environment));
            }
            let step = read(self.automaton, state, lap);
            laps.push(Step {
                state,
                priority: step.priority,
            })?;
            state = step.state;
        }
        Ok(false)
    }
}

/// Whether laps are accepted, each with the state before it and the greatest priority in it, if the state after them is
/// that before an earlier one.
fn repeated(laps: &[Step], state: u32) -> Option<bool> {
    let mut greatest = 0;
    for lap in laps.iter().rev() {
        greatest = lap.priority.max(greatest);
        if lap.state == state {
            return Some(greatest % 2 == 0);
        }
    }
    None
}

/// The state after letters, and the greatest priority on the way.
fn read(automaton: &Automaton, state: u32, letters: &[u64]) -> Step {
    let mut reached = Step { state, priority: 0 };
    for letter in letters {
        reached = after(automaton, reached, *letter);
    }
    reached
}

/// A step at a letter, with the greatest priority so far.
fn after(automaton: &Automaton, before: Step, letter: u64) -> Step {
    if before.state > automaton.states() {
        return before;
    }
    let step = automaton.step(before.state, letter);
    Step {
        state: step.state,
        priority: step.priority.max(before.priority),
    }
}
