//! The indices of a circuit's variables in a table without gaps.

ghost use Rattle.std.specs.Prelude.{◌≡◌, ◌≢◌, length, AllPairs, IfOk};
ghost use Rattle.ps_circuit.specs.Circuits.{IsCircuit};
ghost use Rattle.ps_simulate.specs.Plans.{variables};

use crate::plan::Wire;
use ps_circuit::{Circuit, Literal};
use ps_ids::Ids;
use std::alloc::{AllocError, Global};
use std::iter::once;
use std::marker::Model;

/// The index of each variable: first variable 0, then the inputs, the latches and the gates.
#[derive(Drop)]
pub struct Places<'a> {
    circuit: &'a Circuit,
    ids: Ids,
}

impl<'a> Model for Places<'a> {
    ghost use Rattle.std.specs.Prelude.{◌≡◌};
    ghost use Rattle.ps_circuit.specs.Circuits.{CircuitData, IsCircuit};
    ghost use Rattle.ps_simulate.specs.Plans.{variables};

    ghost Value = { CircuitData };

    ghost view = { λ p. p.circuit.now };

    ghost invariant = { λ p. (p.ids ≡ variables p.circuit.now) × IsCircuit p.circuit.now };
}

impl<'a> Places<'a> {
    ghost use Rattle.ps_circuit.specs.Circuits.{IsKnown, definitions};
    ghost use Rattle.ps_simulate.specs.Plans.{variables, wire_of};

    /// The indices of a circuit. Fails if out of memory.
    pub fn new(alloc: Global, circuit: &'a Circuit) -> Result<Self, AllocError>
        ensures { IfOk result (λ places. places ≡ circuit.now) }
    {
        let variables = variables_of(alloc, circuit)?;
        let ids = ids_of(alloc, &variables)?;
        Ok(Places { circuit, ids })
    }

    /// The circuit.
    pub fn circuit(&self) -> &'a Circuit
        ensures circuit { result.now ≡ self.now }
        ensures well_formed { IsCircuit self.now }
    {
        self.circuit
    }

    /// The number of indices.
    pub fn count(&self) -> usize
        ensures { result ≡ length (variables self.now) }
    {
        self.ids.list().len()
    }

    /// The index of a literal's variable, with the literal's sign.
    pub fn wire(&self, literal: Literal) -> Wire
        requires { IsKnown (definitions self.now) literal }
        ensures { result ≡ wire_of self.now literal }
    {
        let place = self.ids.place(u64::from(literal.variable())).unwrap();
        Wire {
            place: place as u32,
            is_negated: literal.is_negated(),
        }
    }
}

fn variables_of(alloc: Global, circuit: &Circuit) -> Result<Vec<u32>, AllocError>
    ensures variables { IfOk result (λ all. all.items ≡ variables circuit.now) }
    ensures well_formed { IsCircuit circuit.now }
{
    let inputs = circuit.inputs().iter().copied();
    let latches = circuit.latches().iter().map(|latch| latch.literal);
    let gates = circuit.gates().iter().map(|gate| gate.literal);
    let defined = inputs.chain(latches).chain(gates);
    once(0)
        .chain(defined.map(|literal| literal.variable()))
        .collect(alloc)
}

fn ids_of(alloc: Global, variables: &[u32]) -> Result<Ids, AllocError>
    requires { AllPairs (λ v w. v ≢ w) variables.now }
    ensures { IfOk result (λ ids. ids ≡ variables.now) }
{
    let mut ids = Ids::new(alloc);
    for &variable in variables {
        ids.push(u64::from(variable))?;
    }
    Ok(ids)
}
