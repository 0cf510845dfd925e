//! Circuits.

ghost use Rattle.std.specs.Prelude.{◌≡◌, ℕ, ◌<◌, length, map, slice_index_or, IfOk, IfNone, IfSome, None};
ghost use Rattle.std.specs.Option.{option_copied};
ghost use Rattle.ps_components.specs.Orders.{IsOrder, IsFirstOnCycle};
ghost use Rattle.ps_circuit.specs.Circuits.{CircuitData, IsDraft, IsCircuit, IsMadeOf, ReadsGate};
ghost use Rattle.ps_circuit.specs.Drafts.{data_of, name_bytes};

use crate::gate_graph::GateGraph;
use crate::links::links_of;
use crate::literal::Literal;
use crate::parts::{Gate, Latch, Parts};
use crate::rising::by_variable;
use crate::soundness::is_draft;
use ps_components::{Arrangement, arrange};
use std::alloc::{AllocError, Global};
use std::marker::Model;
use thiserror::Error;

/// Why parts make no circuit.
#[derive(Clone, Copy, Debug, PartialEq, Eq, Error)]
pub enum CircuitFault {
    /// A gate depends on itself.
    #[error("the gate at place {gate} depends on itself")]
    Cyclic {
        /// The index of the first gate that does.
        gate: usize,
    },
    /// Out of memory.
    #[error("out of memory")]
    OutOfMemory,
}

impl From<AllocError> for CircuitFault {
    ghost use Rattle.std.specs.Prelude.{◌≡◌};
    ghost use Rattle.ps_circuit.specs.declared.circuit.CircuitFault.TheVariants.{OutOfMemory};

    ghost from_gives = { λ _ e. e ≡ OutOfMemory };

    fn from(_error: AllocError) -> Self {
        CircuitFault::OutOfMemory
    }
}

/// A circuit of and-gates and latches: no variable is defined twice, that of each used literal is defined or 0, and no
/// gate depends on itself. It stores an order of its gates, each after those that it reads.
#[derive(Drop)]
pub struct Circuit {
    parts: Parts,
    order: Vec<usize>,
}

impl Model for Circuit {
    ghost Value = { CircuitData };

    ghost view = { λ c. data_of c.parts };

    ghost invariant = { λ c. IsCircuit (data_of c.parts)
        × IsOrder (ReadsGate c.parts.gates.items) (length c.parts.gates.items) c.order.items };
}

impl Circuit {
    /// The circuit of these parts. Fails if a gate depends on itself, or if out of memory.
    pub(crate) fn new(alloc: Global, parts: Parts) -> Result<Self, CircuitFault>
        requires { IsDraft (data_of parts) }
        ensures made { IfOk result (IsMadeOf (data_of parts)) }
        ensures cyclic { (i : ℕ) → result ≡ Err (CircuitFault.Cyclic i) →
            IsFirstOnCycle (ReadsGate parts.gates.items) i }
    {
        match by_variable(alloc, &parts.gates)? {
            Some(order) => Ok(Circuit { parts, order }),
            None => Circuit::arranged(alloc, parts),
        }
    }

    /// The same, by a search of the gates.
    fn arranged(alloc: Global, parts: Parts) -> Result<Self, CircuitFault>
        requires { IsDraft (data_of parts) }
        ensures made { IfOk result (IsMadeOf (data_of parts)) }
        ensures cyclic { (i : ℕ) → result ≡ Err (CircuitFault.Cyclic i) →
            IsFirstOnCycle (ReadsGate parts.gates.items) i }
    {
        let links = links_of(alloc, &parts.gates)?;
        let graph = GateGraph { links };
        let arrangement = arrange(alloc, &graph)?;
        match arrangement {
            Arrangement::Order(order) => Ok(Circuit { parts, order }),
            Arrangement::Cyclic(gate) => Err(CircuitFault::Cyclic { gate }),
        }
    }

    /// The circuit of these parts, or none if they are not those of a circuit. Fails if out of memory.
    pub fn checked(alloc: Global, parts: Parts) -> Result<Option<Self>, AllocError>
        ensures made { IfOk result (λ found. IfSome found (IsMadeOf (data_of parts))) }
        ensures none { IfOk result (λ found. IfNone found (¬ IsCircuit (data_of parts))) }
    {
        if !is_draft(alloc, &parts)? {
            return Ok(None);
        }
        match Circuit::new(alloc, parts) {
            Ok(circuit) => Ok(Some(circuit)),
            Err(CircuitFault::Cyclic { .. }) => Ok(None),
            Err(CircuitFault::OutOfMemory) => Err(AllocError),
        }
    }

    /// The circuit of parts in which each gate comes after those that it reads. Fails if out of memory.
    pub fn in_order(alloc: Global, parts: Parts) -> Result<Self, AllocError>
        requires draft { IsDraft (data_of parts) }
        requires ordered { (i j : ℕ) → ReadsGate parts.gates.items i j → j < i }
        ensures { IfOk result (IsMadeOf (data_of parts)) }
    {
        let order = (0..parts.gates.len()).collect(alloc)?;
        Ok(Circuit { parts, order })
    }

    /// The greatest variable that it may use.
    pub fn most(&self) -> u32
        ensures most { result ≡ self.now.most }
        ensures well_formed { IsCircuit self.now }
    {
        self.parts.most
    }

    /// The literals of the inputs.
    pub fn inputs(&self) -> &[Literal]
        ensures inputs { result.now ≡ self.now.inputs }
        ensures well_formed { IsCircuit self.now }
    {
        &self.parts.inputs
    }

    /// The latches.
    pub fn latches(&self) -> &[Latch]
        ensures latches { result.now ≡ self.now.latches }
        ensures well_formed { IsCircuit self.now }
    {
        &self.parts.latches
    }

    /// The literals of the outputs.
    pub fn outputs(&self) -> &[Literal]
        ensures outputs { result.now ≡ self.now.outputs }
        ensures well_formed { IsCircuit self.now }
    {
        &self.parts.outputs
    }

    /// The parts fit: no variable is defined twice, and no gate depends on itself. The prover learns it here.
    pub fn parts_fit(&self)
        ensures { IsCircuit self.now }
    {
        self.latches();
    }

    /// The gates, in the order of the text or of the parts.
    pub fn gates(&self) -> &[Gate]
        ensures gates { result.now ≡ self.now.gates }
        ensures well_formed { IsCircuit self.now }
    {
        &self.parts.gates
    }

    /// The indices of the gates, each after those that it reads.
    pub fn order(&self) -> &[usize]
        ensures { IsOrder (ReadsGate self.now.gates) (length self.now.gates) result.now }
    {
        &self.order
    }

    pub(crate) fn input_names(&self) -> &[Option<Vec<u8>>]
        ensures { map name_bytes result.now ≡ self.now.input_names }
    {
        &self.parts.input_names
    }

    pub(crate) fn latch_names(&self) -> &[Option<Vec<u8>>]
        ensures { map name_bytes result.now ≡ self.now.latch_names }
    {
        &self.parts.latch_names
    }

    pub(crate) fn output_names(&self) -> &[Option<Vec<u8>>]
        ensures { map name_bytes result.now ≡ self.now.output_names }
    {
        &self.parts.output_names
    }

    /// An input's name, if it has one.
    pub fn input_name(&self, input: usize) -> Option<&[u8]>
        requires { input < length self.now.inputs }
        ensures { option_copied result ≡ slice_index_or self.now.input_names input None }
    {
        match &self.parts.input_names[input] {
            Some(name) => Some(name.as_slice()),
            None => None,
        }
    }

    /// A latch's name, if it has one.
    pub fn latch_name(&self, latch: usize) -> Option<&[u8]>
        requires { latch < length self.now.latches }
        ensures { option_copied result ≡ slice_index_or self.now.latch_names latch None }
    {
        match &self.parts.latch_names[latch] {
            Some(name) => Some(name.as_slice()),
            None => None,
        }
    }

    /// An output's name, if it has one.
    pub fn output_name(&self, output: usize) -> Option<&[u8]>
        requires { output < length self.now.outputs }
        ensures { option_copied result ≡ slice_index_or self.now.output_names output None }
    {
        match &self.parts.output_names[output] {
            Some(name) => Some(name.as_slice()),
            None => None,
        }
    }
}
