//! A circuit whose variables have consecutive numbers, their indices (places).

ghost use Rattle.std.specs.Prelude.{◌≡◌, ℕ, ◌<◌, length, map, IfOk, MatchOption};
ghost use Rattle.ps_circuit.specs.Circuits.{CircuitData, IsCircuit, ReadsGate};
ghost use Rattle.ps_components.specs.Orders.{IsOrder};
ghost use Rattle.ps_product.specs.Inner.Nets.{IsGateAt, front_of, in_order, sides_of};
ghost use Rattle.ps_product.specs.Inner.Ranks.{RanksFall};
ghost use Rattle.ps_simulate.specs.Plans.{variables, wire_of};

use ps_circuit::Circuit;
use ps_simulate::{Places, Wire, next_wires, output_wires};
use std::alloc::{AllocError, Global};
use std::marker::Model;

/// What a gate reads, in the order of the variables' places.
#[derive(Clone, Copy)]
pub(crate) struct Sides {
    pub first: Wire,
    pub second: Wire,
}

fn in_order(one: Wire, other: Wire) -> Sides
    ensures { result ≡ in_order one other }
{
    if one.place <= other.place {
        Sides {
            first: one,
            second: other,
        }
    } else {
        Sides {
            first: other,
            second: one,
        }
    }
}

/// A circuit with places for variables: the constant first, then the inputs, the latches and the gates.
#[derive(Drop)]
pub(crate) struct Net<'a> {
    circuit: &'a Circuit,
    front: usize,
    gates: Vec<Sides>,
    outputs: Vec<Wire>,
    nexts: Vec<Wire>,
}

impl<'a> Model for Net<'a> {
    ghost use Rattle.ps_circuit.specs.Circuits.{CircuitData};
    ghost use Rattle.ps_product.specs.Inner.Nets.{IsNet};

    ghost Value = { CircuitData };

    ghost view = { λ n. n.circuit.now };

    ghost invariant = { λ n. IsNet n.circuit.now n.front n.gates.items n.outputs.items n.nexts.items };
}

impl<'a> Net<'a> {
    /// The circuit with its places.
    pub fn new(alloc: Global, circuit: &'a Circuit) -> Result<Self, AllocError>
        ensures { IfOk result (λ net. net ≡ circuit.now) }
    {
        let places = Places::new(alloc, circuit)?;
        Net::by_places(alloc, &places)
    }

    /// The circuit with these places.
    fn by_places(alloc: Global, places: &Places<'a>) -> Result<Self, AllocError>
        ensures { IfOk result (λ net. net ≡ places.now) }
    {
        let circuit = places.circuit();
        let gates = gate_sides(alloc, places)?;
        let outputs = output_wires(alloc, places)?;
        let nexts = next_wires(alloc, places)?;
        Ok(Net {
            circuit,
            front: 1 + circuit.inputs().len() + circuit.latches().len(),
            gates,
            outputs,
            nexts,
        })
    }

    /// The circuit.
    pub fn circuit(&self) -> &Circuit
        ensures circuit { result.now ≡ self.now }
        ensures well_formed { IsCircuit self.now }
    {
        self.circuit
    }

    /// In an order in which each gate comes after those that it reads, variables that a gate reads rank lower than it:
    /// the prover learns it here.
    pub fn ranks_fall(&self, order: &[usize])
        requires { IsOrder (ReadsGate self.now.gates) (length self.now.gates) order.now }
        ensures { RanksFall self.now order.now }
    {}

    /// How many variables it has.
    pub fn size(&self) -> usize
        ensures { result ≡ length (variables self.now) }
    {
        self.front + self.gates.len()
    }

    /// What the gate at a place reads; `None` if no gate is there.
    pub fn gate(&self, place: u32) -> Option<Sides>
        requires { place < length (variables self.now) }
        ensures { MatchOption result (place < front_of self.now) (λ sides. IsGateAt self.now place sides) }
    {
        let place = place as usize;
        if place < self.front {
            return None;
        }
        Some(self.gates[place - self.front])
    }

    /// The literals of the outputs.
    pub fn outputs(&self) -> &[Wire]
        ensures wires { result.now ≡ map (wire_of self.now) self.now.outputs }
        ensures well_formed { IsCircuit self.now }
    {
        &self.outputs
    }

    /// The literals of the latches' next values.
    pub fn nexts(&self) -> &[Wire]
        ensures { result.now ≡ map (λ l. wire_of self.now l.next) self.now.latches }
    {
        &self.nexts
    }
}

/// What each gate reads.
fn gate_sides(alloc: Global, places: &Places) -> Result<Vec<Sides>, AllocError>
    ensures { IfOk result (λ sides. sides.items ≡ map (sides_of places.now) places.now.gates) }
{
    let circuit = places.circuit();
    let mut sides = Vec::new(alloc);
    for gate in circuit.gates() {
        let one = places.wire(gate.first);
        let other = places.wire(gate.second);
        sides.push(in_order(one, other))?;
    }
    Ok(sides)
}
