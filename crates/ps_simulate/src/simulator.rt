//! Runs a circuit.

ghost use Rattle.std.specs.Prelude.{◌≡◌, ℕ, ◌+◌, ◌<◌, ◌≤◌, ◌⊎◌, length, map, slice_get, slice_index_or, All, IfOk};
ghost use Rattle.std.specs.Prelude.{Some, false};
ghost use Rattle.ps_simulate.specs.Inner.TablesForSteps.{IsTableFor};
ghost use Rattle.ps_simulate.specs.Plans.{IsRowInTable, IsWorkedOut, read, work_out};

use crate::needed::plan_of_needed;
use crate::plan::{Plan, Row, Wire};
use ps_circuit::Circuit;
use std::alloc::{AllocError, Global};
use std::marker::Model;

/// A circuit, and the values of its latches.
#[derive(Drop)]
pub struct Simulator<'a> {
    circuit: &'a Circuit,
    plan: Plan,
    values: Vec<bool>,
    latches: Vec<bool>,
}

impl<'a> Model for Simulator<'a> {
    ghost use Rattle.ps_simulate.specs.Simulations.{Simulation};

    ghost Value = { Simulation };

    ghost use Rattle.ps_simulate.specs.NeededGates.{IsPlanOfNeeded};
    ghost use Rattle.ps_simulate.specs.Tables.{IsValueTable};
    ghost use Rattle.ps_simulate.specs.declared.plan.Plan.{Plan};

    ghost view = { λ s. record { circuit = s.circuit.now; latches = s.latches.items } };

    ghost invariant = { λ s. (whole : Plan) × IsPlanOfNeeded whole s.plan
        × IsValueTable s.circuit.now whole s.values.items s.latches.items };
}

impl<'a> Simulator<'a> {
    ghost use Rattle.ps_circuit.specs.Values.{Steps, resets};

    /// Starts a circuit, with its latches at their resets. Fails if out of memory.
    pub fn new(alloc: Global, circuit: &'a Circuit) -> Result<Self, AllocError>
        ensures circuit { IfOk result (λ s. s.circuit ≡ circuit.now) }
        ensures latches { IfOk result (λ s. s.latches ≡ resets circuit.now) }
    {
        let plan = plan_of_needed(alloc, circuit)?;
        let latches = first_latches(alloc, circuit)?;
        let values = vec![in alloc; false; plan.size]?;
        Ok(Simulator {
            circuit,
            plan,
            values,
            latches,
        })
    }

    /// Takes a letter: stores the values of the outputs, and updates the latches. Allocates no memory.
    pub fn step(&mut self, inputs: &[bool], outputs: &mut [bool])
        requires inputs_fit { length inputs.now ≡ length self.old.circuit.inputs }
        requires outputs_fit { length outputs.old ≡ length self.old.circuit.outputs }
        ensures steps { Steps self.old.circuit self.old.latches inputs.now outputs.new self.new.latches }
        ensures circuit { self.new.circuit ≡ self.old.circuit }
    {
        fill(&self.plan.rows, inputs, &self.latches, &mut self.values);
        read_all(&self.plan.outputs, &self.values, outputs);
        read_all(&self.plan.nexts, &self.values, &mut self.latches);
    }

    /// The values of all latches.
    pub fn latches(&self) -> &[bool]
        ensures { result.now ≡ self.now.latches }
    {
        self.latches.as_slice()
    }

    /// The value of a latch.
    pub fn latch(&self, number: usize) -> bool
        requires { number < length self.now.circuit.latches }
        ensures { slice_get self.now.latches number ≡ Some result }
    {
        self.latches[number]
    }
}

fn first_latches(alloc: Global, circuit: &Circuit) -> Result<Vec<bool>, AllocError>
    ensures { IfOk result (λ bits. bits.items ≡ map (λ l. l.reset) circuit.now.latches) }
{
    circuit
        .latches()
        .iter()
        .map(|latch| latch.reset)
        .collect(alloc)
}

fn put(values: &mut [bool], start: usize, bits: &[bool])
    requires { start + length bits.now ≤ length values.old }
    ensures put { (k : ℕ) → k < length bits.now → slice_index_or values.new (start + k) false ≡ slice_index_or
        bits.now k false }
    ensures others { (p : ℕ) → (p < start) ⊎ (start + length bits.now ≤ p) →
        slice_index_or values.new p false ≡ slice_index_or values.old p false }
{
    for (place, &bit) in bits.iter().enumerate() {
        values[start + place] = bit;
    }
}

fn bit(values: &[bool], wire: Wire) -> bool
    requires { wire.place < length values.now }
    ensures { result ≡ read values.now wire }
{
    values[wire.place as usize] ^ wire.is_negated
}

/// Evaluates each gate once.
fn work(rows: &[Row], values: &mut [bool])
    requires { All (IsRowInTable (length values.old)) rows.now }
    ensures { values.new ≡ work_out rows.now values.old }
{
    for row in rows {
        let first = bit(values, row.first);
        let second = bit(values, row.second);
        values[row.target as usize] = first & second;
    }
}

/// Fills the table after the constant 0: inputs, latches and gates.
fn fill(rows: &[Row], inputs: &[bool], latches: &[bool], values: &mut [bool])
    requires { IsTableFor rows.now inputs.now latches.now values.old }
    ensures { IsWorkedOut rows.now inputs.now latches.now (length values.old) values.new }
{
    put(values, 1, inputs);
    put(values, 1 + inputs.len(), latches);
    work(rows, values);
}

fn read_all(wires: &[Wire], values: &[bool], bits: &mut [bool])
    requires within { All (λ w. w.place < length values.now) wires.now }
    requires fit { length bits.old ≡ length wires.now }
    ensures { bits.new ≡ map (read values.now) wires.now }
{
    for (place, &wire) in wires.iter().enumerate() {
        bits[place] = bit(values, wire);
    }
}
