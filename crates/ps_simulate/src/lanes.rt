//! Runs a circuit on 256 stimuli at once.

ghost use Rattle.std.specs.Prelude.{◌≡◌, ℕ, ◌+◌, ◌<◌, ◌≤◌, ◌⊎◌, [], length, map, slice_get, slice_index_or, All, IfOk};
ghost use Rattle.std.specs.Prelude.{Some, false};
ghost use Rattle.ps_circuit.specs.Literals.{variable};
ghost use Rattle.ps_circuit.specs.Values.{resets};
ghost use Rattle.ps_simulate.specs.Lanes.{all_or_none, lane_bit, lane_of};
ghost use Rattle.ps_simulate.specs.LanePlans.{rows_from, wire_in};
ghost use Rattle.ps_simulate.specs.Inner.TablesForSteps.{IsLaneTableFor};
ghost use Rattle.ps_simulate.specs.Plans.{IsRowInTable, IsWorkedOut, read, work_out};

use crate::lane_plan::{LanePlan, Operands};
use ps_circuit::{Circuit, Literal};
use std::alloc::{AllocError, Global};
use std::marker::Model;
use std::simd::prelude::*;

/// A circuit, and the values of its latches in 256 runs (lanes); that of run 64·w + b is bit b of word w.
#[derive(Drop)]
pub struct LaneSimulator<'a> {
    circuit: &'a Circuit,
    plan: LanePlan,
    values: Vec<[u64; 4]>,
    latches: Vec<[u64; 4]>,
}

impl<'a> Model for LaneSimulator<'a> {
    ghost use Rattle.ps_simulate.specs.Lanes.{LaneSimulation, AreLaneTables};

    ghost Value = { LaneSimulation };

    ghost view = { λ s. record { circuit = s.circuit.now; latches = s.latches.items } };

    ghost invariant = { λ s. AreLaneTables s.circuit.now s.plan s.values.items s.latches.items };
}

impl<'a> LaneSimulator<'a> {
    ghost use Rattle.ps_simulate.specs.LaneRuns.{StepsInLanes};

    /// Starts a circuit 256 times. Fails if out of memory.
    pub fn new(alloc: Global, circuit: &'a Circuit) -> Result<Self, AllocError>
        ensures circuit { IfOk result (λ s. s.circuit ≡ circuit.now) }
        ensures latches { IfOk result (λ s. (lane : ℕ) → lane < 256 → lane_of s.latches lane ≡ resets circuit.now) }
    {
        let plan = LanePlan::new(alloc, circuit)?;
        let latches = first_words(alloc, circuit)?;
        let values = vec![in alloc; [0; 4]; plan.size]?;
        Ok(LaneSimulator {
            circuit,
            plan,
            values,
            latches,
        })
    }

    /// Takes one letter in each run: stores the values of the outputs, and updates the latches. Allocates no memory.
    pub fn step_lanes(&mut self, inputs: &[[u64; 4]], outputs: &mut [[u64; 4]])
        requires inputs_fit { length inputs.now ≡ length self.old.circuit.inputs }
        requires outputs_fit { length outputs.old ≡ length self.old.circuit.outputs }
        ensures steps { StepsInLanes self.old.circuit self.old.latches inputs.now outputs.new self.new.latches }
        ensures circuit { self.new.circuit ≡ self.old.circuit }
    {
        fill_words(
            &self.plan.gates,
            self.plan.front,
            inputs,
            &self.latches,
            &mut self.values,
        );
        read_words(&self.plan.outputs, &self.values, outputs);
        read_words(&self.plan.nexts, &self.values, &mut self.latches);
    }

    /// A latch's value in a run.
    pub fn latch(&self, lane: usize, number: usize) -> bool
        requires lane { lane < 256 }
        requires number { number < length self.now.circuit.latches }
        ensures { slice_get (lane_of self.now.latches lane) number ≡ Some result }
    {
        let words = self.latches[number];
        (words[lane / 64] >> (lane % 64)) & 1 == 1
    }
}

fn first_words(alloc: Global, circuit: &Circuit) -> Result<Vec<[u64; 4]>, AllocError>
    ensures { IfOk result (λ words. (lane : ℕ) → lane < 256 → lane_of words.items lane ≡ resets circuit.now) }
{
    let mut words = Vec::new(alloc);
    for latch in circuit.latches() {
        words.push([mask(latch.reset); 4])?;
    }
    Ok(words)
}

fn mask(is_set: bool) -> u64
    ensures { result ≡ all_or_none is_set }
{
    u64::from(is_set).wrapping_neg()
}

fn put_words(values: &mut [[u64; 4]], start: usize, words: &[[u64; 4]])
    requires { start + length words.now ≤ length values.old }
    ensures put { (k : ℕ) → k < length words.now → slice_index_or values.new (start + k) [] ≡ slice_index_or
        words.now k [] }
    ensures others { (p : ℕ) → (p < start) ⊎ (start + length words.now ≤ p) →
        slice_index_or values.new p [] ≡ slice_index_or values.old p [] }
{
    for (place, word) in words.iter().enumerate() {
        values[start + place] = *word;
    }
}

fn bits(values: &[[u64; 4]], literal: Literal) -> u64x4
    requires { variable literal < length values.now }
    ensures { (lane : ℕ) → lane < 256 → lane_bit result lane ≡ read (lane_of values.now lane) (wire_in literal) }
{
    let words = u64x4::from_array(values[literal.variable() as usize]);
    words ^ u64x4::splat(mask(literal.is_negated()))
}

/// Evaluates each gate once, and stores the values from `front` on.
fn work_words(gates: &[Operands], front: usize, values: &mut [[u64; 4]])
    requires within { All (IsRowInTable (length values.old)) (rows_from front gates.now) }
    requires fit { front + length gates.now ≤ length values.old }
    ensures { (lane : ℕ) → lane < 256 → lane_of values.new lane ≡ work_out (rows_from front gates.now)
        (lane_of values.old lane) }
{
    for (number, &gate) in gates.iter().enumerate() {
        let words = bits(values, gate.first) & bits(values, gate.second);
        values[front + number] = words.to_array();
    }
}

/// Fills the table after the constant 0: inputs, latches and gates.
fn fill_words(
    gates: &[Operands],
    front: usize,
    inputs: &[[u64; 4]],
    latches: &[[u64; 4]],
    values: &mut [[u64; 4]],
)
    requires { IsLaneTableFor front gates.now inputs.now latches.now values.old }
    ensures { (lane : ℕ) → lane < 256 → IsWorkedOut (rows_from front gates.now) (lane_of inputs.now lane)
        (lane_of latches.now lane) (length values.old) (lane_of values.new lane) }
{
    put_words(values, 1, inputs);
    put_words(values, 1 + inputs.len(), latches);
    work_words(gates, front, values);
}

fn read_words(literals: &[Literal], values: &[[u64; 4]], words: &mut [[u64; 4]])
    requires within { All (λ literal. variable literal < length values.now) literals.now }
    requires fit { length words.old ≡ length literals.now }
    ensures { (lane : ℕ) → lane < 256 → lane_of words.new lane ≡ map
        (λ literal. read (lane_of values.now lane) (wire_in literal)) literals.now }
{
    for (place, &literal) in literals.iter().enumerate() {
        words[place] = bits(values, literal).to_array();
    }
}
