//! The circuit of a machine.

ghost use Rattle.std.specs.Prelude.{◌≡◌, ℕ, ◌+◌, ◌*◌, ◌^◌, ◌<◌, ◌≤◌, All, IfOk, IsTrue, Some, None, [], length};
ghost use Rattle.std.specs.Prelude.{map, replicate, slice_get};
ghost use Rattle.std.specs.List.{range_with_len};
ghost use Rattle.ps_machine.specs.Behaviours.{IsMachine};
ghost use Rattle.ps_machine.specs.BitMachines.{bit_behaviour};
ghost use Rattle.ps_machine.specs.Machines.{behaviour};
ghost use Rattle.ps_circuit.specs.Drafts.{data_of, name_bytes};
ghost use Rattle.ps_aiger.specs.Encoded.{Encodes, IsTidy, symbols_of};
ghost use Rattle.ps_aiger.specs.Timing.{SeesNoInput};
ghost use Rattle.ps_circuit.specs.Building.{IsSoundDraft};
ghost use Rattle.ps_aiger.specs.Inner.Built.{AreLatches, IsBuilt, IsCircuitOf};
ghost use Rattle.ps_aiger.specs.Wires.{AreGates, IsOutOfLiterals, IsWired, next_wires, output_wires};
ghost use Rattle.ps_aiger.specs.Inner.Functions.{AreOutputs, IsWanted, MakesLiterals, behaviour_of, bits_wired};
ghost use Rattle.ps_aiger.specs.declared.stored.Wanted.TheVariants.{Next};

use crate::functions::{Plan, input_literals, literal_of};
use crate::node_literals::NodeLiterals;
use crate::stored::{Stored, Wanted};
use ps_circuit::{Builder, Circuit, EncodeFault, Gate, Latch, Literal, Parts, Sides};
use ps_machine::{BitMachine, Machine};
use std::alloc::{AllocError, Global};

/// The circuit of a machine, from memory state 0 on: each of its steps is one of the machine. Inputs and outputs have
/// the names of their propositions. Fails if the circuit needs more than 2147483647 variables, or if memory runs out.
pub fn encode(alloc: Global, machine: &Machine) -> Result<Circuit, EncodeFault>
    ensures encodes { IfOk result (λ circuit. Encodes (behaviour machine.now) circuit) }
    ensures tidy { IfOk result (λ circuit. IsTidy circuit) }
    ensures sees_no_input { IfOk result (λ circuit. IsTrue machine.now.is_first → SeesNoInput circuit) }
    ensures wired { IfOk result (λ circuit. IsWired (behaviour machine.now) circuit) }
    ensures too_large { result ≡ Err EncodeFault.CircuitTooLarge → IsOutOfLiterals (behaviour machine.now) }
{
    encode_stored(alloc, &Stored::Rows(machine))
}

/// The circuit of a machine with diagrams of the bits of its output letters. Fails as `encode` does.
pub fn encode_bits(alloc: Global, machine: &BitMachine) -> Result<Circuit, EncodeFault>
    ensures encodes { IfOk result (λ circuit. Encodes (bit_behaviour machine.now) circuit) }
    ensures tidy { IfOk result (λ circuit. IsTidy circuit) }
    ensures sees_no_input { IfOk result (λ circuit. IsTrue machine.now.is_first → SeesNoInput circuit) }
    ensures wired { IfOk result (λ circuit. IsWired (bit_behaviour machine.now) circuit) }
    ensures too_large { result ≡ Err EncodeFault.CircuitTooLarge → IsOutOfLiterals (bit_behaviour machine.now) }
{
    encode_stored(alloc, &Stored::Bits(machine))
}

/// The circuit of a machine in either form.
fn encode_stored(alloc: Global, machine: &Stored<'_>) -> Result<Circuit, EncodeFault>
    ensures made { IfOk result (λ circuit. IsCircuitOf (behaviour_of machine.now) circuit) }
    ensures too_large { result ≡ Err EncodeFault.CircuitTooLarge → IsOutOfLiterals (behaviour_of machine.now) }
{
    let latches = latches_for(machine.memories());
    let mut builder = Builder::new(alloc, machine.inputs().len() as u32 + latches);
    let next = next_literals(alloc, &mut builder, machine, latches)?;
    let outputs = output_literals(alloc, &mut builder, machine, latches)?;
    let circuit = circuit_of(alloc, &builder, machine, latches, &next, outputs)?;
    Ok(circuit)
}

/// The latches' next values, whose gates come first.
fn next_literals(
    alloc: Global,
    builder: &mut Builder,
    machine: &Stored<'_>,
    latches: u32,
) -> Result<Vec<Literal>, EncodeFault>
    requires few { latches ≤ 64 }
    requires given { builder.old.given ≡ length (behaviour_of machine.now).inputs + latches }
    requires empty { builder.old.gates ≡ [] }
    ensures { MakesLiterals builder.old builder.new result (next_wires (behaviour_of machine.now) latches) }
{
    let next_bits = next_bits(alloc, latches)?;
    literals_of(alloc, builder, machine, latches, &next_bits)
}

/// The outputs, whose gates come after those.
fn output_literals(
    alloc: Global,
    builder: &mut Builder,
    machine: &Stored<'_>,
    latches: u32,
) -> Result<Vec<Literal>, EncodeFault>
    requires few { latches ≤ 64 }
    requires behind { builder.old ≡ (next_wires (behaviour_of machine.now) latches).draft }
    ensures { MakesLiterals builder.old builder.new result (output_wires (behaviour_of machine.now) latches) }
{
    let output_bits = output_bits(alloc, machine)?;
    literals_of(alloc, builder, machine, latches, &output_bits)
}

/// The circuit of these literals.
fn circuit_of(
    alloc: Global,
    builder: &Builder,
    machine: &Stored<'_>,
    latches: u32,
    next: &[Literal],
    outputs: Vec<Literal>,
) -> Result<Circuit, AllocError>
    requires given { builder.now.given ≡ length (behaviour_of machine.now).inputs + latches }
    requires enough { (behaviour_of machine.now).memories ≤ 2 ^ latches }
    requires least { (n : ℕ) → (behaviour_of machine.now).memories ≤ 2 ^ n → latches ≤ n }
    requires next_wired { next.now ≡ (next_wires (behaviour_of machine.now) latches).literals }
    requires output_wired { output_wires (behaviour_of machine.now) latches ≡ record
        { draft = builder.now; literals = outputs.items } }
    ensures { IfOk result (IsCircuitOf (behaviour_of machine.now)) }
{
    let parts = parts_of(alloc, builder, machine, next, outputs)?;
    Circuit::in_order(alloc, parts)
}

/// The fewest latches that have a code for each memory state.
fn latches_for(memories: usize) -> u32
    ensures enough { memories ≤ 2 ^ result }
    ensures least { (n : ℕ) → memories ≤ 2 ^ n → result ≤ n }
    ensures few { result ≤ 64 }
{
    for latches in 0..64 {
        if memories <= 1 << latches {
            return latches;
        }
    }
    64
}

/// The bits of the next memory state's number, one for each latch.
fn next_bits(alloc: Global, latches: u32) -> Result<Vec<Wanted>, AllocError>
    ensures many { IfOk result (λ bits. length bits.items ≡ latches) }
    ensures each { IfOk result (λ bits. (k : ℕ) → k < latches → slice_get bits.items k ≡ Some (Next k)) }
{
    let mut bits = Vec::new(alloc);
    for bit in 0..latches {
        bits.push(Wanted::Next(bit))?;
    }
    Ok(bits)
}

/// The propositions that the machine sets.
fn output_bits(alloc: Global, machine: &Stored<'_>) -> Result<Vec<Wanted>, AllocError>
    ensures { IfOk result (λ bits. AreOutputs (behaviour_of machine.now).outputs bits.items) }
{
    let mut bits = Vec::new(alloc);
    for (place, proposition) in machine.outputs().iter().enumerate() {
        bits.push(Wanted::Output {
            place,
            proposition: *proposition,
        })?;
    }
    Ok(bits)
}

/// The literals of bits of the machine's step, one after another.
fn literals_of(
    alloc: Global,
    builder: &mut Builder,
    machine: &Stored<'_>,
    latches: u32,
    wanted: &[Wanted],
) -> Result<Vec<Literal>, EncodeFault>
    requires few { latches ≤ 64 }
    requires given { builder.old.given ≡ length (behaviour_of machine.now).inputs + latches }
    requires wanted { All (IsWanted (behaviour_of machine.now).outputs) wanted.now }
    ensures { MakesLiterals builder.old builder.new result (bits_wired machine.now latches wanted.now builder.old) }
{
    let inputs = input_literals(alloc, machine)?;
    let mut known = NodeLiterals::new(alloc, machine.store().len())?;
    let mut literals = Vec::new(alloc);
    for bit in wanted {
        let plan = Plan {
            machine: &*machine,
            inputs: &inputs,
            wanted: *bit,
        };
        let literal = literal_of(builder, &plan, &mut known, latches)?;
        literals.push(literal)?;
    }
    Ok(literals)
}

fn parts_of(
    alloc: Global,
    builder: &Builder,
    machine: &Stored<'_>,
    next: &[Literal],
    outputs: Vec<Literal>,
) -> Result<Parts, AllocError>
    requires given { builder.now.given ≡ length (behaviour_of machine.now).inputs + length next.now }
    ensures machine { IsMachine (behaviour_of machine.now) }
    ensures sound { IsSoundDraft builder.now }
    ensures built { IfOk result (λ parts. IsBuilt (behaviour_of machine.now) builder.now next.now outputs.items
        (data_of parts)) }
{
    let inputs = machine.inputs();
    let first_latch = inputs.len() as u32 + 1;
    Ok(Parts {
        most: builder.variables(),
        inputs: literals_from(alloc, 1, inputs.len() as u32)?,
        latches: latches_of(alloc, first_latch, next)?,
        outputs,
        gates: gates_of(alloc, builder)?,
        input_names: symbols(alloc, machine, inputs)?,
        latch_names: no_symbols(alloc, next.len())?,
        output_names: symbols(alloc, machine, machine.outputs())?,
    })
}

/// The literals of `count` variables from `first` on. Fails if out of memory.
pub fn literals_from(alloc: Global, first: u32, count: u32) -> Result<Vec<Literal>, AllocError>
    requires { first + count ≤ 2 ^ 31 }
    ensures { IfOk result (λ literals. literals.items ≡ map (λ v. 2 * v) (range_with_len first count)) }
{
    let mut literals = Vec::new(alloc);
    for place in 0..count {
        literals.push(Literal::positive(first + place))?;
    }
    Ok(literals)
}

/// Latches with the variables from `first` on.
fn latches_of(alloc: Global, first: u32, next: &[Literal]) -> Result<Vec<Latch>, AllocError>
    requires { first + length next.now ≤ 2 ^ 31 }
    ensures { IfOk result (λ latches. AreLatches first next.now latches.items) }
{
    let mut latches = Vec::new(alloc);
    for (place, next) in next.iter().enumerate() {
        latches.push(Latch {
            literal: Literal::positive(first + place as u32),
            next: *next,
            reset: false,
        })?;
    }
    Ok(latches)
}

/// The gates of a builder, whose variables follow those that were given. Fails if out of memory.
pub fn gates_of(alloc: Global, builder: &Builder) -> Result<Vec<Gate>, AllocError>
    ensures { IfOk result (λ gates. AreGates (builder.now.given + 1) builder.now.gates gates.items) }
{
    let first = builder.given() + 1;
    let mut gates = Vec::new(alloc);
    for (place, sides) in builder.gates().iter().enumerate() {
        gates.push(Gate {
            literal: Literal::positive(first + place as u32),
            first: sides.first,
            second: sides.second,
        })?;
    }
    Ok(gates)
}

fn symbols(
    alloc: Global,
    machine: &Stored<'_>,
    propositions: &[u32],
) -> Result<Vec<Option<Vec<u8>>>, AllocError>
    requires { All (λ p. p < length (behaviour_of machine.now).names) propositions.now }
    ensures { IfOk result
        (λ names. map name_bytes names.items ≡ symbols_of (behaviour_of machine.now).names propositions.now) }
{
    let mut names = Vec::new(alloc);
    for proposition in propositions {
        let name = machine.names()[*proposition as usize]
            .as_slice()
            .to_vec(alloc)?;
        names.push(Some(name))?;
    }
    Ok(names)
}

/// No symbols for so many latches. Fails if out of memory.
pub fn no_symbols(alloc: Global, count: usize) -> Result<Vec<Option<Vec<u8>>>, AllocError>
    ensures many { IfOk result (λ names. length names.items ≡ count) }
    ensures none { IfOk result (λ names. map name_bytes names.items ≡ replicate count None) }
{
    let mut names = Vec::new(alloc);
    for _ in 0..count {
        names.push(None)?;
    }
    Ok(names)
}
