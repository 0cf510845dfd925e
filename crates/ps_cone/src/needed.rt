//! What the outputs depend on.

ghost use Rattle.std.specs.Prelude.{◌≡◌, ◌<◌, All, IfOk, is_some, length, map};
ghost use Rattle.ps_circuit.specs.Circuits.{IsCircuit};
ghost use Rattle.ps_circuit.specs.GateGraphs.{gate_graph};
ghost use Rattle.ps_cone.specs.Inner.Needed.{AreFlags, AreNeeded, roots_of};
ghost use Rattle.ps_cone.specs.Masks.{with_outputs};

use crate::readers::readers_of;
use ps_circuit::{Circuit, GateGraph, Literal, gate_variables, links_to};
use ps_components::{Components, components_from};
use ps_ids::Ids;
use std::alloc::{AllocError, Global};

/// For each latch, and then each gate, whether one of the given outputs depends on it. Fails if memory runs out.
pub(crate) fn needed(
    alloc: Global,
    circuit: &Circuit,
    outputs: &[Literal],
) -> Result<Vec<bool>, AllocError>
    requires { IsCircuit (with_outputs circuit.now outputs.now) }
    ensures { IfOk result (λ needed. AreNeeded (with_outputs circuit.now outputs.now) needed.items) }
{
    let readers = readers_of(alloc, circuit)?;
    let variables = gate_variables(alloc, &readers)?;
    let roots = roots_of(alloc, outputs, &variables)?;
    let links = links_to(alloc, &readers, &variables)?;
    let graph = GateGraph { links };
    reached(alloc, &graph, &roots)
}

fn roots_of(alloc: Global, outputs: &[Literal], variables: &Ids) -> Result<Vec<usize>, AllocError>
    ensures { IfOk result (λ roots. roots.items ≡ roots_of variables.now outputs.now) }
{
    let mut roots = Vec::new(alloc);
    for output in outputs {
        if let Some(place) = variables.place(u64::from(output.variable())) {
            roots.push(place)?;
        }
    }
    Ok(roots)
}

/// For each vertex, whether it is a root or reached from one.
fn reached(alloc: Global, graph: &GateGraph, roots: &[usize]) -> Result<Vec<bool>, AllocError>
    requires { All (λ v. v < (gate_graph graph.now.links.items).count) roots.now }
    ensures { IfOk result (λ flags. AreFlags (gate_graph graph.now.links.items) roots.now flags.items) }
{
    let components = components_from(alloc, graph, roots)?;
    marked(alloc, &components, graph.links.len())
}

fn marked(alloc: Global, components: &Components, count: usize) -> Result<Vec<bool>, AllocError>
    requires { count ≡ length components.now.numbers }
    ensures { IfOk result (λ flags. flags.items ≡ map is_some components.now.numbers) }
{
    let mut flags = Vec::new(alloc);
    for vertex in 0..count {
        flags.push(components.number(vertex).is_some())?;
    }
    Ok(flags)
}
