//! The inputs that a circuit reads along walks in its product with a tableau.

ghost use Rattle.std.specs.Prelude.{◌≡◌, All, IfOk, map};
ghost use Rattle.ps_simulate.specs.Stimuli.{letters_of};
ghost use Rattle.ps_tableau_product.specs.Graphs.{inputs_along};
ghost use Rattle.ps_tableau_product.specs.Readings.{IsSlotOf};

use crate::graph::ModelGraph;
use ps_fairness::Edge;
use ps_simulate::Stimulus;
use std::alloc::{AllocError, Global};

/// The stimulus whose stem and lap are the inputs that the circuit reads along two walks. Fails if out of memory.
pub fn stimulus_along(
    alloc: Global,
    graph: &ModelGraph,
    stem: &[Edge],
    lap: &[Edge],
) -> Result<Stimulus, AllocError>
    requires stem { All (IsSlotOf graph.now) stem.now }
    requires lap { All (IsSlotOf graph.now) lap.now }
    ensures stem { IfOk result (λ stimulus. stimulus.stem ≡ map (inputs_along graph.now) stem.now) }
    ensures lap { IfOk result (λ stimulus. stimulus.lap ≡ map (inputs_along graph.now) lap.now) }
{
    let stem = letters_along(alloc, graph, stem)?;
    let lap = letters_along(alloc, graph, lap)?;
    Ok(Stimulus { stem, lap })
}

/// The inputs that the circuit reads along a walk, a letter for each edge.
fn letters_along(
    alloc: Global,
    graph: &ModelGraph,
    walk: &[Edge],
) -> Result<Vec<Vec<bool>>, AllocError>
    requires { All (IsSlotOf graph.now) walk.now }
    ensures { IfOk result
        (λ letters. letters_of letters.items ≡ map (inputs_along graph.now) walk.now) }
{
    let mut letters = Vec::new(alloc);
    for edge in walk {
        letters.push(graph.inputs(alloc, *edge)?)?;
    }
    Ok(letters)
}
