//! Merges signals that were equal in some runs of a circuit.

ghost use Rattle.std.specs.Prelude.{◌≡◌, OnOk};
ghost use Rattle.ps_circuit.specs.Building.{Extends};

use crate::images::Images;
use crate::needed::latches_among;
use crate::rebuilding::{begun, drawn};
use crate::sketch::{Row, Signal, Sketch};
use crate::trails::Trails;
use ps_circuit::EncodeFault;
use ps_simulate::Stimulus;
use std::alloc::{AllocError, Global};
use std::collections::BTreeMap;

/// The sketch in which each latch and gate becomes the first signal that always had the same value, or the opposite: in
/// 64 runs with random inputs, and in one on each stimulus.
pub(crate) fn swept(
    alloc: Global,
    sketch: &Sketch,
    stimuli: &[Stimulus],
) -> Result<Sketch, EncodeFault> {
    let twins = twins(alloc, sketch, stimuli)?;
    merged(alloc, sketch, &twins)
}

/// The signal that replaces the variable at a place, if there is one.
fn twins(
    alloc: Global,
    sketch: &Sketch,
    stimuli: &[Stimulus],
) -> Result<Vec<Option<Signal>>, AllocError> {
    let mut trails = Trails::new(alloc, sketch)?;
    trails.run_drawn(sketch);
    for stimulus in stimuli {
        trails.run(sketch, stimulus);
    }
    matched(alloc, sketch, &trails)
}

/// The first equal signal of each latch and gate.
fn matched(
    alloc: Global,
    sketch: &Sketch,
    trails: &Trails,
) -> Result<Vec<Option<Signal>>, AllocError> {
    let mut twins = vec![in alloc; None; sketch.end]?;
    let mut seen = BTreeMap::new(alloc);
    for place in 0..sketch.inputs.saturating_add(1) {
        let _ = first_alike(&mut seen, trails, place)?;
    }
    for latch in &sketch.latches {
        note(&mut twins, &mut seen, trails, latch.place)?;
    }
    for gate in &sketch.gates {
        note(&mut twins, &mut seen, trails, gate.place)?;
    }
    Ok(twins)
}

/// Records what replaces the variable at a place.
fn note(
    twins: &mut [Option<Signal>],
    seen: &mut BTreeMap<u64, Signal>,
    trails: &Trails,
    place: usize,
) -> Result<(), AllocError> {
    let twin = first_alike(seen, trails, place)?;
    if place < twins.len() {
        twins[place] = twin;
    }
    Ok(())
}

/// The first signal that was equal to a variable, if it is another.
fn first_alike(
    seen: &mut BTreeMap<u64, Signal>,
    trails: &Trails,
    place: usize,
) -> Result<Option<Signal>, AllocError> {
    let trail = trails.trail(place);
    if let Some(first) = seen.get(&trail.hash).copied() {
        return Ok(Some(Signal {
            place: first.place,
            is_negated: first.is_negated != trail.is_turned,
        }));
    }
    seen.insert(
        trail.hash,
        Signal {
            place,
            is_negated: trail.is_turned,
        },
    )?;
    Ok(None)
}

/// The sketch with twins for variables.
fn merged(alloc: Global, sketch: &Sketch, twins: &[Option<Signal>]) -> Result<Sketch, EncodeFault> {
    let alone: Vec<bool> = twins.iter().map(|twin| twin.is_none()).collect(alloc)?;
    let latches = latches_among(alloc, sketch, &alone)?;
    let mut images = begun(alloc, sketch.inputs, &latches, sketch.end)?;
    for latch in &sketch.latches {
        put_twin(&mut images, twins, latch.place);
    }
    build(&mut images, &sketch.gates, twins)?;
    Ok(drawn(alloc, sketch, &latches, &images)?)
}

/// Makes the gates without a twin.
fn build(images: &mut Images, gates: &[Row], twins: &[Option<Signal>]) -> Result<(), EncodeFault>
    ensures { OnOk result (Extends images.old images.new) }
{
    for gate in gates {
        if !put_twin(images, twins, gate.place) {
            images.build(*gate)?;
        }
    }
    Ok(())
}

/// Lets a variable's twin stand for it, if there is one.
fn put_twin(images: &mut Images, twins: &[Option<Signal>], place: usize) -> bool
    ensures { images.new ≡ images.old }
{
    if place >= twins.len() {
        return false;
    }
    let Some(twin) = twins[place] else {
        return false;
    };
    let literal = images.at(twin);
    images.put(place, literal);
    true
}
