//! What the outputs of a circuit need.

use crate::sketch::{Memory, Row, Signal, Sketch};
use std::alloc::{AllocError, Global};

/// A sketch without gates and latches that no output needs.
pub(crate) fn pruned(alloc: Global, sketch: &Sketch) -> Result<Sketch, AllocError> {
    let needed = needed(alloc, sketch)?;
    Ok(Sketch {
        inputs: sketch.inputs,
        latches: latches_among(alloc, sketch, &needed)?,
        gates: gates_among(alloc, sketch, &needed)?,
        outputs: Vec::from_slice(alloc, &sketch.outputs)?,
        end: sketch.end,
    })
}

/// The latches at places that are marked.
pub(crate) fn latches_among(
    alloc: Global,
    sketch: &Sketch,
    places: &[bool],
) -> Result<Vec<Memory>, AllocError> {
    let mut latches = Vec::new(alloc);
    for latch in &sketch.latches {
        if is_among(places, latch.place) {
            latches.push(*latch)?;
        }
    }
    Ok(latches)
}

/// The gates at places that are marked.
fn gates_among(alloc: Global, sketch: &Sketch, places: &[bool]) -> Result<Vec<Row>, AllocError> {
    let mut gates = Vec::new(alloc);
    for gate in &sketch.gates {
        if is_among(places, gate.place) {
            gates.push(*gate)?;
        }
    }
    Ok(gates)
}

/// The places on which some output depends, in the same step or later.
fn needed(alloc: Global, sketch: &Sketch) -> Result<Vec<bool>, AllocError> {
    let mut needed = vec![in alloc; false; sketch.end]?;
    for output in &sketch.outputs {
        need(&mut needed, *output);
    }
    for _ in 0..sketch.end {
        need_sides(sketch, &mut needed);
        if !need_nexts(sketch, &mut needed) {
            break;
        }
    }
    Ok(needed)
}

/// Records a signal, and returns whether it is new.
fn need(needed: &mut [bool], signal: Signal) -> bool {
    if signal.place >= needed.len() || needed[signal.place] {
        return false;
    }
    needed[signal.place] = true;
    true
}

pub(crate) fn is_among(places: &[bool], place: usize) -> bool {
    place < places.len() && places[place]
}

/// Records what needed gates read.
fn need_sides(sketch: &Sketch, needed: &mut [bool]) {
    for gate in sketch.gates.iter().rev() {
        if is_among(needed, gate.place) {
            need(needed, gate.first);
            need(needed, gate.second);
        }
    }
}

/// Records the next values of needed latches, and returns whether one is new.
fn need_nexts(sketch: &Sketch, needed: &mut [bool]) -> bool {
    let mut is_new = false;
    for latch in &sketch.latches {
        if is_among(needed, latch.place) {
            is_new |= need(needed, latch.next);
        }
    }
    is_new
}
