//! Changed circuits.

ghost use Rattle.std.specs.Prelude.{◌≡◌, ◌+◌, ◌^◌, ◌<◌, ◌≤◌, All, IfOk, OnOk, length};
ghost use Rattle.ps_circuit.specs.Building.{Extends, IsHeld};
ghost use Rattle.ps_shrink.specs.Inner.Assembled.{HasNamesOf};

use crate::assembling::{Cell, assembled};
use crate::change::{Change, Site};
use crate::images::Images;
use crate::sketch::{Memory, Signal, Sketch, rows_of};
use ps_circuit::{Circuit, EncodeFault, Literal};
use std::alloc::{AllocError, Global};

/// The circuit of a sketch, with the names of `named`.
pub(crate) fn circuit_of(
    alloc: Global,
    named: &Circuit,
    sketch: &Sketch,
) -> Result<Circuit, EncodeFault>
    ensures { IfOk result (HasNamesOf named.now) }
{
    let mut images = begun(alloc, named.inputs().len(), &sketch.latches, sketch.end)?;
    build(&mut images, sketch, 0, usize::MAX)?;
    Ok(made(alloc, named, sketch, &images)?)
}

/// The same, from its gates in `images`.
fn made(
    alloc: Global,
    named: &Circuit,
    sketch: &Sketch,
    images: &Images,
) -> Result<Circuit, AllocError>
    requires { images.now.given ≡ length named.now.inputs + length sketch.now.latches.items }
    ensures { IfOk result (HasNamesOf named.now) }
{
    let cells = cells(alloc, images, &sketch.latches)?;
    let outputs = outputs(alloc, images, sketch, named.outputs().len())?;
    assembled(alloc, named, images.builder(), &cells, outputs)
}

/// The sketch after a change.
pub(crate) fn redrawn(
    alloc: Global,
    sketch: &Sketch,
    change: Change,
) -> Result<Sketch, EncodeFault> {
    let latches = latches_but(alloc, sketch, change.site)?;
    let mut images = begun(alloc, sketch.inputs, &latches, sketch.end)?;
    let by = replace(&mut images, sketch, change)?;
    let mut drawn = drawn(alloc, sketch, &latches, &images)?;
    put_at(&mut drawn, change.site, Signal::of_literal(by));
    Ok(drawn)
}

/// Makes the gates after a change, and returns what the site takes.
fn replace(images: &mut Images, sketch: &Sketch, change: Change) -> Result<Literal, EncodeFault> {
    let Site::Variable(place) = change.site else {
        build(images, sketch, 0, usize::MAX)?;
        return conjunction(images, change);
    };
    build(images, sketch, 0, place)?;
    if change.first.place > place || change.second.place > place {
        build_behind(images, sketch, place)?;
    }
    let by = conjunction(images, change)?;
    images.put(place, by);
    build_behind(images, sketch, place)?;
    Ok(by)
}

/// Makes the gates after a place.
fn build_behind(images: &mut Images, sketch: &Sketch, place: usize) -> Result<(), EncodeFault>
    ensures { OnOk result (Extends images.old images.new) }
{
    build(images, sketch, place.saturating_add(1), usize::MAX)
}

/// A change's conjunction, or its negation.
fn conjunction(images: &mut Images, change: Change) -> Result<Literal, EncodeFault>
    ensures extends { Extends images.old images.new }
    ensures held { IfOk result (IsHeld images.new) }
{
    let both = images.and(change.first, change.second)?;
    Ok(if change.is_negated {
        both.negated()
    } else {
        both
    })
}

/// The sketch of the gates in `images`.
pub(crate) fn drawn(
    alloc: Global,
    sketch: &Sketch,
    latches: &[Memory],
    images: &Images,
) -> Result<Sketch, AllocError> {
    Ok(Sketch {
        inputs: sketch.inputs,
        latches: memories(alloc, images, latches)?,
        gates: rows_of(alloc, images.builder())?,
        outputs: signals(alloc, images, &sketch.outputs)?,
        end: images.builder().variables() as usize + 1,
    })
}

/// Puts a signal at an output or a next value.
fn put_at(sketch: &mut Sketch, site: Site, by: Signal) {
    match site {
        Site::Output(number) if number < sketch.outputs.len() => {
            sketch.outputs[number] = by;
        }
        Site::Next(number) if number < sketch.latches.len() => {
            sketch.latches[number].next = by;
        }
        _ => {}
    }
}

/// The latches but the one that is replaced.
fn latches_but(alloc: Global, sketch: &Sketch, site: Site) -> Result<Vec<Memory>, AllocError> {
    let mut latches = Vec::new(alloc);
    for latch in &sketch.latches {
        match site {
            Site::Variable(place) if latch.place == place => {}
            _ => latches.push(*latch)?,
        }
    }
    Ok(latches)
}

/// Images over the inputs and the latches.
pub(crate) fn begun(
    alloc: Global,
    inputs: usize,
    latches: &[Memory],
    places: usize,
) -> Result<Images, EncodeFault>
    ensures { IfOk result (λ images. images.given ≡ inputs + length latches.now) }
{
    let given = inputs.saturating_add(latches.len());
    if given >= 1 << 31 {
        return Err(EncodeFault::CircuitTooLarge);
    }
    let mut images = Images::new(alloc, given as u32, places)?;
    for input in 0..inputs {
        images.put(1 + input, Literal::positive(1 + input as u32));
    }
    put_latches(&mut images, inputs as u32 + 1, latches);
    Ok(images)
}

/// Lets variables from `first` on stand for the latches.
fn put_latches(images: &mut Images, first: u32, latches: &[Memory])
    requires room { first + length latches.now ≤ images.old.given + 1 }
    requires small { images.old.given < 2 ^ 31 }
    ensures { images.new ≡ images.old }
{
    for (number, latch) in latches.iter().enumerate() {
        images.put(latch.place, Literal::positive(first + number as u32));
    }
}

/// Makes the gates at places from `start` on, before `end`.
fn build(images: &mut Images, sketch: &Sketch, start: usize, end: usize) -> Result<(), EncodeFault>
    ensures { OnOk result (Extends images.old images.new) }
{
    for gate in &sketch.gates {
        if start <= gate.place && gate.place < end {
            images.build(*gate)?;
        }
    }
    Ok(())
}

/// The latches, with their next literals.
fn cells(alloc: Global, images: &Images, latches: &[Memory]) -> Result<Vec<Cell>, AllocError>
    ensures each { IfOk result (λ cells. length cells.items ≡ length latches.now) }
    ensures held { IfOk result (λ cells. All (λ cell. IsHeld images.now cell.next) cells.items) }
{
    let mut cells = Vec::new(alloc);
    for latch in latches {
        cells.push(Cell {
            next: images.at(latch.next),
            reset: latch.reset,
        })?;
    }
    Ok(cells)
}

/// The literals of the first `count` outputs.
fn outputs(
    alloc: Global,
    images: &Images,
    sketch: &Sketch,
    count: usize,
) -> Result<Vec<Literal>, AllocError>
    ensures each { IfOk result (λ outputs. length outputs.items ≡ count) }
    ensures held { IfOk result (λ outputs. All (IsHeld images.now) outputs.items) }
{
    let mut outputs = Vec::new(alloc);
    for number in 0..count {
        let signal = match sketch.outputs.get(number) {
            Some(output) => *output,
            None => Signal::constant(false),
        };
        outputs.push(images.at(signal))?;
    }
    Ok(outputs)
}

/// The latches over the builder's variables.
fn memories(alloc: Global, images: &Images, latches: &[Memory]) -> Result<Vec<Memory>, AllocError> {
    let mut memories = Vec::new(alloc);
    for latch in latches {
        memories.push(Memory {
            place: images.at(Signal::positive(latch.place)).variable() as usize,
            next: Signal::of_literal(images.at(latch.next)),
            reset: latch.reset,
        })?;
    }
    Ok(memories)
}

/// The signals over the builder's variables.
fn signals(alloc: Global, images: &Images, signals: &[Signal]) -> Result<Vec<Signal>, AllocError> {
    signals
        .iter()
        .map(|signal| Signal::of_literal(images.at(*signal)))
        .collect(alloc)
}
