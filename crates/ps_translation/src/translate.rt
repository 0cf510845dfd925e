//! The translation of a specification.

use crate::descent::descended;
use crate::machine::Machine;
use crate::parity::{Parity, with_parity};
use crate::product::{Product, product_of};
use crate::quotient::quotient;
use crate::shapes::Shapes;
use crate::text::text;
use ps_parts::diagrams::{Diagram, Diagrams};
use ps_parts::part::{Kind, Part};
use ps_parts::progression::Progression;
use ps_parts::split::{Extent, Split, Way};
use ps_parts::stop::Stop;
use ps_tlsf::Specification;
use std::alloc::{AllocError, Global};

/// The steps of each way in which the formula is parted.
const STEPS: u32 = 12_000_000;

/// The text of a deterministic parity automaton in the HOA format that accepts the lassos which satisfy the formula of
/// a specification; or None, if none is found within a budget of steps. Its propositions are those of the
/// specification, in their order. That the automaton is right is promised by no clause: whoever needs it has to judge
/// the automaton, or what was made of it. Fails if out of memory.
pub fn translated(
    alloc: Global,
    specification: &Specification,
) -> Result<Option<Vec<u8>>, AllocError> {
    titled(alloc, specification, None)
}

/// Like `translated`, with a budget of so many steps for each way in which the formula is parted.
pub fn translated_within(
    alloc: Global,
    specification: &Specification,
    steps: u32,
) -> Result<Option<Vec<u8>>, AllocError> {
    found(automaton(alloc, specification, None, steps))
}

/// Like `translated`, with a title, a string with its quotes, as the name of the automaton.
pub fn titled(
    alloc: Global,
    specification: &Specification,
    title: Option<&[u8]>,
) -> Result<Option<Vec<u8>>, AllocError> {
    found(automaton(alloc, specification, title, STEPS))
}

/// What was found; None if a limit was passed.
fn found(text: Result<Vec<u8>, Stop>) -> Result<Option<Vec<u8>>, AllocError> {
    match text {
        Ok(text) => Ok(Some(text)),
        Err(Stop::Limit) => Ok(None),
        Err(Stop::Memory) => Err(AllocError),
    }
}

/// Like `titled`. The ways to part the formula are tried in turn, those that lead to few parts first. They differ only if
/// a formula is brought nearer to the normal form.
fn automaton(
    alloc: Global,
    specification: &Specification,
    title: Option<&[u8]>,
    steps: u32,
) -> Result<Vec<u8>, Stop> {
    for (extent, is_negated) in [
        (Extent::Few, false),
        (Extent::Few, true),
        (Extent::Some, false),
        (Extent::Some, true),
        (Extent::Many, false),
        (Extent::Many, true),
        (Extent::Merged, false),
        (Extent::Merged, true),
    ] {
        let way = Way { is_negated, extent };
        if let Some(text) = by_way(alloc, specification, title, way, steps)? {
            return Ok(text);
        }
    }
    Err(Stop::Limit)
}

/// The text of the automaton, made in one way; None if another way may be shorter.
fn by_way(
    alloc: Global,
    specification: &Specification,
    title: Option<&[u8]>,
    way: Way,
    steps: u32,
) -> Result<Option<Vec<u8>>, Stop> {
    let mut world = Progression::with_steps(alloc, steps)?;
    let result = written(alloc, &mut world, specification, title, way);
    let is_normalised = world.is_normalised;
    drop(world);
    match result {
        Ok(text) => Ok(Some(text)),
        Err(Stop::Limit) if is_normalised => Ok(None),
        Err(stop) => Err(stop),
    }
}

/// The text of the automaton of a specification.
fn written(
    alloc: Global,
    world: &mut Progression,
    specification: &Specification,
    title: Option<&[u8]>,
    way: Way,
) -> Result<Vec<u8>, Stop> {
    let mut made = translation(alloc, world, specification, way)?;
    let written = text(alloc, world, &mut made, &specification.propositions, title);
    drop(made);
    written
}

/// The automaton of a specification.
fn translation(
    alloc: Global,
    world: &mut Progression,
    specification: &Specification,
    way: Way,
) -> Result<Made, Stop> {
    let nodes = specification.table.as_slice();
    let form = world.forms.of_table(nodes, specification.root)?;
    let mut split = Split::new(alloc, way, Shapes::new(alloc));
    let condition = split.function(world, form)?;
    of_parts(alloc, world, split.into_parts(), condition)
}

/// An automaton, with the product that it was made from.
#[derive(Drop)]
pub(crate) struct Made {
    pub(crate) parity: Parity,
    pub(crate) product: Product,
}

/// The automaton of parts, for a condition.
pub(crate) fn of_parts(
    alloc: Global,
    world: &mut Progression,
    parts: Vec<Part>,
    condition: Diagram,
) -> Result<Made, Stop> {
    let safeties = safeties(&parts);
    let product = product_of(alloc, world, parts, condition)?;
    let parity = parity_of_product(alloc, &mut world.diagrams, &product, safeties)?;
    Ok(Made { parity, product })
}

/// The automaton with a parity condition of a product.
fn parity_of_product(
    alloc: Global,
    diagrams: &mut Diagrams,
    product: &Product,
    safeties: u64,
) -> Result<Parity, Stop> {
    let machine = descended(alloc, diagrams, product)?;
    let parity = parity_of(alloc, diagrams, &machine, safeties);
    drop(machine);
    parity
}

/// The automaton with a parity condition of an automaton with a condition on marks; both are as small as they get.
fn parity_of(
    alloc: Global,
    diagrams: &mut Diagrams,
    machine: &Machine,
    safeties: u64,
) -> Result<Parity, Stop> {
    let machine = quotient(alloc, diagrams, machine)?;
    let parity = small_parity(alloc, diagrams, &machine, safeties);
    drop(machine);
    parity
}

/// The automaton with a parity condition, as small as it gets.
fn small_parity(
    alloc: Global,
    diagrams: &mut Diagrams,
    machine: &Machine,
    safeties: u64,
) -> Result<Parity, Stop> {
    let parity = with_parity(alloc, diagrams, machine, safeties)?;
    let most = parity.most;
    let small = quotient(alloc, diagrams, &parity.machine);
    drop(parity);
    Ok(Parity {
        machine: small?,
        most,
    })
}

/// The parts that are safeties, one bit for each.
fn safeties(parts: &[Part]) -> u64 {
    let mut safeties = 0;
    for (number, part) in parts.iter().enumerate() {
        if number < 64 && part.kind == Kind::Safety {
            safeties |= 1u64 << number;
        }
    }
    safeties
}
