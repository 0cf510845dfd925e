//! The propositions that have the names of inputs and outputs.

ghost use Rattle.std.specs.Prelude.{◌≡◌, ◌≢◌, ◌^◌, ◌<◌, ◌≤◌, ◌||◌, ℕ, true, false, None, Some, IfOk, IfSome, IfNone};
ghost use Rattle.std.specs.Prelude.{length, map, slice_index_or};
ghost use Rattle.std.specs.Option.{option_copied};
ghost use Rattle.ps_label.specs.Truth.{is_in};
ghost use Rattle.ps_hoa.specs.Files.{is_among};
ghost use Rattle.ps_hoa.specs.Memory.{bytes_of};
ghost use Rattle.ps_simulate.specs.Symbols.{AreDistinct, AreNamesOnce, HasSymbols};
ghost use Rattle.ps_simulate.specs.Inner.Namings.{ArePlacesIfNamed, ArePut, IsNaming, bit_at_place, names_of};

use crate::role::Role;
use crate::symbols::{input_symbols, is_in_list, output_symbols, proposition_of};
use ps_circuit::Circuit;
use std::alloc::{AllocError, Global};

/// For each proposition, the index of the input or output of its name.
#[derive(Drop)]
pub(crate) struct Naming<'a> {
    pub names: &'a [Vec<u8>],
    pub inputs: Vec<Option<usize>>,
    pub outputs: Vec<Option<usize>>,
}

impl<'a> Naming<'a> {
    /// The naming of a circuit, or `None` if its symbols are not those that its role requires.
    pub fn new(
        alloc: Global,
        circuit: &Circuit,
        names: &'a [Vec<u8>],
        controllable: &[u32],
        role: Role,
    ) -> Result<Option<Self>, AllocError>
        requires few { length names.now ≤ 64 }
        requires distinct { AreDistinct (map bytes_of names.now) }
        ensures some { IfOk result (λ naming. IfSome naming (IsNaming circuit.now)) }
        ensures names { IfOk result (λ naming. IfSome naming (λ n. names_of n ≡ map bytes_of names.now)) }
        ensures fits { IfOk result (λ naming. IfSome naming (λ _.
            HasSymbols role (map bytes_of names.now) controllable.now circuit.now)) }
        ensures none { IfOk result (λ naming. IfNone naming (¬ HasSymbols role (map bytes_of names.now)
            controllable.now circuit.now)) }
    {
        let reads = role.reads_controllable();
        let symbols = input_symbols(alloc, circuit)?;
        let Some(inputs) = places_of(alloc, names, controllable, reads, &symbols)? else {
            return Ok(None);
        };
        let sets = role.sets_controllable();
        let symbols = output_symbols(alloc, circuit)?;
        let Some(outputs) = places_of(alloc, names, controllable, sets, &symbols)? else {
            return Ok(None);
        };
        Ok(Some(Naming {
            names,
            inputs,
            outputs,
        }))
    }

    /// The letter of a step, by its inputs and outputs.
    pub fn letter(&self, inputs: &[bool], outputs: &[bool]) -> u64
        requires few { length self.now.names.now ≤ 64 }
        requires inputs_within { (p k : ℕ) → slice_index_or self.now.inputs.items p None ≡ Some k →
            k < length inputs.now }
        requires outputs_within { (p k : ℕ) → slice_index_or self.now.outputs.items p None ≡ Some k →
            k < length outputs.now }
        requires inputs_size { length self.now.inputs.items ≡ length self.now.names.now }
        requires outputs_size { length self.now.outputs.items ≡ length self.now.names.now }
        ensures few { result < 2 ^ length self.now.names.now }
        ensures bits { (p : ℕ) → is_in p result ≡ (bit_at_place inputs.now (slice_index_or self.now.inputs.items p None)
            || bit_at_place outputs.now (slice_index_or self.now.outputs.items p None)) }
    {
        part_of(&self.inputs, inputs) | part_of(&self.outputs, outputs)
    }
}

/// For each proposition, the index of its symbol; `None` unless the symbols name, once each, exactly the controllable
/// propositions, or the others, as `wanted` says.
fn places_of(
    alloc: Global,
    names: &[Vec<u8>],
    controllable: &[u32],
    wanted: bool,
    symbols: &[Option<&[u8]>],
) -> Result<Option<Vec<Option<usize>>>, AllocError>
    requires { AreDistinct (map bytes_of names.now) }
    ensures { IfOk result (ArePlacesIfNamed (map bytes_of names.now) controllable.now wanted
        (map option_copied symbols.now)) }
{
    match put_places(alloc, names, controllable, wanted, symbols)? {
        Some(places) if is_full(controllable, wanted, &places) => Ok(Some(places)),
        _ => Ok(None),
    }
}

/// The same, but propositions may be without symbols.
fn put_places(
    alloc: Global,
    names: &[Vec<u8>],
    controllable: &[u32],
    wanted: bool,
    symbols: &[Option<&[u8]>],
) -> Result<Option<Vec<Option<usize>>>, AllocError>
    ensures put { IfOk result (λ places. IfSome places (λ table.
        ArePut (map bytes_of names.now) controllable.now wanted (map option_copied symbols.now) (length symbols.now)
        table.items)) }
    ensures none { IfOk result (λ places. IfNone places (¬ AreNamesOnce (map bytes_of names.now) controllable.now wanted
        (map option_copied symbols.now))) }
{
    let mut places = vec![in alloc; None; names.len()]?;
    for (k, symbol) in symbols.iter().enumerate() {
        let Some(name) = symbol else {
            return Ok(None);
        };
        match proposition_of(names, controllable, wanted, name) {
            Some(p) if places[p].is_none() => places[p] = Some(k),
            _ => return Ok(None),
        }
    }
    Ok(Some(places))
}

fn is_full(controllable: &[u32], wanted: bool, places: &[Option<usize>]) -> bool
    ensures full { result ≡ true → (p : ℕ) → p < length places.now → is_among p controllable.now ≡ wanted →
        slice_index_or places.now p None ≢ None }
    ensures missing { result ≡ false → (p : ℕ) × (p < length places.now) × (is_among p controllable.now ≡ wanted) ×
        (slice_index_or places.now p None ≡ None) }
{
    for (p, place) in places.iter().enumerate() {
        if place.is_none() && is_in_list(controllable, p) == wanted {
            return false;
        }
    }
    true
}

/// The letter of the bits at the propositions' indices, and 0 without one.
fn part_of(places: &[Option<usize>], bits: &[bool]) -> u64
    requires few { length places.now ≤ 64 }
    requires within { (p k : ℕ) → slice_index_or places.now p None ≡ Some k → k < length bits.now }
    ensures few { result < 2 ^ length places.now }
    ensures bits { (p : ℕ) → is_in p result ≡ bit_at_place bits.now (slice_index_or places.now p None) }
{
    let mut letter = 0;
    for (p, place) in places.iter().enumerate() {
        letter = with_bit(letter, p, bit_at(bits, *place));
    }
    letter
}

fn bit_at(bits: &[bool], place: Option<usize>) -> bool
    requires { IfSome place (λ k. k < length bits.now) }
    ensures { result ≡ bit_at_place bits.now place }
{
    match place {
        Some(k) => bits[k],
        None => false,
    }
}

fn with_bit(letter: u64, p: usize, bit: bool) -> u64
    requires { p < 64 }
    ensures at { is_in p letter ≡ false → is_in p result ≡ bit }
    ensures others { (q : ℕ) → q ≢ p → is_in q result ≡ is_in q letter }
    ensures few { (count : ℕ) → p < count → letter < 2 ^ count → result < 2 ^ count }
{
    if bit { letter | 1 << p } else { letter }
}
