//! The propositions of inputs and outputs.

ghost use Rattle.std.specs.Prelude.{◌≡◌, ◌<◌, ◌≤◌, ℕ, false, true, IfNone, IfOk, IfSome, length, map};
ghost use Rattle.std.specs.Option.{option_copied};
ghost use Rattle.ps_hoa.specs.Files.{is_among};
ghost use Rattle.ps_hoa.specs.Memory.{bytes_of};
ghost use Rattle.ps_simulate.specs.Symbols.{AreDistinct, AreNamesOnce, HasSymbols};
ghost use Rattle.ps_product.specs.Roles.{AreRoles};
ghost use Rattle.ps_product.specs.Inner.Roles.{IsFull, IsListing};

use ps_automaton::Automaton;
use ps_circuit::Circuit;
use ps_simulate::{Role, input_symbols, is_in_list, output_symbols, proposition_of};
use std::alloc::{AllocError, Global};

/// The propositions for which a circuit's inputs and outputs stand.
#[derive(Drop)]
pub struct Roles {
    pub inputs: Vec<u32>,
    pub outputs: Vec<u32>,
}

/// As `roles_for`, by the names of an automaton.
pub(crate) fn roles_of(
    alloc: Global,
    circuit: &Circuit,
    automaton: &Automaton,
    role: Role,
) -> Result<Option<Roles>, AllocError>
    ensures some { IfOk result (λ roles. IfSome roles (AreRoles automaton.now.names circuit.now)) }
    ensures fits { IfOk result (λ roles. IfSome roles (λ _.
        HasSymbols role automaton.now.names automaton.now.controllable circuit.now)) }
    ensures none { IfOk result (λ roles. IfNone roles (¬ HasSymbols role automaton.now.names automaton.now.controllable
        circuit.now)) }
{
    let names = automaton.names();
    roles_for(alloc, circuit, names, automaton.controllable(), role)
}

/// The roles of a circuit by the names of all propositions and the controllable ones; `None` if its symbols are not
/// those of a controller or an environment, as `role` says. Fails if memory runs out.
pub fn roles_for(
    alloc: Global,
    circuit: &Circuit,
    names: &[Vec<u8>],
    controllable: &[u32],
    role: Role,
) -> Result<Option<Roles>, AllocError>
    requires few { length names.now ≤ 64 }
    requires distinct { AreDistinct (map bytes_of names.now) }
    ensures some { IfOk result (λ roles. IfSome roles (AreRoles (map bytes_of names.now) circuit.now)) }
    ensures fits { IfOk result (λ roles. IfSome roles (λ _.
        HasSymbols role (map bytes_of names.now) controllable.now circuit.now)) }
    ensures none { IfOk result (λ roles. IfNone roles (¬ HasSymbols role (map bytes_of names.now) controllable.now
        circuit.now)) }
{
    let reads = role.reads_controllable();
    let symbols = input_symbols(alloc, circuit)?;
    let Some(inputs) = propositions_of(alloc, names, controllable, reads, &symbols)? else {
        return Ok(None);
    };
    let symbols = output_symbols(alloc, circuit)?;
    let Some(outputs) = propositions_of(alloc, names, controllable, !reads, &symbols)? else {
        return Ok(None);
    };
    Ok(Some(Roles { inputs, outputs }))
}

/// The proposition of each symbol; `None` unless the symbols name exactly the controllable propositions (or, without
/// `wanted`, the others), each once.
fn propositions_of(
    alloc: Global,
    names: &[Vec<u8>],
    controllable: &[u32],
    wanted: bool,
    symbols: &[Option<&[u8]>],
) -> Result<Option<Vec<u32>>, AllocError>
    requires few { length names.now ≤ 64 }
    requires distinct { AreDistinct (map bytes_of names.now) }
    ensures listing { IfOk result (λ list. IfSome list (λ l.
        IsListing (map bytes_of names.now) controllable.now wanted (map option_copied symbols.now) (length symbols.now)
        l.items)) }
    ensures full { IfOk result (λ list. IfSome list (λ l. IsFull (map bytes_of names.now) controllable.now
        wanted l.items)) }
    ensures none { IfOk result (λ list. IfNone list (¬ AreNamesOnce (map bytes_of names.now) controllable.now wanted
        (map option_copied symbols.now))) }
{
    let mut list = Vec::new(alloc);
    for symbol in symbols {
        let Some(name) = symbol else {
            return Ok(None);
        };
        match proposition_of(names, controllable, wanted, name) {
            Some(p) if !is_in_list(&list, p) => list.push(p as u32)?,
            _ => return Ok(None),
        }
    }
    if !is_full(names.len(), controllable, wanted, &list) {
        return Ok(None);
    }
    Ok(Some(list))
}

/// Whether the list has all of these.
fn is_full(count: usize, controllable: &[u32], wanted: bool, list: &[u32]) -> bool
    ensures full { result ≡ true → (p : ℕ) → p < count → is_among p controllable.now ≡ wanted →
        is_among p list.now ≡ true }
    ensures missing { result ≡ false → (p : ℕ) × (p < count) × (is_among p controllable.now ≡ wanted) ×
        (is_among p list.now ≡ false) }
{
    for p in 0..count {
        if is_in_list(controllable, p) == wanted && !is_in_list(list, p) {
            return false;
        }
    }
    true
}
