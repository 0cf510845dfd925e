//! Whether parts are those of a circuit.

ghost use Rattle.std.specs.Prelude.{◌≡◌, ◌↔◌, ◌^◌, ◌<◌, ◌&&◌, [], IsTrue, IfOk, IfSome, IfNone, map};
ghost use Rattle.std.specs.List.{list_all};
ghost use Rattle.ps_circuit.specs.Circuits.{definitions, IsDraft};
ghost use Rattle.ps_circuit.specs.Drafts.{data_of, name_bytes};
ghost use Rattle.ps_circuit.specs.Inner.Reading.{Defines};
ghost use Rattle.ps_circuit.specs.Inner.Soundness.{CanDefine, are_known, are_named, are_names_for, is_known};
ghost use Rattle.ps_circuit.specs.Inner.Soundness.{is_symbol_name};

use crate::lines::can_define;
use crate::literal::Literal;
use crate::parts::{Gate, Latch, Parts};
use ps_ids::Ids;
use std::alloc::{AllocError, Global};

/// Whether parts meet each condition of a circuit but that no gate depends on itself. Fails if out of memory.
pub fn is_draft(alloc: Global, parts: &Parts) -> Result<bool, AllocError>
    ensures { IfOk result (λ sound. IsTrue sound ↔ IsDraft (data_of parts.now)) }
{
    if parts.most >= 1 << 31 || !are_named(parts) {
        return Ok(false);
    }
    let definitions = definitions(alloc, parts)?;
    match variables_of(alloc, parts.most, &definitions)? {
        Some(variables) => Ok(are_known(&variables, parts)),
        None => Ok(false),
    }
}

/// The literals that define variables.
fn definitions(alloc: Global, parts: &Parts) -> Result<Vec<Literal>, AllocError>
    ensures { IfOk result (λ list. list.items ≡ definitions (data_of parts.now)) }
{
    let inputs = parts.inputs.iter().copied();
    let latches = parts.latches.iter().map(|latch| latch.literal);
    let gates = parts.gates.iter().map(|gate| gate.literal);
    inputs.chain(latches).chain(gates).collect(alloc)
}

/// The variables of literals, if each may define one, and no two the same.
fn variables_of(alloc: Global, most: u32, literals: &[Literal]) -> Result<Option<Ids>, AllocError>
    requires { most < 2 ^ 31 }
    ensures some { IfOk result (λ found. IfSome found (Defines most [] literals.now)) }
    ensures none { IfOk result (λ found. IfNone found (¬ CanDefine most literals.now)) }
{
    let mut variables = Ids::starting_at(alloc, 1);
    for literal in literals {
        let variable = u64::from(literal.variable());
        if !can_define(u64::from(literal.number()), most) || variables.has(variable) {
            return Ok(None);
        }
        variables.push(variable)?;
    }
    Ok(Some(variables))
}

/// Whether each literal that is used has variable 0 or one of these.
fn are_known(variables: &Ids, parts: &Parts) -> bool
    ensures { result ≡ are_known variables.now (data_of parts.now) }
{
    next_known(variables, &parts.latches)
        && each_known(variables, &parts.outputs)
        && sides_known(variables, &parts.gates)
}

fn next_known(variables: &Ids, latches: &[Latch]) -> bool
    ensures { result ≡ list_all (λ l. is_known variables.now l.next) latches.now }
{
    latches.iter().all(|latch| is_known(variables, latch.next))
}

fn each_known(variables: &Ids, literals: &[Literal]) -> bool
    ensures { result ≡ list_all (is_known variables.now) literals.now }
{
    literals.iter().all(|literal| is_known(variables, *literal))
}

fn sides_known(variables: &Ids, gates: &[Gate]) -> bool
    ensures { result ≡ list_all (λ g. is_known variables.now g.first && is_known variables.now g.second) gates.now }
{
    gates.iter().all(|gate| is_known(variables, gate.first) && is_known(variables, gate.second))
}

fn is_known(variables: &Ids, literal: Literal) -> bool
    ensures { result ≡ is_known variables.now literal }
{
    let variable = u64::from(literal.variable());
    variable == 0 || variables.has(variable)
}

/// Whether inputs, latches and outputs each have a valid name or none.
fn are_named(parts: &Parts) -> bool
    ensures { result ≡ are_named (data_of parts.now) }
{
    let inputs = are_names_for(parts.inputs.len(), &parts.input_names);
    let latches = are_names_for(parts.latches.len(), &parts.latch_names);
    let outputs = are_names_for(parts.outputs.len(), &parts.output_names);
    inputs && latches && outputs
}

fn are_names_for(count: usize, names: &[Option<Vec<u8>>]) -> bool
    ensures { result ≡ are_names_for count (map name_bytes names.now) }
{
    names.len() == count && are_symbol_names(names)
}

fn are_symbol_names(names: &[Option<Vec<u8>>]) -> bool
    ensures { result ≡ list_all (λ name. is_symbol_name (name_bytes name)) names.now }
{
    names.iter().all(|name| is_symbol_name(name))
}

fn is_symbol_name(name: &Option<Vec<u8>>) -> bool
    ensures { result ≡ is_symbol_name (name_bytes name.now) }
{
    match name {
        Some(bytes) => !bytes.is_empty() && !bytes.contains(&b'\n'),
        None => true,
    }
}
