//! A formula as a conjunction.

ghost use Rattle.std.specs.Prelude.{◌≡◌, ◌++◌, ◌+◌, ◌*◌, ◌<◌, ◌≤◌, ◌∷◌, [], IfOk, OnOk, length};
ghost use Rattle.ps_formula.specs.Formulas.{formula_at};
ghost use Rattle.ps_sentences.specs.Inner.Conjuncts.{AreConjunctsOf, TakesApart};

use crate::splitting::{Split, split_of};
use ps_formula::Formulas;
use std::alloc::{AllocError, Global};

/// Formulas whose conjunction a formula is.
pub(crate) fn conjuncts(
    alloc: Global,
    table: &mut Formulas,
    root: u32,
    steps: &mut usize,
) -> Result<Vec<u32>, AllocError>
    requires { root < length table.old }
    ensures conjuncts { IfOk result (λ parts.
        AreConjunctsOf (formula_at table.old root) table.old table.new parts.items) }
    ensures steps { OnOk result (steps.new ≤ steps.old) }
{
    let mut parts = Vec::new(alloc);
    add_conjuncts(alloc, table, &mut parts, root, steps)?;
    Ok(parts)
}

fn add_conjuncts(
    alloc: Global,
    table: &mut Formulas,
    parts: &mut Vec<u32>,
    root: u32,
    steps: &mut usize,
) -> Result<(), AllocError>
    requires root { root < length table.old }
    requires none { parts.old.items ≡ [] }
    ensures conjuncts { OnOk result (AreConjunctsOf (formula_at table.old root) table.old table.new parts.new.items) }
    ensures steps { OnOk result (steps.new ≤ steps.old) }
{
    let mut pending = Vec::new(alloc);
    pending.push(root)?;
    while let Some(index) = pending.pop() {
        take_apart(alloc, table, parts, &mut pending, index, steps)?;
    }
    Ok(())
}

/// Adds a formula to the parts if it stays whole, or else the two formulas whose conjunction it is to those that are
/// still to be taken apart.
fn take_apart(
    alloc: Global,
    table: &mut Formulas,
    parts: &mut Vec<u32>,
    pending: &mut Vec<u32>,
    index: u32,
    steps: &mut usize,
) -> Result<(), AllocError>
    requires { index < length table.old }
    ensures apart { OnOk result (TakesApart table.old parts.old.items (pending.old.items ++ index ∷ []) table.new
        parts.new.items pending.new.items) }
    ensures steps { OnOk result (2 * steps.new + length pending.new.items ≤ 2 * steps.old + length pending.old.items) }
    ensures fewer { OnOk result (steps.new ≤ steps.old) }
{
    match split_of(alloc, table, index, steps)? {
        Split::True => {}
        Split::Whole => parts.push(index)?,
        Split::Both(f, g) => {
            pending.push(g)?;
            pending.push(f)?;
        }
    }
    Ok(())
}
