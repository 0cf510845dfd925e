//! Copies of the parts of a file that a mixing leaves as they are.

ghost use Rattle.std.specs.Prelude.{◌≡◌, IfOk, map};
ghost use Rattle.ps_hoa.specs.Marks.{mark_list};
ghost use Rattle.ps_hoa.specs.Values.{condition_of};

use ps_hoa::{Cond, Marks};
use std::alloc::{AllocError, Global};

pub(crate) fn marks_copied(alloc: Global, marks: &Marks) -> Result<Marks, AllocError>
    ensures { IfOk result (λ made. mark_list made ≡ mark_list marks.now) }
{
    match marks {
        Marks::None => Ok(Marks::None),
        Marks::One(set) => Ok(Marks::One(*set)),
        Marks::List(sets) => listed(alloc, sets),
    }
}

fn listed(alloc: Global, sets: &[u32]) -> Result<Marks, AllocError>
    ensures { IfOk result (λ made. mark_list made ≡ sets.now) }
{
    let sets = Vec::from_slice(alloc, sets)?;
    Ok(Marks::List(Box::new(alloc, sets)?))
}

#[cycle(condition_copied)]
pub(crate) fn condition_copied(alloc: Global, condition: &Cond) -> Result<Cond, AllocError>
    ensures { IfOk result (λ made. condition_of made ≡ condition_of condition.now) }
{
    match condition {
        Cond::Always => Ok(Cond::Always),
        Cond::Never => Ok(Cond::Never),
        Cond::Inf(set, complemented) => Ok(Cond::Inf(*set, *complemented)),
        Cond::Fin(set, complemented) => Ok(Cond::Fin(*set, *complemented)),
        Cond::All(operands) => Ok(Cond::All(each_copied(alloc, operands)?)),
        Cond::Any(operands) => Ok(Cond::Any(each_copied(alloc, operands)?)),
    }
}

#[cycle(condition_copied)]
fn each_copied(alloc: Global, conditions: &[Cond]) -> Result<Vec<Cond>, AllocError>
    ensures { IfOk result (λ made. map condition_of made.items ≡ map condition_of conditions.now) }
{
    let mut made = Vec::with_capacity(alloc, conditions.len())?;
    for condition in conditions {
        made.push(condition_copied(alloc, condition)?)?;
    }
    Ok(made)
}
