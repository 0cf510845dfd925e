//! Copies of tables.

ghost use Rattle.std.specs.Prelude.{◌≡◌, IfOk};

use ps_formula::Formulas;
use std::alloc::{AllocError, Global};

/// A table with the same formulas, at the same indices.
pub(crate) fn copied(alloc: Global, formulas: &Formulas) -> Result<Formulas, AllocError>
    ensures { IfOk result (λ table. table ≡ formulas.now) }
{
    let mut table = Formulas::new(alloc);
    for node in formulas.as_slice() {
        table.add(*node)?;
    }
    Ok(table)
}
