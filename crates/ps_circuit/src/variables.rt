//! The variables that a text defines.

ghost use Rattle.std.specs.Prelude.{◌≡◌, ◌==◌, ◌≤◌, ◌++◌, ◌∷◌, ℕ, List, [], Contains, IfOk, OnErr, OnOk, length};
ghost use Rattle.std.specs.List.{list_any};
ghost use Rattle.ps_circuit.specs.Inner.NearAndFar.{AreKept};

use ps_ids::Ids;
use std::alloc::{AllocError, Global};
use std::marker::Model;

/// Distinct variables in text order, with a bit for each that is below a limit: a bit is found faster than an index.
#[derive(Drop)]
pub struct Variables {
    list: Vec<u64>,
    /// For each variable below the limit, whether it is in the list.
    near: Vec<bool>,
    /// The other variables of the list.
    far: Ids,
}

impl Model for Variables {
    ghost Value = { List ℕ };

    ghost view = { λ v. v.list.items };

    ghost invariant = { λ v. AreKept v.list.items v.near.items v.far };
}

impl Variables {
    /// No variables. Fails if out of memory.
    pub fn new(alloc: Global, limit: usize) -> Result<Self, AllocError>
        ensures { IfOk result (λ variables. variables ≡ []) }
    {
        let near = vec![in alloc; false; limit]?;
        Ok(Variables {
            list: Vec::new(alloc),
            near,
            far: Ids::new(alloc),
        })
    }

    /// Whether the list has a variable.
    #[inline(always)]
    pub fn has(&self, variable: u64) -> bool
        ensures { result ≡ list_any (λ other. variable == other) self.now }
    {
        if variable < self.near.len() as u64 {
            return self.near[variable as usize];
        }
        self.far.has(variable)
    }

    /// Adds a new variable at the end. Fails if out of memory; then nothing changes.
    pub fn push(&mut self, variable: u64) -> Result<(), AllocError>
        requires { Contains self.old variable → ⊥ }
        ensures ok { OnOk result (self.new ≡ self.old ++ variable ∷ []) }
        ensures err { OnErr result (self.new ≡ self.old) }
    {
        self.list.reserve(1)?;
        record(&mut self.near, &mut self.far, variable)?;
        self.list.push_reserved(variable);
        Ok(())
    }
}

/// Sets a variable's bit, or else adds it to the others.
fn record(near: &mut Vec<bool>, far: &mut Ids, variable: u64) -> Result<(), AllocError>
    requires { length near.old.items ≤ variable → Contains far.old variable → ⊥ }
    ensures ok { OnOk result ((list : List ℕ) → AreKept list near.old.items far.old →
        AreKept (list ++ variable ∷ []) near.new.items far.new) }
    ensures err { OnErr result ((list : List ℕ) → AreKept list near.old.items far.old →
        AreKept list near.new.items far.new) }
{
    if variable < near.len() as u64 {
        near[variable as usize] = true;
        return Ok(());
    }
    far.push(variable)?;
    Ok(())
}
