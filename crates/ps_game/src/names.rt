//! The names of a game's vertices, in one buffer.

ghost use Rattle.std.specs.Prelude.{◌≡◌, ◌++◌, ◌∷◌, [], IfOk, OnErr, OnOk, length, slice_get};
ghost use Rattle.std.specs.Option.{option_copied};

use std::alloc::{AllocError, Global};
use std::marker::Model;

/// A list of names, each a list of bytes, in one buffer, so that no name takes memory of its own.
#[derive(Drop)]
pub struct Names {
    bytes: Vec<u8>,
    /// 0, and then where each name ends in `bytes`.
    offsets: Vec<usize>,
}

impl Model for Names {
    ghost use Rattle.std.specs.Prelude.{ℕ, List};
    ghost use Rattle.ps_game.specs.Names.{AreBounds, parts_of};

    ghost Value = { List (List ℕ) };

    ghost view = { λ n. parts_of n.offsets.items n.bytes.items };

    ghost invariant = { λ n. AreBounds n.offsets.items n.bytes.items };
}

impl Names {
    /// An empty list with room for `count` names. Fails if out of memory.
    pub fn with_capacity(alloc: Global, count: usize) -> Result<Self, AllocError>
        ensures { IfOk result (λ names. names ≡ []) }
    {
        let mut offsets = Vec::with_capacity(alloc, count.saturating_add(1))?;
        offsets.push(0)?;
        Ok(Names {
            bytes: Vec::new(alloc),
            offsets,
        })
    }

    /// Appends a name. Fails if out of memory; then nothing changes.
    pub fn push(&mut self, name: &[u8]) -> Result<(), AllocError>
        ensures ok { OnOk result (self.new ≡ self.old ++ name.now ∷ []) }
        ensures err { OnErr result (self.new ≡ self.old) }
    {
        self.offsets.reserve(1)?;
        self.bytes.extend_from_slice(name)?;
        self.offsets.push_reserved(self.bytes.len());
        Ok(())
    }

    /// The name with the given index, if there is one.
    pub fn get(&self, place: usize) -> Option<&[u8]>
        ensures { option_copied result ≡ slice_get self.now place }
    {
        if place >= self.offsets.len() - 1 {
            return None;
        }
        Some(&self.bytes[self.offsets[place]..self.offsets[place + 1]])
    }
}
