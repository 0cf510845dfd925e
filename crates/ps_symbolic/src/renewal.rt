//! A new store for functions, with what they need.
//!
//! The functions are chosen again and again, and most diagrams that were made on the way are needed no more. So after
//! some nodes what is needed is copied into a new store, which has the steps that are left.

use crate::arena::Bit;
use crate::functions::Functions;
use crate::game::Turn;
use ps_parts::diagrams::Diagrams;
use ps_parts::diagrams::substitution::Transfer;
use ps_parts::stop::Stop;
use std::alloc::Global;
use std::mem;

/// The nodes of a store that is to be left.
const NODES: usize = 3_000_000;

impl Functions {
    /// Goes to a new store if the old one is large.
    pub(crate) fn renew(&mut self, alloc: Global) -> Result<(), Stop> {
        if self.diagrams.len() < NODES {
            return Ok(());
        }
        let fresh = Diagrams::with_steps(alloc, self.diagrams.steps())?;
        let old = mem::replace(&mut self.diagrams, fresh);
        let renewed = self.renew_from(alloc, &old);
        drop(old);
        renewed
    }

    /// Copies what is needed from an old store.
    fn renew_from(&mut self, alloc: Global, old: &Diagrams) -> Result<(), Stop> {
        let mut transfer = Transfer::new(alloc);
        let copied = self.renew_all(old, &mut transfer);
        drop(transfer);
        copied
    }

    /// Copies all that is needed.
    fn renew_all(&mut self, old: &Diagrams, transfer: &mut Transfer) -> Result<(), Stop> {
        let made = &mut self.diagrams;
        self.moves = transfer.copied(old, made, self.moves)?;
        self.won = transfer.copied(old, made, self.won)?;
        self.states = transfer.copied(old, made, self.states)?;
        self.start = transfer.copied(old, made, self.start)?;
        self.care = transfer.copied(old, made, self.care)?;
        self.turn = Turn {
            own: transfer.copied(old, made, self.turn.own)?,
            other: transfer.copied(old, made, self.turn.other)?,
            ..self.turn
        };
        self.renew_bits(old, transfer)?;
        self.renew_unknowns(old, transfer)
    }

    /// Copies the functions of the bits of the state.
    fn renew_bits(&mut self, old: &Diagrams, transfer: &mut Transfer) -> Result<(), Stop> {
        for bit in self.bits.iter_mut() {
            let next = transfer.copied(old, &mut self.diagrams, bit.next)?;
            *bit = Bit { next, ..*bit };
        }
        Ok(())
    }

    /// Copies the functions of the unknowns, and what is projected for them.
    fn renew_unknowns(&mut self, old: &Diagrams, transfer: &mut Transfer) -> Result<(), Stop> {
        for unknown in self.unknowns.iter_mut() {
            unknown.projected = transfer.copied(old, &mut self.diagrams, unknown.projected)?;
            unknown.function = transfer.copied(old, &mut self.diagrams, unknown.function)?;
        }
        Ok(())
    }
}
