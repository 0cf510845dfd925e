//! Evaluates a circuit at given latches.

ghost use Rattle.std.specs.Prelude.{◌≡◌, ◌<◌, length, slice_index_or, IfOk, IsSome, None, OnOk};
ghost use Rattle.ps_diagram.specs.Table.{Keeps};
ghost use Rattle.ps_product.specs.Inner.Knowing.{IsReady, IsReadyAt, IsSite, IsStep, IsTruthAt, Learns};
ghost use Rattle.ps_product.specs.Inner.Nets.{front_of};
ghost use Rattle.ps_simulate.specs.Plans.{variables};

use crate::known::Known;
use crate::net::Net;
use crate::truth::{Truth, Truths};
use std::alloc::AllocError;

/// A circuit with given latches, and a proposition for each input.
#[derive(Clone, Copy)]
pub(crate) struct Site<'s, 'c> {
    pub net: &'s Net<'c>,
    /// The proposition of each input.
    pub propositions: &'s [u32],
    pub latches: &'s [bool],
}

impl<'s, 'c> Site<'s, 'c> {
    /// Computes the truth of a variable, after the gates on which it depends.
    pub fn settle(
        self,
        known: &mut Known,
        stack: &mut Vec<u32>,
        truths: &mut Truths,
        place: u32,
    ) -> Result<(), AllocError>
        requires ready { IsReady self truths.old known.old }
        requires within { place < length (variables self.net.now) }
        ensures learns { Learns self.entry truths.old truths.new known.new }
        ensures here { OnOk result (IsSome (slice_index_or known.new place None)) }
    {
        if known.get(place).is_some() {
            return Ok(());
        }
        let order = self.net.circuit().order();
        stack.clear();
        let mut top = place;
        loop {
            self.net.ranks_fall(order);
            if let Some(lower) = self.step(known, truths, top)? {
                stack.push(top)?;
                top = lower;
            } else if let Some(waiting) = stack.pop() {
                top = waiting;
            } else {
                return Ok(());
            }
        }
    }

    /// Computes the truth of a variable, or returns the index of one that must come first.
    fn step(
        self,
        known: &mut Known,
        truths: &mut Truths,
        place: u32,
    ) -> Result<Option<u32>, AllocError>
        requires { IsReadyAt self truths.old known.old place }
        ensures learns { Learns self.entry truths.old truths.new known.new }
        ensures step { IfOk result (IsStep self.entry.net.now place known.old known.new) }
        ensures size { length known.new ≡ length known.old }
    {
        let Some(sides) = self.net.gate(place) else {
            let truth = self.given(truths, place)?;
            known.put(place, truth);
            return Ok(None);
        };
        let Some(one) = known.get(sides.first.place) else {
            return Ok(Some(sides.first.place));
        };
        let one = one.along(sides.first);
        if let Truth::Never = one {
            known.put(place, Truth::Never);
            return Ok(None);
        }
        let Some(other) = known.get(sides.second.place) else {
            return Ok(Some(sides.second.place));
        };
        let truth = truths.both(one, other.along(sides.second))?;
        known.put(place, truth);
        Ok(None)
    }

    /// The truth of the constant, an input or a latch.
    fn given(self, truths: &mut Truths, place: u32) -> Result<Truth, AllocError>
        requires site { IsSite self truths.old }
        requires front { place < front_of self.net.now }
        ensures keeps { Keeps truths.old truths.new }
        ensures truth { IfOk result (λ truth. IsTruthAt self.entry truths.new place truth) }
    {
        let place = place as usize;
        if place == 0 {
            return Ok(Truth::Never);
        }
        let inputs = self.propositions.len();
        if place <= inputs {
            let truth = truths.proposition(self.propositions[place - 1])?;
            return Ok(truth);
        }
        Ok(Truth::constant(self.latches[place - inputs - 1]))
    }
}
