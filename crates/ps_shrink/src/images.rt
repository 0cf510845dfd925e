//! The literals that stand for a circuit's variables in another one.

ghost use Rattle.std.specs.Prelude.{◌≡◌, ◌^◌, ◌<◌, IfOk, OnOk};
ghost use Rattle.ps_circuit.specs.Building.{Extends, IsHeld};

use crate::sketch::{Row, Signal};
use ps_circuit::{Builder, EncodeFault, Literal};
use std::alloc::{AllocError, Global};
use std::marker::Model;

/// A builder, and its literal for each place of the circuit.
#[derive(Drop)]
pub(crate) struct Images {
    builder: Builder,
    literals: Vec<Literal>,
}

impl Model for Images {
    ghost use Rattle.std.specs.Prelude.{All};
    ghost use Rattle.ps_circuit.specs.Building.{Drafted, IsHeld};

    ghost Value = { Drafted };

    ghost view = { λ i. i.builder };

    ghost invariant = { λ i. All (IsHeld i.builder) i.literals.items };
}

impl Images {
    /// A builder over `given` variables, with `false` for each place.
    pub fn new(alloc: Global, given: u32, places: usize) -> Result<Self, AllocError>
        requires { given < 2 ^ 31 }
        ensures { IfOk result (λ images. images.given ≡ given) }
    {
        Ok(Images {
            builder: Builder::new(alloc, given),
            literals: vec![in alloc; Literal::FALSE; places]?,
        })
    }

    /// The builder.
    pub fn builder(&self) -> &Builder
        ensures { result.now ≡ self.now }
    {
        &self.builder
    }

    /// The literal of a signal.
    pub fn at(&self, signal: Signal) -> Literal
        ensures { IsHeld self.now result }
    {
        if signal.place >= self.literals.len() {
            return Literal::FALSE;
        }
        let literal = self.literals[signal.place];
        if signal.is_negated {
            literal.negated()
        } else {
            literal
        }
    }

    /// Lets a literal stand for a variable.
    pub fn put(&mut self, place: usize, literal: Literal)
        requires { IsHeld self.old literal }
        ensures { self.new ≡ self.old }
    {
        if place < self.literals.len() {
            self.literals[place] = literal;
        }
    }

    /// The conjunction of two signals.
    pub fn and(&mut self, first: Signal, second: Signal) -> Result<Literal, EncodeFault>
        ensures extends { Extends self.old self.new }
        ensures held { IfOk result (IsHeld self.new) }
    {
        let first = self.at(first);
        let second = self.at(second);
        self.builder.and(first, second)
    }

    /// Lets a literal stand for a gate.
    pub fn build(&mut self, gate: Row) -> Result<(), EncodeFault>
        ensures { OnOk result (Extends self.old self.new) }
    {
        let literal = self.and(gate.first, gate.second)?;
        self.put(gate.place, literal);
        Ok(())
    }
}
