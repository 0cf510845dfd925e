//! A circuit's outputs and next latches as Boolean functions (truths) of its inputs.

ghost use Rattle.std.specs.Prelude.{◌≡◌, ◌<◌, length, All, IfOk};
ghost use Rattle.ps_diagram.specs.Table.{Keeps};
ghost use Rattle.ps_product.specs.Inner.Knowing.{AreTruthsAlong, IsReady, Learns};
ghost use Rattle.ps_product.specs.Truths.{IsOutcome};
ghost use Rattle.ps_simulate.specs.Plans.{variables};

use crate::known::Known;
use crate::net::Net;
use crate::site::Site;
use crate::truth::{Truth, Truths};
use ps_circuit::Circuit;
use ps_simulate::Wire;
use std::alloc::{AllocError, Global};
use std::marker::Model;

/// The outputs and the latches' next values, at given latches.
#[derive(Drop)]
pub struct Outcome {
    pub outputs: Vec<Truth>,
    pub nexts: Vec<Truth>,
}

/// Computes them for all inputs at the same time.
#[derive(Drop)]
pub struct Evaluator<'a> {
    alloc: Global,
    net: Net<'a>,
    known: Known,
    stack: Vec<u32>,
}

impl<'a> Model for Evaluator<'a> {
    ghost use Rattle.std.specs.Prelude.{◌≡◌, length};
    ghost use Rattle.ps_circuit.specs.Circuits.{CircuitData};
    ghost use Rattle.ps_simulate.specs.Plans.{variables};

    ghost Value = { CircuitData };

    ghost view = { λ e. e.net };

    ghost invariant = { λ e. length e.known ≡ length (variables e.net) };
}

impl<'a> Evaluator<'a> {
    /// An evaluator of the circuit. Fails if memory runs out.
    pub fn new(alloc: Global, circuit: &'a Circuit) -> Result<Self, AllocError>
        ensures { IfOk result (λ evaluator. evaluator ≡ circuit.now) }
    {
        let net = Net::new(alloc, circuit)?;
        let known = Known::new(alloc, net.size())?;
        Ok(Evaluator {
            alloc,
            net,
            known,
            stack: Vec::new(alloc),
        })
    }

    /// The outputs and the next latches at the given latches; each input has the value of its proposition in the
    /// letter. Fails if memory runs out.
    pub fn at(
        &mut self,
        propositions: &[u32],
        latches: &[bool],
        truths: &mut Truths,
    ) -> Result<Outcome, AllocError>
        requires inputs { length propositions.now ≡ length self.old.inputs }
        requires named { All (λ p. p < truths.old.propositions) propositions.now }
        requires latches { length latches.now ≡ length self.old.latches }
        ensures circuit { self.new ≡ self.old }
        ensures keeps { Keeps truths.old truths.new }
        ensures outcome { IfOk result (λ o. IsOutcome self.old propositions.now latches.now truths.new
            o.outputs.items o.nexts.items) }
    {
        self.known.forget();
        let site = Site {
            net: &self.net,
            propositions,
            latches,
        };
        let (known, stack) = (&mut self.known, &mut self.stack);
        let outputs = truths_of(self.alloc, site, known, stack, truths, self.net.outputs())?;
        let nexts = truths_of(self.alloc, site, known, stack, truths, self.net.nexts())?;
        Ok(Outcome { outputs, nexts })
    }
}

/// The functions of literals.
fn truths_of(
    alloc: Global,
    site: Site,
    known: &mut Known,
    stack: &mut Vec<u32>,
    truths: &mut Truths,
    wires: &[Wire],
) -> Result<Vec<Truth>, AllocError>
    requires ready { IsReady site truths.old known.old }
    requires within { All (λ w. w.place < length (variables site.net.now)) wires.now }
    ensures learns { Learns site.entry truths.old truths.new known.new }
    ensures truths { IfOk result (λ made. AreTruthsAlong site.entry truths.new wires.now made.items) }
{
    let mut made = Vec::new(alloc);
    for wire in wires {
        site.settle(known, stack, truths, wire.place)?;
        let truth = known.get(wire.place).unwrap();
        made.push(truth.along(*wire))?;
    }
    Ok(made)
}
