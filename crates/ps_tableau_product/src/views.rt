//! The diagrams of a circuit's step at given latches.

ghost use Rattle.std.specs.Prelude.{◌≡◌, Bool, IfOk, List, length};
ghost use Rattle.ps_diagram.specs.Table.{IsNode, Keeps};
ghost use Rattle.ps_product.specs.Truths.{IsOutcome, IsTruth};
ghost use Rattle.std.specs.Prelude.{All, map};
ghost use Rattle.ps_hoa.specs.Memory.{bytes_of};
ghost use Rattle.ps_tableau_product.specs.Plans.{scene_of};
ghost use Rattle.ps_tableau_product.specs.Inner.Views.{ArePadded, IsView};

use crate::plan::Plan;
use ps_diagram::{Node, Store};
use ps_product::{Evaluator, Outcome, Truth, Truths, grouped, nodes_of, outcome_is_the_step};
use std::alloc::AllocError;

/// The number of propositions of a tableau's guards.
const PROPOSITIONS: usize = 64;

/// The outputs and the next latches at given latches, with the store of their diagrams.
#[derive(Drop)]
struct Evaluated {
    store: Store,
    outcome: Outcome,
}

/// The diagrams of a step at given latches.
#[derive(Drop)]
pub(crate) struct View {
    /// The store of the diagrams.
    pub store: Store,
    /// The diagram of each proposition.
    pub nodes: Vec<Node>,
    /// The next value of each latch.
    pub nexts: Vec<Truth>,
    /// A diagram that has the same leaf at two letters exactly if the next latches are the same.
    pub classes: Node,
}

impl<'a> Plan<'a> {
    /// The diagrams of a step at given latches. Fails if out of memory.
    pub(crate) fn view(
        self,
        evaluator: &mut Evaluator,
        store: Store,
        latches: &[bool],
    ) -> Result<View, AllocError>
        requires evaluator { evaluator.old ≡ self.circuit.now }
        requires store { store.propositions ≡ length self.names.now }
        requires latches { length latches.now ≡ length self.circuit.now.latches }
        ensures evaluator { evaluator.new ≡ evaluator.old }
        ensures view { IfOk result (IsView (scene_of self.entry) latches.now) }
    {
        self.circuit.parts_fit();
        let evaluated = self.evaluated(evaluator, store, latches)?;
        self.diagrams(evaluated)
    }

    /// The outputs and the next latches at given latches. Fails if out of memory.
    fn evaluated(
        self,
        evaluator: &mut Evaluator,
        store: Store,
        latches: &[bool],
    ) -> Result<Evaluated, AllocError>
        requires evaluator { evaluator.old ≡ self.circuit.now }
        requires store { store.propositions ≡ length self.names.now }
        requires latches { length latches.now ≡ length self.circuit.now.latches }
        ensures evaluator { evaluator.new ≡ evaluator.old }
        ensures store { IfOk result (λ e. e.store.propositions ≡ length self.entry.names.now) }
        ensures outcome { IfOk result (λ e. IsOutcome self.entry.circuit.now self.entry.roles.now.inputs.items
            latches.now e.store e.outcome.outputs.items e.outcome.nexts.items) }
    {
        self.circuit.parts_fit();
        let mut truths = Truths::new(store)?;
        let outcome = evaluator.at(&self.roles.inputs, latches, &mut truths)?;
        Ok(Evaluated {
            store: truths.into_store(),
            outcome,
        })
    }

    /// The diagrams of a step, from the functions of the outputs and the next latches. Fails if out of memory.
    fn diagrams(self, evaluated: Evaluated) -> Result<View, AllocError>
        requires store { evaluated.store.propositions ≡ length self.names.now }
        requires outputs { All (IsTruth evaluated.store) evaluated.outcome.outputs.items }
        requires nexts { All (IsTruth evaluated.store) evaluated.outcome.nexts.items }
        requires one_each { length evaluated.outcome.outputs.items ≡ length self.roles.now.outputs.items }
        ensures { IfOk result (λ v. (latches : List Bool) → length latches ≡ length self.entry.circuit.now.latches →
            IsOutcome self.entry.circuit.now self.entry.roles.now.inputs.items latches evaluated.store
            evaluated.outcome.outputs.items evaluated.outcome.nexts.items → IsView (scene_of self.entry) latches v) }
    {
        outcome_is_the_step();
        self.circuit.parts_fit();
        let Evaluated { mut store, outcome } = evaluated;
        let Outcome { outputs, nexts } = outcome;
        let nodes = self.nodes(&mut store, &outputs)?;
        let whole = store.leaf(0)?;
        let classes = grouped(self.alloc, &mut store, whole, &nexts)?;
        Ok(View {
            store,
            nodes,
            nexts,
            classes,
        })
    }

    /// The diagram of each proposition of guards: one without a name is false at each letter. Fails if out of memory.
    fn nodes(self, store: &mut Store, outputs: &[Truth]) -> Result<Vec<Node>, AllocError>
        requires store { store.old.propositions ≡ length self.names.now }
        requires outputs { All (IsTruth store.old) outputs.now }
        requires one_each { length outputs.now ≡ length self.roles.now.outputs.items }
        ensures keeps { Keeps store.old store.new }
        ensures nodes { IfOk result (λ nodes. ArePadded store.new (length self.entry.names.now)
            self.entry.roles.now.outputs.items outputs.now nodes.items) }
    {
        let mut nodes = nodes_of(self.alloc, store, &self.roles.outputs, outputs)?;
        let none = store.none()?;
        while nodes.len() < PROPOSITIONS {
            nodes.push(none)?;
        }
        Ok(nodes)
    }
}
