//! The diagrams of a machine whose player moves second.

ghost use Rattle.std.specs.Prelude.{◌≡◌, ℕ, ◌<◌, false, Any, IfOk, length};
ghost use Rattle.std.specs.List.{All, AllZip};
ghost use Rattle.ps_automaton.specs.Automata.{pair_of};
ghost use Rattle.ps_machine.specs.Boards.{IsClassLetter};
ghost use Rattle.ps_machine.specs.Inner.Drawing.{IsReply};
ghost use Rattle.ps_machine.specs.Inner.Planning.{AddsRows, AreRowsBy, CanDraw, CanEnterBy, CanReply};
ghost use Rattle.ps_machine.specs.Inner.Planning.{Draws, IsAnswerBy, IsRestBy, NamesAnswerBy, board_by};
ghost use Rattle.ps_machine.specs.Numbering.{StandsAt};
ghost use Rattle.ps_machine.specs.declared.key.Key.TheVariants.{First};

use crate::drawing::{Drawing, Plan};
use crate::key::Key;
use crate::machine::Row;
use ps_automaton::{Automaton, Step};
use ps_diagram::{Class, Classes, Node, Store};
use std::alloc::{AllocError, Global};

impl Plan<'_> {
    /// The step that the winner, who moves second, chooses after the least letter of a class, and the vertex that
    /// stands for it. Of the successors of `vertex`, the one at the index `number` is tried first.
    pub fn reply(&self, vertex: usize, number: usize, state: u32, letter: u64) -> (usize, Step)
        requires { CanReply self.now vertex state letter }
        ensures stands { StandsAt self.now.keys.now result.0 (First result.1.state result.1.priority) }
        ensures reply { IsReply (board_by self.now) self.now.keys.now self.now.certificate.now state letter
            result.1.state result.1.priority }
        ensures enters { CanEnterBy self.now result.1.state result.1.priority }
    {
        let at = self.successor(vertex, number, Key::Second { state, letter });
        let chosen = self.certificate.choice(at).unwrap();
        match self.keys[chosen] {
            Key::First { state, priority } => (chosen, Step { state, priority }),
            Key::Second { .. } => unreachable!(),
        }
    }

    /// The row for a class, the one at the index `number` of the state of a vertex.
    fn row_of_class(
        &self,
        store: &Store,
        vertex: usize,
        number: usize,
        state: u32,
        class: Class,
    ) -> Result<Row, AllocError>
        requires ready { CanReply self.now vertex state class.letter }
        requires rest { IsRestBy self.now store.now state class.letter class.rest }
        ensures { IfOk result (IsAnswerBy self.now state class.letter) }
    {
        let leaves = store.leaves(class.rest)?;
        let (next, step) = self.reply(vertex, number, state, class.letter);
        Ok(Row {
            memory: self.memory_at(next, step),
            letter: letter_to(self.automaton, &leaves, step),
        })
    }
}

impl Drawing {
    /// Makes the diagram of a memory state for a player who moves second: the one that divides the first player's
    /// letters into classes, with indices of rows in place of classes.
    pub fn second_node(
        &mut self,
        alloc: Global,
        plan: &Plan<'_>,
        store: &Store,
        classes: &Classes,
        vertex: usize,
        state: u32,
    ) -> Result<Node, AllocError>
        requires turn { plan.now.moves_first ≡ false }
        requires ready { CanDraw plan.now store.now classes.now self.old vertex state }
        ensures { Draws plan.now self.old self.new vertex result }
    {
        let values = self.rows_of_classes(alloc, plan, store, vertex, state, &classes.list)?;
        self.store.relabel_from(store, classes.places, &values)
    }

    /// For each class at a vertex, the index of its row.
    fn rows_of_classes(
        &mut self,
        alloc: Global,
        plan: &Plan<'_>,
        store: &Store,
        vertex: usize,
        state: u32,
        classes: &[Class],
    ) -> Result<Vec<u64>, AllocError>
        requires turn { plan.now.moves_first ≡ false }
        requires entered { (p : ℕ) × CanEnterBy plan.now state p }
        requires stands { (p : ℕ) × StandsAt plan.now.keys.now vertex (First state p) }
        requires classes { All (λ class. IsClassLetter (board_by plan.now) state class.letter) classes.now }
        requires rests { All (λ class. IsRestBy plan.now store.now state class.letter class.rest) classes.now }
        requires rows { AreRowsBy plan.now self.old.rows.keys }
        ensures added { AddsRows plan.now self.old self.new }
        ensures values { IfOk result
            (λ values. AllZip (λ class value. NamesAnswerBy plan.now self.new.rows.keys state class.letter value)
            classes.now values.items) }
    {
        let mut values = Vec::with_capacity(alloc, classes.len())?;
        for (number, class) in classes.iter().enumerate() {
            let row = plan.row_of_class(store, vertex, number, state, *class)?;
            let (place, _) = self.rows.insert_full(row)?;
            values.push(place as u64)?;
        }
        Ok(values)
    }
}

/// The letter of the first of `leaves` (pairs of a step's index and a letter) with this step.
fn letter_to(automaton: &Automaton, leaves: &[(u64, u64)], step: Step) -> u64
    requires named { All (λ leaf. leaf.0 < length automaton.now.steps) leaves.now }
    requires there { Any (λ leaf. pair_of automaton.now leaf.0 ≡ step) leaves.now }
    ensures { Any (λ leaf. (pair_of automaton.now leaf.0 ≡ step) × (leaf.1 ≡ result)) leaves.now }
{
    for (leaf, letter) in leaves {
        if automaton.pair(*leaf) == step {
            return *letter;
        }
    }
    unreachable!()
}
