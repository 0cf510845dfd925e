//! Boards: where covers are made of sets and diagrams.

ghost use Rattle.std.specs.Prelude.{◌≡◌, ◌↔◌, ◌<◌, ◌∷◌, ℕ, [], IfOk, IsTrue, None, Some, cond, false, is_some};
ghost use Rattle.std.specs.Prelude.{length, true};
ghost use Rattle.ps_diagram.specs.Leaves.{chosen};
ghost use Rattle.ps_diagram.specs.Table.{IsNode, MakesNode, leaf_of};
ghost use Rattle.ps_formula.specs.NormalForms.{normal_formula_at};
ghost use Rattle.ps_label.specs.Truth.{is_in};
ghost use Rattle.ps_tableau.specs.Boards.{IsBoard, IsState, formulas_in};
ghost use Rattle.ps_tableau.specs.Inner.Calls.{Gives, GivesDiagram, GivesNode};
ghost use Rattle.ps_tableau.specs.Inner.SetSteps.{AreBothSets, AreSetsWith, IsUnion, MakesSet};
ghost use Rattle.ps_tableau.specs.Needs.{IsNeeded};
ghost use Rattle.ps_tableau.specs.Sets.{IsSet, indices_in};

use crate::needs::{needs_of, untils_of};
use crate::set::Set;
use crate::sets::Sets;
use ps_diagram::{Node, Store};
use ps_formula::NormalFormulas;
use std::alloc::{AllocError, Global};
use std::marker::Model;

/// A table of formulas, sets of them, and the diagrams of guards.
#[derive(Debug, Drop)]
pub(crate) struct Board {
    alloc: Global,
    formulas: NormalFormulas,
    /// Whether each formula may be in a set.
    needed: Vec<bool>,
    /// The untils that may be postponed.
    untils: Vec<u32>,
    initial: Set,
    sets: Sets,
    guards: Store,
}

impl Model for Board {
    ghost use Rattle.ps_tableau.specs.BoardData.{BoardData};

    ghost Value = { BoardData };

    ghost use Rattle.ps_tableau.specs.Boards.{IsBoard};

    ghost view = { λ b. record {
      formulas = b.formulas;
      needed = b.needed;
      untils = b.untils;
      initial = b.initial;
      sets = b.sets;
      guards = b.guards;
    } };

    ghost invariant = { λ b. IsBoard (record {
      formulas = b.formulas;
      needed = b.needed;
      untils = b.untils;
      initial = b.initial;
      sets = b.sets;
      guards = b.guards;
    }) };
}

impl Board {
    /// A board for a formula of a table.
    pub(crate) fn new(
        alloc: Global,
        formulas: NormalFormulas,
        root: u32,
    ) -> Result<Self, AllocError>
        requires { root < length formulas }
        ensures formulas { IfOk result (λ board. board.formulas ≡ formulas) }
        ensures initial { IfOk result (λ board. IsState board board.initial) }
        ensures formula { IfOk result (λ board.
            formulas_in board board.initial ≡ normal_formula_at formulas root ∷ []) }
    {
        let needed = needs_of(alloc, formulas.as_slice(), root)?;
        let untils = untils_of(alloc, formulas.as_slice(), &needed)?;
        let mut sets = Sets::new(alloc);
        let initial = sets.with(root, Set::EMPTY)?;
        Ok(Board {
            alloc,
            formulas,
            needed,
            untils,
            initial,
            sets,
            guards: Store::new(alloc, 64),
        })
    }

    /// The parts fit together: the prover learns it here.
    pub(crate) fn parts_fit(&self)
        ensures { IsBoard self.now }
    {
        let _ = &self.formulas;
    }

    pub(crate) fn allocator(&self) -> Global {
        self.alloc
    }

    pub(crate) fn formulas(&self) -> &NormalFormulas
        ensures { result.now ≡ self.now.formulas }
    {
        &self.formulas
    }

    /// Whether a formula may be in a set.
    pub(crate) fn is_needed(&self, index: u32) -> bool
        requires { index < length self.now.formulas }
        ensures { IsTrue result ↔ IsNeeded self.now.needed.items index }
    {
        self.needed[index as usize]
    }

    /// The untils that may be postponed.
    pub(crate) fn untils(&self) -> &[u32]
        ensures { result.now ≡ self.now.untils.items }
    {
        &self.untils
    }

    pub(crate) fn initial(&self) -> Set
        ensures { result ≡ self.now.initial }
    {
        self.initial
    }

    pub(crate) fn sets(&self) -> &Sets
        ensures { result.now ≡ self.now.sets }
    {
        &self.sets
    }

    /// The formulas of a set, in descending order.
    pub(crate) fn members(&self, set: Set) -> Result<Vec<u32>, AllocError>
        requires { IsSet self.now.sets set }
        ensures { IfOk result (λ members. members.items ≡ indices_in self.now.sets set) }
    {
        self.sets.members(set)
    }

    pub(crate) fn guards(&self) -> &Store
        ensures { result.now ≡ self.now.guards }
    {
        &self.guards
    }

    /// The guard that has each letter.
    pub(crate) fn every_letter(&mut self) -> Result<Node, AllocError>
        ensures { GivesDiagram self.old self.new result (λ _. Some 1) }
    {
        self.guards.leaf(1)
    }

    /// The guard without letters.
    pub(crate) fn no_letter(&mut self) -> Result<Node, AllocError>
        ensures { GivesDiagram self.old self.new result (λ _. None) }
    {
        self.guards.none()
    }

    /// The guard with the letters at which a proposition is true, or false.
    pub(crate) fn letters_of(&mut self, p: u32, negated: bool) -> Result<Node, AllocError>
        requires { p < 64 }
        ensures { GivesNode self.old self.new result (λ node. (letter : ℕ) →
            is_some (leaf_of self.new.guards node letter)
            ≡ cond negated (cond (is_in p letter) false true) (is_in p letter)) }
    {
        literal(&mut self.guards, p, negated)
    }

    /// The leaves of `one` where `guard` has a letter, and else those of `other`.
    pub(crate) fn choose(&mut self, guard: Node, one: Node, other: Node) -> Result<Node, AllocError>
        requires guard { IsNode self.old.guards guard }
        requires one { IsNode self.old.guards one }
        requires other { IsNode self.old.guards other }
        ensures { GivesDiagram self.old self.new result (λ letter. chosen (leaf_of self.old.guards guard letter)
            (leaf_of self.old.guards one letter) (leaf_of self.old.guards other letter)) }
    {
        self.guards.choose(guard, one, other)
    }

    /// The set with one more formula, the greatest.
    pub(crate) fn set_with(&mut self, index: u32, rest: Set) -> Result<Set, AllocError>
        requires { IsSet self.old.sets rest }
        ensures { Gives self.old self.new result
            (MakesSet self.new.sets (λ is. is ≡ index ∷ indices_in self.old.sets rest)) }
    {
        self.sets.with(index, rest)
    }

    /// The set with more formulas, each greater than those after it and those of the set.
    pub(crate) fn set_with_all(&mut self, more: &[u32], rest: Set) -> Result<Set, AllocError>
        requires { IsSet self.old.sets rest }
        ensures { Gives self.old self.new result (AreSetsWith self.old.sets more.now rest self.new.sets) }
    {
        self.sets.with_all(more, rest)
    }

    pub(crate) fn union(&mut self, a: Set, b: Set) -> Result<Set, AllocError>
        requires { AreBothSets self.old.sets a b }
        ensures { Gives self.old self.new result (IsUnion self.old.sets a b self.new.sets) }
    {
        self.sets.union(a, b)
    }

    /// A set is reduced: it need not be reduced again.
    pub(crate) fn note_reduced(&mut self, set: Set)
        ensures { self.new ≡ self.old }
    {
        self.sets.note_reduced(set);
    }
}

/// The guard with the letters at which a proposition is true, or false.
fn literal(guards: &mut Store, p: u32, negated: bool) -> Result<Node, AllocError>
    requires { p < guards.old.propositions }
    ensures { MakesNode guards.old guards.new result (λ node. (letter : ℕ) →
        is_some (leaf_of guards.new node letter)
        ≡ cond negated (cond (is_in p letter) false true) (is_in p letter)) }
{
    let truth = guards.of_proposition(p)?;
    if negated {
        guards.negated(truth)
    } else {
        Ok(truth)
    }
}
