//! Tables of formulas.

ghost use Rattle.std.specs.Prelude.{◌≡◌, ◌↔◌, ℕ, ◌+◌, ◌*◌, ◌^◌, ◌<◌, ◌≤◌, [], IfOk, IsTrue, OnErr, length};
ghost use Rattle.ps_label.specs.Words.{lasso_word};
ghost use Rattle.ps_formula.specs.Formulas.{IsAdded, IsOver, IsTable, formula_at, not_of};
ghost use Rattle.ps_formula.specs.NormalForms.{IsNormalForm};
ghost use Rattle.ps_formula.specs.Satisfaction.{Satisfies};

use crate::evaluation::truths;
use crate::node::Node;
use crate::normal_form::{Forms, NormalForm, forms_of_nodes};
use crate::normal_formulas::NormalFormulas;
use ps_keys::KeyList;
use std::alloc::{AllocError, Global};
use std::marker::Model;

/// Formulas, numbered from 0. Each is a node, whose operands are earlier ones. No node occurs twice.
#[derive(Debug, Drop)]
pub struct Formulas {
    nodes: KeyList<Node>,
    alloc: Global,
}

impl Model for Formulas {
    ghost use Rattle.std.specs.Prelude.{List};
    ghost use Rattle.ps_formula.specs.declared.node.Node.{Node};
    ghost use Rattle.ps_formula.specs.Formulas.{IsTable};

    ghost Value = { List Node };

    ghost view = { λ f. f.nodes };

    ghost invariant = { λ f. IsTable f.nodes };
}

impl Formulas {
    /// No formulas.
    pub fn new(alloc: Global) -> Self
        ensures { result ≡ [] }
    {
        Formulas {
            nodes: KeyList::new(alloc),
            alloc,
        }
    }

    /// The nodes.
    pub fn as_slice(&self) -> &[Node]
        ensures value { result.now ≡ self.now }
        ensures table { IsTable self.now }
    {
        self.nodes.as_slice()
    }

    /// The number of nodes.
    pub fn len(&self) -> usize
        ensures value { result ≡ length self.now }
        ensures few { result < 2 ^ 32 }
    {
        self.nodes.len()
    }

    /// The index of a formula, which is added if it is new. Fails if out of memory, or if the table has 5 * 2^29 nodes.
    pub fn add(&mut self, node: Node) -> Result<u32, AllocError>
        requires { IsOver (length self.old) node }
        ensures ok { IfOk result (IsAdded self.old node self.new) }
        ensures err { OnErr result (self.new ≡ self.old) }
        ensures table { IsTable self.new }
    {
        let index = self.nodes.place_of(node)?;
        self.nodes.keys_are_few();
        Ok(index as u32)
    }

    /// Whether a lasso satisfies a formula at its first index, in time at most proportional to the number of nodes up
    /// to the formula's, times that of letters; in memory, a bit for each of both. Fails if out of memory.
    pub fn holds(&self, root: u32, stem: &[u64], lap: &[u64]) -> Result<bool, AllocError>
        requires root { root < length self.now }
        requires some { 0 < length lap.now }
        ensures { IfOk result (λ holds.
            IsTrue holds ↔ Satisfies (formula_at self.now root) (lasso_word stem.now lap.now) 0) }
    {
        let nodes = &self.nodes.as_slice()[..root as usize + 1];
        let rows = truths(self.alloc, nodes, stem, lap)?;
        Ok(rows.get(root, 0))
    }

    /// The negation normal forms of a formula and of its negation, in a table of their own, which may have others. It
    /// has at most six times as many nodes as there are up to the formula's, however deep `<->` is nested. Fails if out
    /// of memory.
    pub fn normal_form(&self, root: u32) -> Result<NormalForm, AllocError>
        requires { root < length self.now }
        ensures formula { IfOk result (λ normal.
            IsNormalForm normal.table normal.formula (formula_at self.now root)) }
        ensures negation { IfOk result (λ normal.
            IsNormalForm normal.table normal.negation (not_of (formula_at self.now root))) }
        ensures few { IfOk result (λ normal. length normal.table ≤ 6 * (root + 1)) }
    {
        let nodes = &self.nodes.as_slice()[..root as usize + 1];
        let mut table = NormalFormulas::new(self.alloc);
        let forms = forms_of_nodes(self.alloc, &mut table, nodes)?;
        let Forms { formula, negation } = forms[root as usize];
        Ok(NormalForm {
            table,
            formula,
            negation,
        })
    }
}
