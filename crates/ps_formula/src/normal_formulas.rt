//! Tables in negation normal form.

ghost use Rattle.std.specs.Prelude.{◌≡◌, ◌^◌, ◌<◌, [], IfOk, IfSome, OnErr, length};
ghost use Rattle.ps_formula.specs.Formulas.{IsAdded};
ghost use Rattle.ps_formula.specs.NormalForms.{IsNormalOver, IsNormalTable, normal_formula_at, truth};

use crate::normal_node::NormalNode;
use ps_keys::KeyList;
use std::alloc::{AllocError, Global};
use std::marker::Model;

/// As `Formulas`, in negation normal form.
#[derive(Debug, Drop)]
pub struct NormalFormulas {
    nodes: KeyList<NormalNode>,
}

impl Model for NormalFormulas {
    ghost use Rattle.std.specs.Prelude.{List};
    ghost use Rattle.ps_formula.specs.declared.normal_node.NormalNode.{NormalNode};
    ghost use Rattle.ps_formula.specs.NormalForms.{IsNormalTable};

    ghost Value = { List NormalNode };

    ghost view = { λ f. f.nodes };

    ghost invariant = { λ f. IsNormalTable f.nodes };
}

impl NormalFormulas {
    /// No formulas.
    pub fn new(alloc: Global) -> Self
        ensures { result ≡ [] }
    {
        NormalFormulas {
            nodes: KeyList::new(alloc),
        }
    }

    /// The nodes.
    pub fn as_slice(&self) -> &[NormalNode]
        ensures value { result.now ≡ self.now }
        ensures table { IsNormalTable self.now }
    {
        self.nodes.as_slice()
    }

    /// The number of nodes.
    pub fn len(&self) -> usize
        ensures value { result ≡ length self.now }
        ensures few { result < 2 ^ 32 }
    {
        self.nodes.len()
    }

    /// The index of a formula, which is added if it is new. Fails if out of memory, or if the table has 5 * 2^29 nodes.
    pub fn add(&mut self, node: NormalNode) -> Result<u32, AllocError>
        requires { IsNormalOver (length self.old) node }
        ensures ok { IfOk result (IsAdded self.old node self.new) }
        ensures err { OnErr result (self.new ≡ self.old) }
        ensures table { IsNormalTable self.new }
    {
        let index = self.nodes.place_of(node)?;
        self.nodes.keys_are_few();
        Ok(index as u32)
    }

    /// Its value, if a formula is a constant.
    pub(crate) fn constant(&self, index: u32) -> Option<bool>
        requires { index < length self.now }
        ensures { IfSome result (λ value. normal_formula_at self.now index ≡ truth value) }
    {
        match self.as_slice()[index as usize] {
            NormalNode::Constant(value) => Some(value),
            _ => None,
        }
    }
}
