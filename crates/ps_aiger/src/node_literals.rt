//! The literals of diagrams' nodes.

ghost use Rattle.std.specs.Prelude.{◌≡◌, IfOk, None, Some, length, replicate, set};
ghost use Rattle.ps_aiger.specs.Inner.Functions.{literal_at};

use ps_circuit::Literal;
use ps_diagram::Node;
use std::alloc::{AllocError, Global};
use std::marker::Model;

/// For each node of a store, the literal that was built for it.
#[derive(Drop)]
pub(crate) struct NodeLiterals {
    literals: Vec<Option<Literal>>,
}

impl Model for NodeLiterals {
    ghost use Rattle.std.specs.Prelude.{ℕ, List, Option};

    ghost Value = { List (Option ℕ) };

    ghost view = { λ n. n.literals.items };
}

impl NodeLiterals {
    /// A table without literals.
    pub(crate) fn new(alloc: Global, nodes: usize) -> Result<Self, AllocError>
        ensures { IfOk result (λ known. known ≡ replicate nodes None) }
    {
        let mut literals = Vec::new(alloc);
        literals.resize(nodes, None)?;
        Ok(NodeLiterals { literals })
    }

    pub(crate) fn clear(&mut self)
        ensures { self.new ≡ replicate (length self.old) None }
    {
        self.literals.fill(None);
    }

    pub(crate) fn get(&self, node: Node) -> Option<Literal>
        ensures { result ≡ literal_at self.now node }
    {
        match self.literals.get(node.number()) {
            Some(literal) => *literal,
            None => None,
        }
    }

    /// Records a literal, if the table has room for the node.
    pub(crate) fn put(&mut self, node: Node, literal: Literal)
        ensures { self.new ≡ set self.old node (Some literal) }
    {
        let place = node.number();
        if place < self.literals.len() {
            self.literals[place] = Some(literal);
        }
    }
}
