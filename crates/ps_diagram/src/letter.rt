//! The diagram of one letter.

ghost use Rattle.std.specs.Prelude.{◌≡◌, ℕ, ◌^◌, ◌<◌, IfOk, nat_eq};
ghost use Rattle.ps_diagram.specs.Labels.{one_where};
ghost use Rattle.ps_diagram.specs.Table.{MakesNode, leaf_of};

use crate::store::Store;
use crate::view::Node;
use std::alloc::AllocError;

impl Store {
    /// The diagram with the leaf 1 at the given letter alone.
    pub fn of_letter(&mut self, letter: u64) -> Result<Node, AllocError>
        requires within { letter < 2 ^ self.old.propositions }
        ensures { MakesNode self.old self.new result
            (λ node. (other : ℕ) → other < 2 ^ self.old.propositions →
            leaf_of self.new node other ≡ one_where (nat_eq other letter)) }
    {
        let none = self.constant(None)?;
        let mut node = self.constant(Some(1))?;
        for proposition in (0..self.propositions()).rev() {
            node = if letter >> proposition & 1 == 1 {
                self.test(proposition, none, node)?
            } else {
                self.test(proposition, node, none)?
            };
        }
        Ok(node)
    }
}
