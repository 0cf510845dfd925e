//! Diagrams for the bits of letters.

ghost use Rattle.std.specs.Prelude.{◌≡◌, ℕ, ◌+◌, ◌<◌, IfOk, OnOk};
ghost use Rattle.ps_diagram.specs.Bits.{AreLeastBits, AreLetterBits};
ghost use Rattle.ps_diagram.specs.Inner.Bits.{AreBitsBelow, AreConstants, AreLetterBitsBelow, IsLeastBit};
ghost use Rattle.ps_diagram.specs.Table.{IsNode, Keeps, Table, tree_of};

use crate::store::Store;
use crate::view::Node;
use std::alloc::AllocError;

/// The diagram of a bit, and what remains of a diagram where the proposition is as this bit.
#[derive(Clone, Copy)]
pub(crate) struct LeastBit {
    pub bit: Node,
    pub rest: Node,
}

/// The diagrams of the two truth values.
#[derive(Clone, Copy)]
pub(crate) struct Constants {
    pub one: Node,
    pub none: Node,
}

impl Store {
    /// For each hidden proposition, ascending, the diagram that has the leaf 1 at a letter if the proposition is true
    /// in the least letter over the hidden propositions for which the node has a leaf, and else no leaf.
    pub fn least_bits(&mut self, node: Node, hidden: u64) -> Result<Vec<Node>, AllocError>
        requires held { IsNode self.old node }
        ensures keeps { Keeps self.old self.new }
        ensures bits { IfOk result (λ bits. AreLeastBits self.old self.new node hidden bits.items) }
    {
        let mut rest = node;
        let mut bits = Vec::new(self.allocator());
        for proposition in 0..self.propositions() {
            rest = self.add_least_bit(rest, proposition, hidden, &mut bits)?;
        }
        Ok(bits)
    }

    /// Adds the bit of the next proposition, if it is hidden, and returns what remains of the node.
    fn add_least_bit(
        &mut self,
        node: Node,
        proposition: u32,
        hidden: u64,
        bits: &mut Vec<Node>,
    ) -> Result<Node, AllocError>
        requires held { IsNode self.old node }
        requires named { proposition < self.old.propositions }
        ensures keeps { Keeps self.old self.new }
        ensures adds { IfOk result (λ rest. (s : Table) (whole : ℕ) →
            AreBitsBelow s self.old whole hidden proposition node bits.old.items →
            AreBitsBelow s self.new whole hidden (proposition + 1) rest bits.new.items) }
    {
        self.table_is_sound();
        if hidden >> proposition & 1 == 0 {
            return Ok(node);
        }
        let made = self.least_bit(node, proposition, hidden)?;
        bits.push(made.bit)?;
        Ok(made.rest)
    }

    /// The bit of one proposition: it is true where the node has no leaf with the proposition false, whatever the
    /// values of the hidden propositions.
    fn least_bit(
        &mut self,
        node: Node,
        proposition: u32,
        hidden: u64,
    ) -> Result<LeastBit, AllocError>
        requires held { IsNode self.old node }
        requires named { proposition < self.old.propositions }
        ensures keeps { Keeps self.old self.new }
        ensures bit { IfOk result (IsLeastBit self.new hidden proposition (tree_of self.old node)) }
    {
        self.table_is_sound();
        let low = self.fixed(node, 1 << proposition, 0)?;
        let high = self.fixed(node, 1 << proposition, 1 << proposition)?;
        let can = self.whether(low, hidden)?;
        let rest = self.taken(can, low, high)?;
        let bit = self.negated(can)?;
        Ok(LeastBit { bit, rest })
    }

    /// For each proposition of the mask, ascending, the diagram that has the leaf 1 everywhere if the proposition is
    /// true in the letter, and else no leaf.
    pub fn letter_bits(&mut self, letter: u64, mask: u64) -> Result<Vec<Node>, AllocError>
        ensures keeps { Keeps self.old self.new }
        ensures bits { IfOk result (λ bits. AreLetterBits self.new mask letter bits.items) }
    {
        let one = self.leaf(1)?;
        let none = self.none()?;
        let constants = Constants { one, none };
        let mut bits = Vec::new(self.allocator());
        for proposition in 0..self.propositions() {
            constants.add_bit(letter, proposition, mask, &mut bits)?;
        }
        Ok(bits)
    }
}

impl Constants {
    /// Adds the bit of the next proposition, if it is in the mask.
    fn add_bit(
        &self,
        letter: u64,
        proposition: u32,
        mask: u64,
        bits: &mut Vec<Node>,
    ) -> Result<(), AllocError>
        requires { proposition < 64 }
        ensures { OnOk result ((t : Table) → AreConstants t self.now →
            AreLetterBitsBelow t mask letter proposition bits.old.items →
            AreLetterBitsBelow t mask letter (proposition + 1) bits.new.items) }
    {
        if mask >> proposition & 1 == 0 {
            return Ok(());
        }
        if letter >> proposition & 1 == 0 {
            bits.push(self.none)?;
            return Ok(());
        }
        bits.push(self.one)?;
        Ok(())
    }
}
