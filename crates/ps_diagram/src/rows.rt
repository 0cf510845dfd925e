//! The diagram of a list of leaves, made by rows of nodes, one for each proposition from the last on, each half as long
//! as the one before. A long list is first divided into parts by the first few propositions, so that the cells of a
//! part's diagram lie together.

ghost use Rattle.std.specs.Prelude.{◌≡◌, ℕ, ◌+◌, ◌-◌, ◌*◌, ◌%◌, ◌^◌, ◌<◌, ◌≤◌, IfOk, OnOk, length, slice_get};
ghost use Rattle.std.specs.Prelude.{slice_index_or};
ghost use Rattle.ps_diagram.specs.Inner.Rows.{AreLeafNodes, IsJoined, IsRow, LeadsOn};
ghost use Rattle.ps_diagram.specs.Table.{Keeps, MakesDiagram, MakesNode};

use crate::store::Store;
use crate::view::Node;
use std::alloc::{AllocError, Global};

/// A list with more entries is divided into parts.
const MANY: usize = 4096;

/// How many propositions these parts' letters have.
const DEPTH: u32 = 4;

/// The number of parts.
const PARTS: usize = 16;

impl Store {
    /// The diagram whose leaf at a letter, taken as a number, is the list's entry there, or none past its end. Each
    /// entry is read once.
    pub fn of_leaves(&mut self, leaves: &[u64]) -> Result<Node, AllocError>
        ensures { MakesDiagram self.old self.new result
            (λ letter. slice_get leaves.now (letter % 2 ^ self.old.propositions)) }
    {
        let none = self.constant(None)?;
        let nodes = self.leaf_nodes(leaves)?;
        self.joined(nodes, 0, none)
    }

    /// For each leaf, the node that has it at every letter.
    fn leaf_nodes(&mut self, leaves: &[u64]) -> Result<Vec<Node>, AllocError>
        ensures keeps { Keeps self.old self.new }
        ensures nodes { IfOk result (λ nodes. AreLeafNodes self.new leaves.now (length leaves.now) nodes.items) }
    {
        let mut nodes = Vec::with_capacity(self.allocator(), leaves.len())?;
        for leaf in leaves {
            nodes.push(self.constant(Some(*leaf))?)?;
        }
        Ok(nodes)
    }

    /// The diagram that leads to the entry to which the propositions from `first` on lead.
    #[cycle(joined)]
    fn joined(&mut self, nodes: Vec<Node>, first: u32, none: Node) -> Result<Node, AllocError>
        requires within { first ≤ self.old.propositions }
        requires row { IsRow self.old self.old.propositions none nodes.items }
        ensures { MakesNode self.old self.new result
            (IsJoined self.old self.new first (self.old.propositions - first) none nodes.items) }
    {
        let depth = self.propositions() - first;
        if nodes.len() <= MANY || depth < DEPTH {
            return self.halved(nodes, first, depth, none);
        }
        let made = self.parts(&nodes, first, none)?;
        self.halved(made, first, DEPTH, none)
    }

    /// The diagrams of the parts, by the letters over the `DEPTH` propositions from `first` on.
    #[cycle(joined)]
    fn parts(&mut self, nodes: &[Node], first: u32, none: Node) -> Result<Vec<Node>, AllocError>
        requires within { first + 4 ≤ self.old.propositions }
        requires row { IsRow self.old self.old.propositions none nodes.now }
        ensures keeps { Keeps self.old self.new }
        ensures row { IfOk result (λ made. IsRow self.new (first + 4) none made.items) }
        ensures leads { IfOk result (λ made. LeadsOn self.old self.new first none
            (self.old.propositions - first) nodes.now 4 made.items) }
    {
        let mut made = Vec::new(self.allocator());
        'rest: for rest in 0..PARTS {
            let part = part_of(self.allocator(), nodes, rest, none)?;
            made.push(self.joined(part, first + DEPTH, none)?)?;
        }
        Ok(made)
    }

    /// As `joined`, by the `depth` propositions from `first` on.
    fn halved(
        &mut self,
        nodes: Vec<Node>,
        first: u32,
        depth: u32,
        none: Node,
    ) -> Result<Node, AllocError>
        requires within { first + depth ≤ self.old.propositions }
        requires row { IsRow self.old (first + depth) none nodes.items }
        ensures { MakesNode self.old self.new result (IsJoined self.old self.new first depth none nodes.items) }
    {
        let mut nodes = nodes;
        for height in (0..depth).rev() {
            self.halve(&mut nodes, first, height, none)?;
        }
        Ok(node_or(&nodes, 0, none))
    }

    /// From the row of later propositions, the row that tests `first + height`.
    fn halve(
        &mut self,
        nodes: &mut Vec<Node>,
        first: u32,
        height: u32,
        none: Node,
    ) -> Result<(), AllocError>
        requires named { first + height < self.old.propositions }
        requires row { IsRow self.old (first + height + 1) none nodes.old.items }
        ensures keeps { Keeps self.old self.new }
        ensures row { OnOk result (IsRow self.new (first + height) none nodes.new.items) }
        ensures leads { OnOk result (LeadsOn self.old self.new first none (height + 1) nodes.old.items height
            nodes.new.items) }
    {
        self.table_is_sound();
        let half = power(height);
        let count = nodes.len().min(half);
        for place in 0..count {
            let high = node_or(nodes, half + place, none);
            nodes[place] = self.test(first + height, nodes[place], high)?;
        }
        nodes.truncate(count);
        Ok(())
    }
}

/// The entries whose indices have the remainder `rest` by `PARTS`.
fn part_of(alloc: Global, nodes: &[Node], rest: usize, none: Node) -> Result<Vec<Node>, AllocError>
    requires { rest < 16 }
    ensures { IfOk result (λ part. (i : ℕ) →
        slice_index_or part.items i none ≡ slice_index_or nodes.now (rest + 16 * i) none) }
{
    let count = nodes.len().div_ceil(PARTS);
    let mut part = Vec::with_capacity(alloc, count)?;
    for place in 0..count {
        part.push(node_or(nodes, rest + PARTS * place, none))?;
    }
    Ok(part)
}

fn node_or(nodes: &[Node], place: usize, other: Node) -> Node
    ensures { result ≡ slice_index_or nodes.now place other }
{
    nodes.get(place).copied().unwrap_or(other)
}

fn power(propositions: u32) -> usize
    requires few { propositions < 64 }
    ensures value { result ≡ 2 ^ propositions }
    ensures few { result ≤ 2 ^ 63 }
{
    1 << propositions
}
