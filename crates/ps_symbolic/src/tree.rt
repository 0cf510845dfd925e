//! The Zielonka tree of a condition on the colours that recur.
//!
//! The root is the set of all colours. The children of a set are its greatest subsets that satisfy the condition if it
//! does not, and do not if it does (Zielonka, "Infinite Games on Finitely Coloured Graphs with Applications to Automata
//! on Infinite Trees", 1998). Equal sets are one node: what is below a set depends on nothing else. There are at
//! most 3,000 nodes.

use ps_keys::KeyList;
use ps_parts::diagrams::{self, Diagram, Diagrams, View};
use ps_parts::stop::{Stop, index, number_of};
use std::alloc::Global;

/// The most nodes.
const NODES: usize = 3000;

/// The number of steps.
const STEPS: u32 = 2_000_000;

/// The greatest depth of the tree, and the most variables of a condition.
const DEPTH: u32 = 65;

/// Some of the children of a node, among those of all nodes.
#[derive(Clone, Copy)]
pub(crate) struct Children {
    pub(crate) start: u32,
    pub(crate) stop: u32,
}

/// The Zielonka tree of a condition.
#[derive(Drop)]
pub(crate) struct Tree {
    pub(crate) diagrams: Diagrams,
    pub(crate) condition: Diagram,
    /// The set of colours of each node, one bit for each colour.
    sets: KeyList<u64>,
    /// The children of each node.
    ranges: Vec<Children>,
    children: Vec<u32>,
    /// The subsets that a search has found.
    found: Vec<u64>,
}

/// A search for the greatest subsets of a set at which the condition has a truth.
#[derive(Clone, Copy)]
struct Search {
    within: u64,
    wanted: bool,
}

impl Tree {
    /// A tree without nodes, for a condition that is to be set.
    pub(crate) fn new(alloc: Global) -> Result<Self, Stop> {
        let diagrams = Diagrams::with_steps(alloc, STEPS)?;
        Ok(Tree {
            diagrams,
            condition: diagrams::TRUE,
            sets: KeyList::new(alloc),
            ranges: Vec::new(alloc),
            children: Vec::new(alloc),
            found: Vec::new(alloc),
        })
    }

    /// Adds the nodes, if there are so many colours.
    pub(crate) fn grow(&mut self, colours: u32) -> Result<(), Stop> {
        let all = match 1u64.checked_shl(colours) {
            Some(bit) => bit.wrapping_sub(1),
            None => u64::MAX,
        };
        self.sets.place_of(all)?;
        for place in 0..NODES {
            let Some(set) = self.sets.as_slice().get(place).copied() else {
                return Ok(());
            };
            self.add_children(set)?;
        }
        Err(Stop::Limit)
    }

    /// Whether the condition holds where just the colours of a set recur.
    fn holds_at(&self, set: u64) -> bool {
        self.diagrams.is_true_at(self.condition, set)
    }

    /// Adds the children of a set.
    fn add_children(&mut self, set: u64) -> Result<(), Stop> {
        let search = Search {
            within: set,
            wanted: !self.holds_at(set),
        };
        self.found.clear();
        self.search(DEPTH, search, self.condition, 0)?;
        let start = index(self.children.len())?;
        for subset in &self.found {
            let child = number_of(&mut self.sets, *subset)?;
            self.children.push(child)?;
        }
        let stop = index(self.children.len())?;
        self.ranges.push(Children { start, stop })?;
        Ok(())
    }

    /// Finds the subsets without some colours, from a node of the condition on. What has a colour is sought first, so a
    /// subset that was found is in none that is found later.
    fn search(
        &mut self,
        depth: u32,
        search: Search,
        node: Diagram,
        without: u64,
    ) -> Result<(), Stop> {
        self.diagrams.step()?;
        let most = search.within & !without;
        if depth == 0 || self.found.iter().any(|set| most & !*set == 0) {
            return Ok(());
        }
        let test = match self.diagrams.view(node) {
            View::Test(test) => test,
            View::Leaf(value) => {
                if (value != 0) == search.wanted {
                    self.found.push(most)?;
                }
                return Ok(());
            }
        };
        let colour = 1u64.checked_shl(test.variable).unwrap_or(0);
        if search.within & colour != 0 {
            self.search(depth - 1, search, test.high, without)?;
        }
        self.search(depth - 1, search, test.low, without | colour)
    }

    /// The children of a node.
    pub(crate) fn children(&self, node: u32) -> Children {
        match self.ranges.get(node as usize) {
            Some(range) => *range,
            None => Children { start: 0, stop: 0 },
        }
    }

    /// A child by its place among those of all nodes.
    pub(crate) fn child(&self, place: u32) -> u32 {
        self.children.get(place as usize).copied().unwrap_or(0)
    }

    /// The colours of a node.
    pub(crate) fn set(&self, node: u32) -> u64 {
        self.sets
            .as_slice()
            .get(node as usize)
            .copied()
            .unwrap_or(0)
    }

    /// Whether the controller wins if just the colours of a node recur.
    pub(crate) fn is_won(&self, node: u32) -> bool {
        self.holds_at(self.set(node))
    }
}
