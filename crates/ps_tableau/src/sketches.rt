//! Sketches of covers: bits that may show that one cover takes no letters from another.
//!
//! Contracts say nothing of sketches: a cover that one rules out in error takes no letters, which is never wrong.

ghost use Rattle.ps_diagram.specs.Table.{IsNode};

use crate::board::Board;
use crate::edge::Edge;
use ps_diagram::{Node, Store, View};
use std::alloc::{AllocError, Global};

/// The number of covers of a block.
const BLOCK: usize = 32;

/// The number of nodes of a guard that are looked at.
const STEPS: u32 = 48;

/// Propositions, as bits, that are true at each letter of a guard, and those that are false at each.
#[derive(Clone, Copy)]
pub(crate) struct Literals {
    pub positive: u64,
    pub negative: u64,
}

/// Bits that a cover has, or that each of several covers has.
#[derive(Clone, Copy)]
pub(crate) struct Sketch {
    /// Those of the formulas of its set for the next index.
    pub next: u64,
    /// Those of the untils that it postpones.
    pub postponed: u64,
    pub literals: Literals,
}

/// Some covers in a row of a list.
#[derive(Clone, Copy)]
struct Block {
    /// The bits that each of them has.
    shared: Sketch,
    /// The place of the first one.
    start: usize,
    /// The place after the last one.
    end: usize,
}

/// The sketches of a list of covers.
#[derive(Drop)]
pub(crate) struct Sketches {
    each: Vec<Sketch>,
    blocks: Vec<Block>,
}

impl Literals {
    /// Those of a guard without letters.
    const ALL: Literals = Literals {
        positive: u64::MAX,
        negative: u64::MAX,
    };

    const NONE: Literals = Literals {
        positive: 0,
        negative: 0,
    };

    #[inline(always)]
    fn and(self, other: Literals) -> Literals {
        Literals {
            positive: self.positive & other.positive,
            negative: self.negative & other.negative,
        }
    }
}

impl Sketch {
    #[inline(always)]
    fn and(self, other: Sketch) -> Sketch {
        Sketch {
            next: self.next & other.next,
            postponed: self.postponed & other.postponed,
            literals: self.literals.and(other.literals),
        }
    }

    /// Whether a cover with these bits may take letters from another.
    #[inline(always)]
    fn may_lessen(self, other: Sketch) -> bool {
        let more = self.next & !other.next | self.postponed & !other.postponed;
        let apart = self.literals.positive & other.literals.negative
            | self.literals.negative & other.literals.positive;
        more | apart == 0
    }
}

impl Sketches {
    pub(crate) fn new(alloc: Global) -> Self {
        Sketches {
            each: Vec::new(alloc),
            blocks: Vec::new(alloc),
        }
    }

    /// Adds the sketch of a cover. Fails if out of memory.
    pub(crate) fn add(&mut self, sketch: Sketch) -> Result<(), AllocError> {
        let start = self.each.len();
        self.each.push(sketch)?;
        let end = self.each.len();
        if start % BLOCK == 0 {
            self.blocks.push(Block {
                shared: sketch,
                start,
                end,
            })?;
        } else if let Some(block) = self.blocks.last_mut() {
            block.shared = block.shared.and(sketch);
            block.end = end;
        }
        Ok(())
    }

    /// The places of the covers that may take letters from another. Fails if out of memory.
    pub(crate) fn places(&self, other: Sketch) -> Result<Vec<usize>, AllocError> {
        let mut places = Vec::new(*self.each.allocator());
        for block in &self.blocks {
            if block.shared.may_lessen(other) {
                self.add_places(block, other, &mut places)?;
            }
        }
        Ok(places)
    }

    /// Adds such places of a block.
    fn add_places(
        &self,
        block: &Block,
        other: Sketch,
        places: &mut Vec<usize>,
    ) -> Result<(), AllocError> {
        for place in block.start..block.end {
            if self.may_lessen(place, other) {
                places.push(place)?;
            }
        }
        Ok(())
    }

    /// Whether the cover at a place may take letters from another.
    #[inline(always)]
    fn may_lessen(&self, place: usize, other: Sketch) -> bool {
        match self.each.get(place) {
            Some(sketch) => sketch.may_lessen(other),
            None => false,
        }
    }
}

/// The sketch of a cover.
pub(crate) fn sketch_of(board: &Board, edge: Edge) -> Sketch
    requires { IsNode board.now.guards edge.guard }
{
    let mut steps = STEPS;
    Sketch {
        next: board.sets().word(edge.next),
        postponed: board.sets().word(edge.postponed),
        literals: literals_of(board.guards(), edge.guard, &mut steps),
    }
}

/// The literals of a guard, or some of them if it has many nodes.
fn literals_of(guards: &Store, node: Node, steps: &mut u32) -> Literals
    requires { IsNode guards.now node }
{
    if *steps == 0 {
        return Literals::NONE;
    }
    *steps -= 1;
    match guards.view(node) {
        View::Nothing => Literals::ALL,
        View::Leaf(_) => Literals::NONE,
        View::Test {
            proposition,
            low,
            high,
        } => {
            let bit = 1 << (proposition % 64);
            let mut left = literals_of(guards, low, steps);
            let mut right = literals_of(guards, high, steps);
            left.negative |= bit;
            right.positive |= bit;
            left.and(right)
        }
    }
}
