//! The largest loops that are accepting, or not.

use crate::components::{Edge, components};
use crate::machine::Machine;
use ps_parts::diagrams::{Diagram, Diagrams, TRUE, Test, View};
use ps_parts::stop::Stop;
use std::alloc::Global;

/// The most loops.
const LOOPS: usize = 65_536;

/// The most sets of marks that are looked at for one loop.
const SETS: usize = 65_536;

/// Which loops are sought.
#[derive(Clone, Copy)]
pub(crate) struct Wish {
    pub(crate) condition: Diagram,
    pub(crate) safeties: u64,
    /// Whether they are to be accepting.
    pub(crate) wanted: bool,
}

/// Loops within some edges that are accepting, or not, as wanted; each such loop is within one of them.
pub(crate) fn largest_loops(
    alloc: Global,
    diagrams: &mut Diagrams,
    edges: &[Edge],
    wish: Wish,
) -> Result<Vec<Vec<Edge>>, Stop> {
    let mut loops = Loops {
        alloc,
        wish,
        found: Vec::new(alloc),
        pending: Vec::new(alloc),
    };
    loops.find(diagrams, edges)?;
    Ok(loops.into_found())
}

/// The same edges.
pub(crate) fn copied(alloc: Global, edges: &[Edge]) -> Result<Vec<Edge>, Stop> {
    let mut list = Vec::new(alloc);
    list.extend_from_slice(edges)?;
    Ok(list)
}

/// Loops that were looked at. Each loop that is as wanted is within one of them.
#[derive(Drop)]
struct Loops {
    alloc: Global,
    wish: Wish,
    /// Those that are as wanted.
    found: Vec<Vec<Edge>>,
    /// Those that are not, and are looked into next.
    pending: Vec<Vec<Edge>>,
}

impl Loops {
    /// The loops that are as wanted.
    fn into_found(self) -> Vec<Vec<Edge>> {
        let Loops { found, .. } = self;
        found
    }

    /// Finds the loops within some edges.
    fn find(&mut self, diagrams: &mut Diagrams, edges: &[Edge]) -> Result<(), Stop> {
        self.look_into(diagrams, edges)?;
        for _ in 1..LOOPS {
            let Some(edges) = self.pending.pop() else {
                return Ok(());
            };
            self.look_into(diagrams, &edges)?;
        }
        Err(Stop::Limit)
    }

    /// Adds loops within some edges.
    fn look_into(&mut self, diagrams: &mut Diagrams, edges: &[Edge]) -> Result<(), Stop> {
        let sets = largest_sets(self.alloc, diagrams, self.wish, marks_of(edges))?;
        for set in &sets {
            diagrams.take(edges.len())?;
            self.add_all(diagrams, edges, *set)?;
        }
        Ok(())
    }

    /// Adds the loops of the edges whose marks are in a set.
    fn add_all(&mut self, diagrams: &Diagrams, edges: &[Edge], set: u64) -> Result<(), Stop> {
        for edges in loops_within(self.alloc, edges, set)? {
            let truths = self.wish.safeties | marks_of(&edges);
            if diagrams.is_true_at(self.wish.condition, truths) == self.wish.wanted {
                self.found.push(edges)?;
            } else {
                self.pending.push(edges)?;
            }
        }
        Ok(())
    }
}

/// The components of the edges whose marks are in a set.
fn loops_within(alloc: Global, edges: &[Edge], set: u64) -> Result<Vec<Vec<Edge>>, Stop> {
    let mut some = Vec::new(alloc);
    for edge in edges {
        if edge.marks & !set == 0 {
            some.push(*edge)?;
        }
    }
    components(alloc, &some)
}

/// The largest of the sets of some marks by which a condition is as wanted.
fn largest_sets(
    alloc: Global,
    diagrams: &mut Diagrams,
    wish: Wish,
    present: u64,
) -> Result<Vec<u64>, Stop> {
    let mut sets = Sets {
        wish,
        present,
        found: Vec::new(alloc),
        pending: Vec::new(alloc),
    };
    sets.find(diagrams)?;
    Ok(sets.into_found())
}

/// Sets of marks that are looked at.
#[derive(Drop)]
struct Sets {
    wish: Wish,
    /// The marks.
    present: u64,
    /// The sets by which the condition is as wanted.
    found: Vec<u64>,
    /// Nodes of the condition, each with the largest set that leads to it.
    pending: Vec<(Diagram, u64)>,
}

impl Sets {
    /// The sets by which the condition is as wanted.
    fn into_found(self) -> Vec<u64> {
        let Sets { found, .. } = self;
        found
    }

    /// Finds the largest sets.
    fn find(&mut self, diagrams: &mut Diagrams) -> Result<(), Stop> {
        self.pending.push((self.wish.condition, self.present))?;
        for _ in 0..SETS {
            let Some((node, set)) = self.pending.pop() else {
                return Ok(());
            };
            diagrams.take(self.found.len().saturating_add(1))?;
            if self.found.iter().all(|other| set & !*other != 0) {
                self.look_at(diagrams.view(node), node, set)?;
            }
        }
        Err(Stop::Limit)
    }

    /// Adds a set, or makes the sides of a node pending.
    fn look_at(&mut self, view: View, node: Diagram, set: u64) -> Result<(), Stop> {
        match view {
            View::Leaf(_) => {
                if (node == TRUE) == self.wish.wanted {
                    self.found.push(set)?;
                }
                Ok(())
            }
            View::Test(test) => self.add_sides(test, set),
        }
    }

    /// Makes the sides of a test pending, as far as sets lead to them.
    fn add_sides(&mut self, test: Test, set: u64) -> Result<(), Stop> {
        let Wish { safeties, .. } = self.wish;
        let bit = 1u64.checked_shl(test.variable).unwrap_or(0);
        if bit & safeties == 0 {
            self.pending.push((test.low, set & !bit))?;
        }
        if bit & (safeties | self.present) != 0 {
            self.pending.push((test.high, set))?;
        }
        Ok(())
    }
}

/// The condition of the states of a loop.
pub(crate) fn condition_of(machine: &Machine, edges: &[Edge]) -> Diagram {
    match edges.first() {
        Some(edge) => machine.kind(edge.source),
        None => TRUE,
    }
}

/// The marks of some edges.
pub(crate) fn marks_of(edges: &[Edge]) -> u64 {
    edges.iter().fold(0, |marks, edge| marks | edge.marks)
}
