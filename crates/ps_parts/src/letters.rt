//! The letters that lead from a state to each end of its row.
//!
//! They are found in one pass over the row, from its ends up: a node has the ends of its two sides, and for each of
//! them the letters of both.

use crate::diagrams::{Diagram, Diagrams, FALSE, PROPOSITIONS, REFUSED, TRUE, Test, View};
use crate::stop::Stop;
use ps_keys::KeyMap;
use std::alloc::Global;

/// The number of ways at which what is known is forgotten, before the next row.
const WAYS: usize = 1 << 20;

/// An end of a row.
#[derive(Clone, Copy)]
pub struct Way {
    pub end: Diagram,
    /// The letters that lead to it.
    pub letters: Diagram,
}

/// No end.
const NONE: Diagram = u32::MAX;

/// Some ways that stand one behind the other.
#[derive(Clone, Copy)]
struct Span {
    start: usize,
    stop: usize,
}

/// The ways of the nodes that were met.
#[derive(Drop)]
pub struct Letters {
    alloc: Global,
    ways: Vec<Way>,
    /// The ways of each node, by the numbers of their ends.
    spans: KeyMap<u64, Span>,
}

impl Letters {
    /// Of no nodes.
    pub fn new(alloc: Global) -> Self {
        Letters {
            alloc,
            ways: Vec::new(alloc),
            spans: KeyMap::new(alloc),
        }
    }

    /// The ends of a row but for `REFUSED`, with their letters.
    pub fn of(&mut self, diagrams: &mut Diagrams, row: Diagram) -> Result<Vec<Way>, Stop> {
        if self.ways.len() > WAYS {
            self.ways = Vec::new(self.alloc);
            self.spans = KeyMap::new(self.alloc);
        }
        let span = self.of_node(PROPOSITIONS, diagrams, row)?;
        let mut ways = Vec::new(self.alloc);
        for way in self.ways.iter().take(span.stop).skip(span.start) {
            ways.push(*way)?;
        }
        Ok(ways)
    }

    /// The ways of a node, at a depth.
    fn of_node(
        &mut self,
        depth: u32,
        diagrams: &mut Diagrams,
        node: Diagram,
    ) -> Result<Span, Stop> {
        if let Some(known) = self.spans.get(node as u64) {
            return Ok(known);
        }
        let span = match diagrams.view(node) {
            View::Test(test) if test.variable < PROPOSITIONS && depth > 0 => {
                let low = self.of_node(depth - 1, diagrams, test.low)?;
                let high = self.of_node(depth - 1, diagrams, test.high)?;
                self.joined(diagrams, test.variable, low, high)?
            }
            _ => self.end(node)?,
        };
        self.spans.put(node as u64, span)?;
        Ok(span)
    }

    /// The one way of an end, or none of `REFUSED`.
    fn end(&mut self, end: Diagram) -> Result<Span, Stop> {
        let start = self.ways.len();
        if end != REFUSED {
            self.ways.push(Way { end, letters: TRUE })?;
        }
        Ok(Span {
            start,
            stop: self.ways.len(),
        })
    }

    /// The ways of a node, from those of its sides.
    fn joined(
        &mut self,
        diagrams: &mut Diagrams,
        variable: u32,
        low: Span,
        high: Span,
    ) -> Result<Span, Stop> {
        let start = self.ways.len();
        let (mut low, mut high) = (low, high);
        for _ in 0..start.saturating_mul(2) {
            let end = self.first(low).end.min(self.first(high).end);
            if end == NONE {
                break;
            }
            let letters = diagrams.test(Test {
                variable,
                low: self.taken(&mut low, end),
                high: self.taken(&mut high, end),
            })?;
            self.ways.push(Way { end, letters })?;
        }
        diagrams.take(self.ways.len().saturating_sub(start))?;
        Ok(Span {
            start,
            stop: self.ways.len(),
        })
    }

    /// The first of some ways, or one that leads to no end.
    fn first(&self, span: Span) -> Way {
        match self.ways.get(span.start) {
            Some(way) if span.start < span.stop => *way,
            _ => Way {
                end: NONE,
                letters: FALSE,
            },
        }
    }

    /// Takes the first of some ways if it leads to an end, and returns its letters.
    fn taken(&self, span: &mut Span, end: Diagram) -> Diagram {
        let first = self.first(*span);
        if first.end != end {
            return FALSE;
        }
        span.start = span.start.saturating_add(1);
        first.letters
    }
}
