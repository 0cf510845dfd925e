//! What is asked of a diagram.

use crate::diagrams::results::{Key, Operation, key_of_sparing};
use crate::diagrams::{DEPTH, Diagram, Diagrams, FALSE, Literal, TRUE, View};
use crate::met::Met;
use crate::stop::Stop;

/// The nodes of a diagram that were met, and their variables.
#[derive(Drop)]
struct Walk {
    nodes: Met,
    variables: Met,
}

impl Walk {
    /// Meets all nodes of a diagram.
    fn run(&mut self, diagrams: &mut Diagrams, diagram: Diagram) -> Result<(), Stop> {
        self.nodes.add(diagram)?;
        for place in 0..diagrams.len() {
            let Some(node) = self.nodes.at(place) else {
                break;
            };
            self.look_at(diagrams, node)?;
        }
        diagrams.take(self.nodes.len())
    }

    /// Meets the sides of a node.
    fn look_at(&mut self, diagrams: &Diagrams, node: Diagram) -> Result<(), Stop> {
        if let View::Test(test) = diagrams.view(node) {
            self.variables.add(test.variable)?;
            self.nodes.add_both(test.low, test.high)?;
        }
        Ok(())
    }
}

impl Diagrams {
    /// Whether two diagrams are both true at some letter.
    pub fn meets(&mut self, first: Diagram, second: Diagram) -> Result<bool, Stop> {
        Ok(self.both(first, second)? != FALSE)
    }

    /// Whether a diagram is true only where another is.
    pub fn is_within(&mut self, first: Diagram, second: Diagram) -> Result<bool, Stop> {
        self.within_at(DEPTH, first, second)
    }

    /// Like `is_within`, at a depth.
    fn within_at(&mut self, depth: u32, first: Diagram, second: Diagram) -> Result<bool, Stop> {
        if let Some(known) = self.within_at_once(first, second) {
            return Ok(known);
        }
        if depth == 0 {
            return Err(Stop::Limit);
        }
        let variable = self.level(first).min(self.level(second));
        let left = self.sides(first, variable);
        let right = self.sides(second, variable);
        let is_within = self.within_at(depth - 1, left.low, right.low)?
            && self.within_at(depth - 1, left.high, right.high)?;
        self.keep_truth(Operation::Within.key(first, second), is_within)
    }

    /// The result of `is_within`, if it is known without looking further down.
    fn within_at_once(&self, first: Diagram, second: Diagram) -> Option<bool> {
        if first == FALSE || second == TRUE || first == second {
            return Some(true);
        }
        if first == TRUE || second == FALSE {
            return Some(false);
        }
        let known = self.results.get(Operation::Within.key(first, second))?;
        Some(known == TRUE)
    }

    /// Whether some diagram between two bounds does not depend on a variable. The lower bound is true only where the
    /// upper one is.
    pub fn spares(&mut self, variable: u32, lower: Diagram, upper: Diagram) -> Result<bool, Stop> {
        self.spares_at(DEPTH, variable, lower, upper)
    }

    /// Like `spares`, at a depth.
    fn spares_at(
        &mut self,
        depth: u32,
        variable: u32,
        lower: Diagram,
        upper: Diagram,
    ) -> Result<bool, Stop> {
        let first = self.level(lower).min(self.level(upper));
        if lower == FALSE || upper == TRUE || first > variable {
            return Ok(true);
        }
        let key = key_of_sparing(variable, lower, upper);
        if let Some(known) = self.results.get(key) {
            return Ok(known == TRUE);
        }
        if depth == 0 {
            return Err(Stop::Limit);
        }
        let least = self.sides(lower, first);
        let most = self.sides(upper, first);
        let spares = if first == variable {
            self.is_within(least.low, most.high)? && self.is_within(least.high, most.low)?
        } else {
            self.spares_at(depth - 1, variable, least.low, most.low)?
                && self.spares_at(depth - 1, variable, least.high, most.high)?
        };
        self.keep_truth(key, spares)
    }

    /// Keeps a truth, and returns it.
    fn keep_truth(&mut self, key: Key, truth: bool) -> Result<bool, Stop> {
        self.keep(key, if truth { TRUE } else { FALSE })?;
        Ok(truth)
    }

    /// The variables that a diagram depends on, the least first.
    pub fn variables(&mut self, diagram: Diagram) -> Result<Vec<u32>, Stop> {
        let alloc = self.alloc;
        self.walked(diagram)?.variables.sorted(alloc)
    }

    /// The number of nodes of a diagram.
    pub fn size(&mut self, diagram: Diagram) -> Result<usize, Stop> {
        Ok(self.walked(diagram)?.nodes.len())
    }

    /// The nodes of a diagram, and their variables.
    fn walked(&mut self, diagram: Diagram) -> Result<Walk, Stop> {
        let mut walk = Walk {
            nodes: Met::new(self.alloc),
            variables: Met::new(self.alloc),
        };
        walk.run(self, diagram)?;
        Ok(walk)
    }

    /// The literals of the first way through a diagram that does not lead to FALSE, where false is before true.
    pub fn way(&self, diagram: Diagram) -> Result<Vec<Literal>, Stop> {
        let mut way = Vec::new(self.alloc);
        let mut node = diagram;
        for _ in 0..DEPTH {
            let View::Test(test) = self.view(node) else {
                break;
            };
            let value = test.low == FALSE;
            way.push(Literal {
                variable: test.variable,
                value,
            })?;
            node = if value { test.high } else { test.low };
        }
        Ok(way)
    }
}
