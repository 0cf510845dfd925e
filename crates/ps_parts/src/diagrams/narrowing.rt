//! Diagrams that matter only where another one is true, and diagrams between two bounds.
//!
//! The first are the generalised cofactor and the restriction of Coudert, Madre, "A Unified Framework for the Formal
//! Verification of Sequential Circuits", 1990.

use crate::diagrams::results::Operation;
use crate::diagrams::{DEPTH, Diagram, Diagrams, FALSE, Literal, Sides, TRUE, Test};
use crate::stop::Stop;

impl Diagrams {
    /// The generalised cofactor: at a letter of `care` the given diagram, elsewhere as it is at a letter of `care`
    /// nearby. So by a conjunction of literals it is the diagram with these truths put in, and some diagrams take at
    /// all letters just the values together that they take in `care`. If `care` is false, it is the given diagram.
    pub fn constrained(&mut self, diagram: Diagram, care: Diagram) -> Result<Diagram, Stop> {
        self.narrowed(DEPTH, Operation::Constrained, diagram, care)
    }

    /// A diagram that is the given one where `care` is true, and elsewhere as is short; it tests no further variables.
    pub fn restricted(&mut self, diagram: Diagram, care: Diagram) -> Result<Diagram, Stop> {
        self.narrowed(DEPTH, Operation::Restricted, diagram, care)
    }

    /// The diagram with a truth of a variable put in.
    pub fn fixed(&mut self, diagram: Diagram, literal: Literal) -> Result<Diagram, Stop> {
        let care = self.literal(literal)?;
        self.constrained(diagram, care)
    }

    /// The diagram with a variable replaced by a diagram.
    pub fn composed(
        &mut self,
        diagram: Diagram,
        variable: u32,
        made: Diagram,
    ) -> Result<Diagram, Stop> {
        let low = self.fixed(
            diagram,
            Literal {
                variable,
                value: false,
            },
        )?;
        let high = self.fixed(
            diagram,
            Literal {
                variable,
                value: true,
            },
        )?;
        self.choose(made, high, low)
    }

    /// A diagram that is true where `lower` is and only where `upper` is, and that tests few variables: each is left
    /// out if the bounds allow it, the first one first. `lower` is true only where `upper` is.
    pub fn between(&mut self, lower: Diagram, upper: Diagram) -> Result<Diagram, Stop> {
        self.between_at(DEPTH, lower, upper)
    }

    /// Like `constrained` and `restricted`, at a depth.
    fn narrowed(
        &mut self,
        depth: u32,
        kind: Operation,
        diagram: Diagram,
        care: Diagram,
    ) -> Result<Diagram, Stop> {
        if let Some(known) = self.narrowed_at_once(kind, diagram, care) {
            return Ok(known);
        }
        if depth == 0 {
            return Err(Stop::Limit);
        }
        let variable = self.level(diagram).min(self.level(care));
        let within = self.sides(care, variable);
        let sides = self.sides(diagram, variable);
        let made = if within.low == FALSE {
            self.narrowed(depth - 1, kind, sides.high, within.high)?
        } else if within.high == FALSE {
            self.narrowed(depth - 1, kind, sides.low, within.low)?
        } else if kind == Operation::Restricted && sides.low == sides.high {
            let either = self.either(within.low, within.high)?;
            self.narrowed(depth - 1, kind, diagram, either)?
        } else {
            let low = self.narrowed(depth - 1, kind, sides.low, within.low)?;
            let high = self.narrowed(depth - 1, kind, sides.high, within.high)?;
            self.test(Test {
                variable,
                low,
                high,
            })?
        };
        self.keep(kind.key(diagram, care), made)
    }

    /// The result of `narrowed`, if it is known without looking further down.
    fn narrowed_at_once(
        &self,
        kind: Operation,
        diagram: Diagram,
        care: Diagram,
    ) -> Option<Diagram> {
        if care <= TRUE || diagram <= TRUE {
            return Some(diagram);
        }
        if diagram == care {
            return Some(TRUE);
        }
        self.results.get(kind.key(diagram, care))
    }

    /// Like `between`, at a depth.
    fn between_at(&mut self, depth: u32, lower: Diagram, upper: Diagram) -> Result<Diagram, Stop> {
        if let Some(known) = self.between_at_once(lower, upper) {
            return Ok(known);
        }
        if depth == 0 {
            return Err(Stop::Limit);
        }
        let variable = self.level(lower).min(self.level(upper));
        let (least, most) = (self.sides(lower, variable), self.sides(upper, variable));
        let bounds = self.without_test(least, most)?;
        let made = if self.is_within(bounds.low, bounds.high)? {
            self.between_at(depth - 1, bounds.low, bounds.high)?
        } else {
            let low = self.between_at(depth - 1, least.low, most.low)?;
            let high = self.between_at(depth - 1, least.high, most.high)?;
            self.test(Test {
                variable,
                low,
                high,
            })?
        };
        self.keep(Operation::Between.key(lower, upper), made)
    }

    /// The bounds of a diagram that has the same value for both truths of a variable, from the sides of its bounds.
    fn without_test(&mut self, least: Sides, most: Sides) -> Result<Sides, Stop> {
        let low = self.either(least.low, least.high)?;
        let high = self.both(most.low, most.high)?;
        Ok(Sides { low, high })
    }

    /// The result of `between`, if it is known without looking further down.
    fn between_at_once(&self, lower: Diagram, upper: Diagram) -> Option<Diagram> {
        if lower == FALSE || lower == upper {
            return Some(lower);
        }
        if upper == TRUE {
            return Some(TRUE);
        }
        self.results.get(Operation::Between.key(lower, upper))
    }
}
