//! What holds for some, or for all, truths of some variables.
//!
//! The variables are given as a cube, their conjunction. That of a conjunction is made at once (Burch, Clarke,
//! McMillan, Dill, Hwang, "Symbolic Model Checking: 10^20 States and Beyond", 1990).

use crate::diagrams::results::{Operation, key_of_both};
use crate::diagrams::{DEPTH, Diagram, Diagrams, FALSE, Literal, TRUE, Test, View};
use crate::stop::Stop;

impl Diagrams {
    /// The conjunction of variables, at best rising ones: the cube that the calls below take.
    pub fn cube(&mut self, variables: &[u32]) -> Result<Diagram, Stop> {
        let mut cube = TRUE;
        for variable in variables.iter().rev() {
            let one = self.variable(*variable)?;
            cube = self.both(one, cube)?;
        }
        Ok(cube)
    }

    /// The conjunction of literals, at best with rising variables.
    pub fn product(&mut self, literals: &[Literal]) -> Result<Diagram, Stop> {
        let mut product = TRUE;
        for literal in literals.iter().rev() {
            let one = self.literal(*literal)?;
            product = self.both(one, product)?;
        }
        Ok(product)
    }

    /// The diagram that is true where the given one is, for some truths of the variables of a cube.
    pub fn exists(&mut self, cube: Diagram, diagram: Diagram) -> Result<Diagram, Stop> {
        self.quantified(DEPTH, Operation::Exists, cube, diagram)
    }

    /// The diagram that is true where the given one is, for all truths of the variables of a cube.
    pub fn forall(&mut self, cube: Diagram, diagram: Diagram) -> Result<Diagram, Stop> {
        self.quantified(DEPTH, Operation::Forall, cube, diagram)
    }

    /// `exists` of the conjunction of two diagrams.
    pub fn exists_both(
        &mut self,
        cube: Diagram,
        first: Diagram,
        second: Diagram,
    ) -> Result<Diagram, Stop> {
        self.both_quantified(DEPTH, cube, first, second)
    }

    /// The cube without its variables before a level.
    fn cube_from(&self, cube: Diagram, level: u32) -> Diagram {
        let mut rest = cube;
        for _ in 0..DEPTH {
            match self.view(rest) {
                View::Test(test) if test.variable < level => rest = test.high,
                _ => break,
            }
        }
        rest
    }

    /// Like `exists` and `forall`, at a depth.
    fn quantified(
        &mut self,
        depth: u32,
        quantifier: Operation,
        cube: Diagram,
        diagram: Diagram,
    ) -> Result<Diagram, Stop> {
        let cube = self.cube_from(cube, self.level(diagram));
        let View::Test(test) = self.view(diagram) else {
            return Ok(diagram);
        };
        if cube == TRUE {
            return Ok(diagram);
        }
        let key = quantifier.key(diagram, cube);
        if let Some(known) = self.results.get(key) {
            return Ok(known);
        }
        if depth == 0 {
            return Err(Stop::Limit);
        }
        let is_bound = self.level(cube) == test.variable;
        let low = self.quantified(depth - 1, quantifier, cube, test.low)?;
        if is_bound && low == deciding(quantifier) {
            return self.keep(key, low);
        }
        let high = self.quantified(depth - 1, quantifier, cube, test.high)?;
        let made = if is_bound {
            self.joined(quantifier, low, high)?
        } else {
            self.test(Test { low, high, ..test })?
        };
        self.keep(key, made)
    }

    /// The diagram that is true where some, or all, of two diagrams are.
    fn joined(
        &mut self,
        quantifier: Operation,
        low: Diagram,
        high: Diagram,
    ) -> Result<Diagram, Stop> {
        if quantifier == Operation::Exists {
            self.either(low, high)
        } else {
            self.both(low, high)
        }
    }

    /// Like `exists_both`, at a depth.
    fn both_quantified(
        &mut self,
        depth: u32,
        cube: Diagram,
        first: Diagram,
        second: Diagram,
    ) -> Result<Diagram, Stop> {
        let (first, second) = (first.min(second), first.max(second));
        if first == FALSE {
            return Ok(FALSE);
        }
        if first == TRUE || first == second {
            return self.exists(cube, second);
        }
        let variable = self.level(first).min(self.level(second));
        let cube = self.cube_from(cube, variable);
        if cube == TRUE {
            return self.both(first, second);
        }
        let key = key_of_both(cube, first, second);
        if let Some(known) = self.results.get(key) {
            return Ok(known);
        }
        if depth == 0 {
            return Err(Stop::Limit);
        }
        let is_bound = self.level(cube) == variable;
        let (left, right) = (self.sides(first, variable), self.sides(second, variable));
        let low = self.both_quantified(depth - 1, cube, left.low, right.low)?;
        if is_bound && low == TRUE {
            return self.keep(key, low);
        }
        let high = self.both_quantified(depth - 1, cube, left.high, right.high)?;
        let made = if is_bound {
            self.either(low, high)?
        } else {
            self.test(Test {
                variable,
                low,
                high,
            })?
        };
        self.keep(key, made)
    }
}

/// The constant that decides a quantifier, if the diagram is that for one truth of a variable.
fn deciding(quantifier: Operation) -> Diagram {
    if quantifier == Operation::Exists {
        TRUE
    } else {
        FALSE
    }
}
