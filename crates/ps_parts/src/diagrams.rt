//! Decision diagrams with numbers as leaves, over variables without a limit on their number.
//!
//! They are reduced and ordered (Bryant, "Graph-Based Algorithms for Boolean Function Manipulation", 1986), with leaves
//! that may be any number (Fujita, McGeer, Yang, "Multi-Terminal Binary Decision Diagrams", 1997). The first variables
//! are the propositions of a letter; the variables behind them stand for what is owed at the next index. So the part of
//! a diagram above the first variable that is no proposition is the table of what each letter leads to: its row. The
//! nodes at which a row ends are its ends.
//!
//! A variable is also its level: whoever wants another order numbers the variables by it. Each step of an operation is
//! taken from a budget; an operation on diagrams stops where the budget ends.

mod narrowing;
mod quantifiers;
mod results;
mod searching;
pub mod substitution;

use crate::diagrams::results::{Key, Results};
use crate::met::Met;
use crate::stop::{Stop, index, number_of};
use ps_keys::{KeyList, KeyMap};
use std::alloc::Global;

/// A diagram, as the number of its node.
pub type Diagram = u32;

/// The diagram that is false at each letter: the leaf 0.
pub const FALSE: Diagram = 0;

/// The diagram that is true at each letter: the leaf 1.
pub const TRUE: Diagram = 1;

/// The leaf of a row at letters that are refused.
pub const REFUSED: Diagram = 2;

/// The number of variables that are propositions.
pub const PROPOSITIONS: u32 = 64;

/// The variable of a leaf, which comes after all others.
const LEAF: u32 = u32::MAX;

/// The number of steps, in nodes made and results kept.
const STEPS: u32 = 12_000_000;

/// The most steps, so that the number of a node has less than 32 bits.
const MOST_STEPS: u32 = 1 << 30;

/// The most nodes of a diagram whose variables are listed.
const NODES: usize = 65_536;

/// How many variables a way through a diagram may test. Operations go down a diagram by recursion, to this depth.
pub const DEPTH: u32 = 1024;

/// What a node is.
#[derive(Clone, Copy)]
pub enum View {
    /// A number at each letter.
    Leaf(u32),
    /// A test of a variable, with the diagrams where it is false and where it is true.
    Test(Test),
}

/// A test of a variable, with the diagrams where it is false and where it is true.
#[derive(Clone, Copy)]
pub struct Test {
    pub variable: u32,
    pub low: Diagram,
    pub high: Diagram,
}

/// A variable with a truth.
#[derive(Clone, Copy)]
pub struct Literal {
    pub variable: u32,
    pub value: bool,
}

/// The two diagrams of a node at a variable.
#[derive(Clone, Copy)]
pub struct Sides {
    pub low: Diagram,
    pub high: Diagram,
}

/// A choice: the diagram that is `one` where `truth` is true, and `other` elsewhere.
#[derive(Clone, Copy)]
struct Choice {
    truth: Diagram,
    one: Diagram,
    other: Diagram,
}

impl Choice {
    /// The same choice: `truth` is true where it chooses `one`, and false where it chooses `other`.
    fn simplified(self) -> Self {
        let Choice { truth, one, other } = self;
        Choice {
            truth,
            one: if one == truth { TRUE } else { one },
            other: if other == truth { FALSE } else { other },
        }
    }
}

/// The ends of a row, as far as its nodes were met.
#[derive(Drop)]
struct Ends {
    met: Met,
    list: Vec<Diagram>,
}

impl Ends {
    /// The list of the ends.
    fn into_list(self) -> Vec<Diagram> {
        let Ends { list, .. } = self;
        list
    }
}

/// Diagrams, equal ones of which are one node.
#[derive(Drop)]
pub struct Diagrams {
    alloc: Global,
    /// The nodes: a variable and two nodes; or `LEAF` and a number, twice.
    nodes: KeyList<(u32, u32, u32)>,
    /// Results of choices, and of the other operations on Boolean diagrams.
    results: Results,
    /// The results of pairings of rows.
    pairings: KeyMap<(u32, u32), u32>,
    /// The pairs of ends that are leaves of paired rows.
    pairs: KeyList<(u32, u32)>,
    /// The steps that are left.
    steps: u32,
}

impl Diagrams {
    /// The constant diagrams.
    pub fn new(alloc: Global) -> Result<Self, Stop> {
        Diagrams::with_steps(alloc, STEPS)
    }

    /// The constant diagrams, with a number of steps for all operations on them, at most 2^30.
    pub fn with_steps(alloc: Global, steps: u32) -> Result<Self, Stop> {
        let mut diagrams = Diagrams {
            alloc,
            nodes: KeyList::new(alloc),
            results: Results::new(alloc),
            pairings: KeyMap::new(alloc),
            pairs: KeyList::new(alloc),
            steps: steps.min(MOST_STEPS),
        };
        for number in [0, 1, u32::MAX] {
            diagrams.leaf(number)?;
        }
        Ok(diagrams)
    }

    /// The number of steps that are left.
    pub fn steps(&self) -> u32 {
        self.steps
    }

    /// The number of nodes.
    pub fn len(&self) -> usize {
        self.nodes.len()
    }

    /// Takes a step from the budget.
    pub fn step(&mut self) -> Result<(), Stop> {
        self.steps = self.steps.checked_sub(1).ok_or(Stop::Limit)?;
        Ok(())
    }

    /// Takes some steps from the budget.
    pub fn take(&mut self, count: usize) -> Result<(), Stop> {
        let count = index(count)?;
        self.steps = self.steps.checked_sub(count).ok_or(Stop::Limit)?;
        Ok(())
    }

    /// The diagram that has a number at each letter.
    pub fn leaf(&mut self, number: u32) -> Result<Diagram, Stop> {
        number_of(&mut self.nodes, (LEAF, number, number))
    }

    /// The diagram of a test.
    pub fn test(&mut self, test: Test) -> Result<Diagram, Stop> {
        if test.low == test.high {
            return Ok(test.low);
        }
        self.step()?;
        number_of(&mut self.nodes, (test.variable, test.low, test.high))
    }

    /// The diagram that is true where a variable is.
    pub fn variable(&mut self, variable: u32) -> Result<Diagram, Stop> {
        self.test(Test {
            variable,
            low: FALSE,
            high: TRUE,
        })
    }

    /// The diagram that is true where a literal is.
    pub fn literal(&mut self, literal: Literal) -> Result<Diagram, Stop> {
        let truth = self.variable(literal.variable)?;
        if literal.value {
            Ok(truth)
        } else {
            self.negated(truth)
        }
    }

    /// What a node is.
    pub fn view(&self, diagram: Diagram) -> View {
        match self.nodes.as_slice().get(diagram as usize) {
            Some((variable, low, high)) => {
                if *variable == LEAF {
                    View::Leaf(*low)
                } else {
                    View::Test(Test {
                        variable: *variable,
                        low: *low,
                        high: *high,
                    })
                }
            }
            None => View::Leaf(0),
        }
    }

    /// The first variable that a node tests, or `LEAF`.
    pub fn level(&self, diagram: Diagram) -> u32 {
        match self.view(diagram) {
            View::Leaf(_) => LEAF,
            View::Test(test) => test.variable,
        }
    }

    /// The diagrams of a node where a variable is false and where it is true; the node tests no variable before it.
    pub fn sides(&self, diagram: Diagram, variable: u32) -> Sides {
        match self.view(diagram) {
            View::Test(test) if test.variable == variable => Sides {
                low: test.low,
                high: test.high,
            },
            _ => Sides {
                low: diagram,
                high: diagram,
            },
        }
    }

    /// The diagram that is `one` where `truth` is true, and `other` elsewhere.
    pub fn choose(
        &mut self,
        truth: Diagram,
        one: Diagram,
        other: Diagram,
    ) -> Result<Diagram, Stop> {
        self.chosen(DEPTH, Choice { truth, one, other })
    }

    /// The result of a choice, at a depth.
    fn chosen(&mut self, depth: u32, choice: Choice) -> Result<Diagram, Stop> {
        let choice = choice.simplified();
        if let Some(known) = self.chosen_at_once(choice) {
            return Ok(known);
        }
        if depth == 0 {
            return Err(Stop::Limit);
        }
        let variable = self.first_variable(choice);
        let (low, high) = self.parted(choice, variable);
        let low = self.chosen(depth - 1, low)?;
        let high = self.chosen(depth - 1, high)?;
        let test = Test {
            variable,
            low,
            high,
        };
        self.keep_choice(choice, test)
    }

    /// Keeps that the result of a choice is a test, and returns it.
    fn keep_choice(&mut self, choice: Choice, test: Test) -> Result<Diagram, Stop> {
        let made = self.test(test)?;
        let Choice { truth, one, other } = choice;
        self.results.put((truth, one, other), made)?;
        Ok(made)
    }

    /// The first variable that a diagram of a choice tests.
    fn first_variable(&self, choice: Choice) -> u32 {
        self.level(choice.truth)
            .min(self.level(choice.one))
            .min(self.level(choice.other))
    }

    /// The choices where a variable is false and where it is true; no diagram tests a variable before it.
    fn parted(&self, choice: Choice, variable: u32) -> (Choice, Choice) {
        let truth = self.sides(choice.truth, variable);
        let one = self.sides(choice.one, variable);
        let other = self.sides(choice.other, variable);
        let low = Choice {
            truth: truth.low,
            one: one.low,
            other: other.low,
        };
        let high = Choice {
            truth: truth.high,
            one: one.high,
            other: other.high,
        };
        (low, high)
    }

    /// The result of a choice, if it is known without looking further down.
    fn chosen_at_once(&self, choice: Choice) -> Option<Diagram> {
        let Choice { truth, one, other } = choice;
        if truth == TRUE || one == other {
            return Some(one);
        }
        if truth == FALSE {
            return Some(other);
        }
        if one == TRUE && other == FALSE {
            return Some(truth);
        }
        self.results.get((truth, one, other))
    }

    /// The diagram that is `low` where a variable is false, and `high` where it is true.
    pub fn split(&mut self, variable: u32, low: Diagram, high: Diagram) -> Result<Diagram, Stop> {
        let truth = self.variable(variable)?;
        self.choose(truth, high, low)
    }

    /// The conjunction.
    pub fn both(&mut self, first: Diagram, second: Diagram) -> Result<Diagram, Stop> {
        self.choose(first.min(second), first.max(second), FALSE)
    }

    /// The disjunction.
    pub fn either(&mut self, first: Diagram, second: Diagram) -> Result<Diagram, Stop> {
        self.choose(first.min(second), TRUE, first.max(second))
    }

    /// The negation.
    pub fn negated(&mut self, diagram: Diagram) -> Result<Diagram, Stop> {
        self.choose(diagram, FALSE, TRUE)
    }

    /// The diagram that is true where the first is and the second is not.
    pub fn difference(&mut self, first: Diagram, second: Diagram) -> Result<Diagram, Stop> {
        self.choose(second, FALSE, first)
    }

    /// Keeps a result, and returns it.
    fn keep(&mut self, key: Key, made: Diagram) -> Result<Diagram, Stop> {
        self.step()?;
        self.results.put(key, made)?;
        Ok(made)
    }

    /// Whether a row ends at a node.
    fn is_end(&self, diagram: Diagram) -> bool {
        self.level(diagram) >= PROPOSITIONS
    }

    /// The row whose end at a letter is a leaf with the number of the pair of the ends of two rows, which `pair`
    /// tells; or `REFUSED`, where one of them is.
    pub fn paired(&mut self, first: Diagram, second: Diagram) -> Result<Diagram, Stop> {
        self.paired_at(PROPOSITIONS, first, second)
    }

    /// Like `paired`, at a depth.
    fn paired_at(&mut self, depth: u32, first: Diagram, second: Diagram) -> Result<Diagram, Stop> {
        if let Some(known) = self.paired_at_once(first, second) {
            return Ok(known);
        }
        if depth == 0 || (self.is_end(first) && self.is_end(second)) {
            return self.paired_ends(first, second);
        }
        let variable = self.level(first).min(self.level(second));
        let left = self.sides(first, variable);
        let right = self.sides(second, variable);
        let low = self.paired_at(depth - 1, left.low, right.low)?;
        let high = self.paired_at(depth - 1, left.high, right.high)?;
        let test = Test {
            variable,
            low,
            high,
        };
        self.keep_pairing(first, second, test)
    }

    /// The row of a pairing, if it is known without looking further down.
    fn paired_at_once(&self, first: Diagram, second: Diagram) -> Option<Diagram> {
        if first == REFUSED || second == REFUSED {
            return Some(REFUSED);
        }
        self.pairings.get((first, second))
    }

    /// Notes that the row of a pairing is a test, and returns it.
    fn keep_pairing(
        &mut self,
        first: Diagram,
        second: Diagram,
        test: Test,
    ) -> Result<Diagram, Stop> {
        let made = self.test(test)?;
        self.pairings.put((first, second), made)?;
        Ok(made)
    }

    /// The leaf of a pair of ends.
    fn paired_ends(&mut self, first: Diagram, second: Diagram) -> Result<Diagram, Stop> {
        self.step()?;
        let number = number_of(&mut self.pairs, (first, second))?;
        self.leaf(number)
    }

    /// The two ends for whose pair an end of a paired row stands.
    pub fn pair(&self, end: Diagram) -> Result<(Diagram, Diagram), Stop> {
        match self.view(end) {
            View::Leaf(number) => {
                let pair = self.pairs.as_slice().get(number as usize);
                pair.copied().ok_or(Stop::Limit)
            }
            View::Test(_) => Err(Stop::Limit),
        }
    }

    /// The ends of a row but for `REFUSED`, each once.
    pub fn ends(&self, row: Diagram) -> Result<Vec<Diagram>, Stop> {
        let mut ends = Ends {
            met: Met::new(self.alloc),
            list: Vec::new(self.alloc),
        };
        self.add_ends(&mut ends, row)?;
        Ok(ends.into_list())
    }

    /// Adds the ends of a row, none of whose nodes was met.
    fn add_ends(&self, ends: &mut Ends, row: Diagram) -> Result<(), Stop> {
        ends.met.add(row)?;
        for place in 0..STEPS as usize {
            let Some(node) = ends.met.at(place) else {
                break;
            };
            self.look_at(ends, node)?;
        }
        Ok(())
    }

    /// Adds a node if it is an end, and else meets its sides.
    fn look_at(&self, ends: &mut Ends, node: Diagram) -> Result<(), Stop> {
        match self.view(node) {
            View::Test(test) if test.variable < PROPOSITIONS => {
                ends.met.add_both(test.low, test.high)
            }
            _ if node == REFUSED => Ok(()),
            _ => Ok(ends.list.push(node)?),
        }
    }

    /// The variables that a diagram depends on, of the first 64, one bit for each.
    pub fn support(&self, diagram: Diagram) -> Result<u64, Stop> {
        let mut met = Met::new(self.alloc);
        let mut support = 0;
        met.add(diagram)?;
        for place in 0..NODES {
            let Some(node) = met.at(place) else {
                return Ok(support);
            };
            if let View::Test(test) = self.view(node) {
                support |= 1u64.checked_shl(test.variable).unwrap_or(0);
                met.add_both(test.low, test.high)?;
            }
        }
        Err(Stop::Limit)
    }

    /// Whether a diagram is true where, of the first 64 variables, just some are, one bit for each.
    pub fn is_true_at(&self, diagram: Diagram, truths: u64) -> bool {
        let mut node = diagram;
        for _ in 0..=64 {
            match self.view(node) {
                View::Leaf(_) => break,
                View::Test(test) => {
                    let bit = 1u64.checked_shl(test.variable).unwrap_or(0);
                    node = if truths & bit == 0 {
                        test.low
                    } else {
                        test.high
                    };
                }
            }
        }
        node == TRUE
    }

    /// The row in which each of its ends is replaced by the diagram at the same place of a list; `REFUSED` stays.
    pub fn replaced(
        &mut self,
        row: Diagram,
        ends: &[Diagram],
        made: &[Diagram],
    ) -> Result<Diagram, Stop> {
        let mut known = KeyMap::new(self.alloc);
        for (end, made) in ends.iter().zip(made) {
            known.put(*end as u64, *made)?;
        }
        self.replaced_at(PROPOSITIONS, row, &mut known)
    }

    /// Like `replaced`, at a depth, with the results for the nodes that were met.
    fn replaced_at(
        &mut self,
        depth: u32,
        row: Diagram,
        known: &mut KeyMap<u64, Diagram>,
    ) -> Result<Diagram, Stop> {
        if let Some(made) = known.get(row as u64) {
            return Ok(made);
        }
        let test = match self.view(row) {
            View::Test(test) if test.variable < PROPOSITIONS && depth > 0 => test,
            _ => return Ok(row),
        };
        let low = self.replaced_at(depth - 1, test.low, known)?;
        let high = self.replaced_at(depth - 1, test.high, known)?;
        let made = self.test(Test {
            variable: test.variable,
            low,
            high,
        })?;
        known.put(row as u64, made)?;
        Ok(made)
    }
}
