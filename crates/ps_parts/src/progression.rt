//! Progression: what a formula owes at the next index, once a letter has been read.
//!
//! What is owed at an index is a diagram over atoms, which are formulas without a Boolean operator at the top. When a
//! letter is read, each atom is replaced by its expansion, by the laws `f U g = g || (f && X (f U g))` and
//! `f R g = g && (f || X (f R g))`. So a diagram over atoms becomes a row: a diagram over the propositions of the
//! letter, and behind them over the atoms that are owed next. (Bacchus, Kabanza, "Using Temporal Logics to Express
//! Search Control Knowledge for Planning", 2000; Esparza, Kretinsky, Sickert, "From LTL to Deterministic Automata",
//! 2016.)

use crate::diagrams::{DEPTH, Diagram, Diagrams, FALSE, PROPOSITIONS, TRUE, View};
use crate::forms::{self, Form, Forms};
use crate::met::Met;
use crate::stop::{Stop, number_of};
use ps_formula::NormalNode;
use ps_keys::{KeyList, KeyMap};
use std::alloc::Global;

/// The most formulas below a formula that is made into diagrams.
const FORMULAS: usize = 65_536;

/// A formula as a diagram.
#[derive(Clone, Copy)]
struct Moment {
    /// Over atoms: before a letter is read.
    owed: Diagram,
    /// Over propositions, and the atoms of the next index: while a letter is read.
    read: Diagram,
}

/// Formulas, with their diagrams.
#[derive(Drop)]
pub struct Progression {
    alloc: Global,
    pub forms: Forms,
    pub diagrams: Diagrams,
    /// Whether a formula was brought nearer to the normal form.
    pub is_normalised: bool,
    /// The atoms, whose variables come behind those of the propositions, in this order.
    atoms: KeyList<u64>,
    /// The diagrams of formulas.
    moments: KeyMap<u64, Moment>,
    /// The results of `stepped`.
    stepped: KeyMap<u64, Diagram>,
    /// The results of `settled`.
    settled: KeyMap<u64, Diagram>,
    /// The formulas that `formula` leaves out.
    standing: KeyList<u64>,
    /// The results of `formula`.
    formulas: KeyMap<u64, Form>,
}

impl Progression {
    /// Without formulas.
    pub fn new(alloc: Global) -> Result<Self, Stop> {
        Progression::over(alloc, Diagrams::new(alloc)?)
    }

    /// Without formulas, with a number of steps.
    pub fn with_steps(alloc: Global, steps: u32) -> Result<Self, Stop> {
        Progression::over(alloc, Diagrams::with_steps(alloc, steps)?)
    }

    /// Without formulas, over diagrams.
    fn over(alloc: Global, diagrams: Diagrams) -> Result<Self, Stop> {
        let forms = Forms::new(alloc)?;
        Ok(Progression {
            alloc,
            forms,
            diagrams,
            is_normalised: false,
            atoms: KeyList::new(alloc),
            moments: KeyMap::new(alloc),
            stepped: KeyMap::new(alloc),
            settled: KeyMap::new(alloc),
            standing: KeyList::new(alloc),
            formulas: KeyMap::new(alloc),
        })
    }

    /// What a formula owes at the index at which it is to hold.
    pub fn owed(&mut self, form: Form) -> Result<Diagram, Stop> {
        let moment = self.moment(form)?;
        Ok(moment.owed)
    }

    /// What is owed after a letter, as a row.
    pub fn stepped(&mut self, owed: Diagram) -> Result<Diagram, Stop> {
        self.stepped_at(DEPTH, owed)
    }

    /// Like `stepped`, at a depth.
    fn stepped_at(&mut self, depth: u32, owed: Diagram) -> Result<Diagram, Stop> {
        let View::Test(test) = self.diagrams.view(owed) else {
            return Ok(owed);
        };
        if let Some(known) = self.stepped.get(owed as u64) {
            return Ok(known);
        }
        if depth == 0 {
            return Err(Stop::Limit);
        }
        let low = self.stepped_at(depth - 1, test.low)?;
        let high = self.stepped_at(depth - 1, test.high)?;
        let read = self.read(test.variable)?;
        let made = self.diagrams.choose(read, high, low)?;
        self.stepped.put(owed as u64, made)?;
        Ok(made)
    }

    /// The expansion of the atom of a variable.
    fn read(&mut self, variable: u32) -> Result<Diagram, Stop> {
        let form = self.atom(variable)?;
        let moment = self.moment(form)?;
        Ok(moment.read)
    }

    /// The atom of a variable.
    fn atom(&self, variable: u32) -> Result<Form, Stop> {
        let place = variable.checked_sub(PROPOSITIONS).ok_or(Stop::Limit)?;
        let form = self
            .atoms
            .as_slice()
            .get(place as usize)
            .ok_or(Stop::Limit)?;
        u32::try_from(*form).map_err(|_error| Stop::Limit)
    }

    /// What is owed if all atoms that are no guarantees are kept.
    pub fn settled(&mut self, owed: Diagram) -> Result<Diagram, Stop> {
        self.settled_at(DEPTH, owed)
    }

    /// Like `settled`, at a depth.
    fn settled_at(&mut self, depth: u32, owed: Diagram) -> Result<Diagram, Stop> {
        let View::Test(test) = self.diagrams.view(owed) else {
            return Ok(owed);
        };
        if let Some(known) = self.settled.get(owed as u64) {
            return Ok(known);
        }
        if depth == 0 {
            return Err(Stop::Limit);
        }
        let atom = self.atom(test.variable)?;
        let high = self.settled_at(depth - 1, test.high)?;
        let made = if self.forms.class(atom).is_guarantee {
            let low = self.settled_at(depth - 1, test.low)?;
            self.diagrams.split(test.variable, low, high)?
        } else {
            high
        };
        self.settled.put(owed as u64, made)?;
        Ok(made)
    }

    /// From now on, `formula` leaves out some atoms.
    pub fn leave_out(&mut self, standing: KeyList<u64>) {
        self.standing = standing;
        self.formulas = KeyMap::new(self.alloc);
    }

    /// A formula for what is owed, but for what is left out.
    pub fn formula(&mut self, owed: Diagram) -> Result<Form, Stop> {
        self.formula_at(DEPTH, owed)
    }

    /// Like `formula`, at a depth. Of an atom that is not bounded, the truth is better than the falsehood.
    fn formula_at(&mut self, depth: u32, owed: Diagram) -> Result<Form, Stop> {
        let View::Test(test) = self.diagrams.view(owed) else {
            return Ok(if owed == TRUE {
                forms::TRUE
            } else {
                forms::FALSE
            });
        };
        if let Some(known) = self.formulas.get(owed as u64) {
            return Ok(known);
        }
        if depth == 0 {
            return Err(Stop::Limit);
        }
        let atom = self.atom(test.variable)?;
        let high = self.formula_at(depth - 1, test.high)?;
        let made = if self.standing.find(atom as u64).is_some() {
            high
        } else {
            let low = self.formula_at(depth - 1, test.low)?;
            self.forms.chosen(atom, high, low)?
        };
        self.formulas.put(owed as u64, made)?;
        Ok(made)
    }

    /// The diagrams of a formula.
    fn moment(&mut self, form: Form) -> Result<Moment, Stop> {
        if let Some(known) = self.moments.get(form as u64) {
            return Ok(known);
        }
        let below = self.unknown_below(form)?;
        for each in &below {
            if self.moments.get(*each as u64).is_none() {
                self.add(*each)?;
            }
        }
        self.known(form)
    }

    /// The diagrams of a formula that were made before.
    fn known(&self, form: Form) -> Result<Moment, Stop> {
        self.moments.get(form as u64).ok_or(Stop::Limit)
    }

    /// A formula and the formulas below it as far as their diagrams are not made, operands first; and the operands of
    /// those.
    fn unknown_below(&self, form: Form) -> Result<Vec<Form>, Stop> {
        let mut met = Met::new(self.alloc);
        self.meet_unknown(&mut met, form)?;
        met.sorted(self.alloc)
    }

    /// Meets these formulas.
    fn meet_unknown(&self, met: &mut Met, form: Form) -> Result<(), Stop> {
        met.add(form)?;
        for place in 0..FORMULAS {
            let Some(next) = met.at(place) else {
                return Ok(());
            };
            if self.moments.get(next as u64).is_none() {
                let sides = self.forms.sides(next);
                met.add_both(sides.left, sides.right)?;
            }
        }
        Err(Stop::Limit)
    }

    /// Makes the diagrams of a formula, from those of its operands.
    fn add(&mut self, form: Form) -> Result<(), Stop> {
        let moment = self.made_moment(form)?;
        self.moments.put(form as u64, moment)?;
        Ok(())
    }

    /// The diagrams of a formula, from those of its operands.
    fn made_moment(&mut self, form: Form) -> Result<Moment, Stop> {
        match self.forms.node(form) {
            NormalNode::Constant(value) => Ok(constant(value)),
            NormalNode::Proposition(p) => self.literal(form, p, true),
            NormalNode::Negated(p) => self.literal(form, p, false),
            NormalNode::And(f, g) => self.both(f, g),
            NormalNode::Or(f, g) => self.either(f, g),
            NormalNode::Next(f) => self.next(form, f),
            NormalNode::Until(f, g) => self.until(form, f, g),
            NormalNode::Release(f, g) => self.release(form, f, g),
        }
    }

    /// The diagram of an atom that is owed. Of two atoms that are the negations of one another, and depend on finitely
    /// many letters, only one has a variable.
    fn owed_atom(&mut self, form: Form) -> Result<Diagram, Stop> {
        let is_negated = form & 1 == 1 && self.forms.class(form).is_bounded();
        let atom = if is_negated { form ^ 1 } else { form };
        let place = number_of(&mut self.atoms, atom as u64)?;
        let variable = place.checked_add(PROPOSITIONS).ok_or(Stop::Limit)?;
        let owed = self.diagrams.variable(variable)?;
        if is_negated {
            self.diagrams.negated(owed)
        } else {
            Ok(owed)
        }
    }

    /// The diagrams of a proposition or its negation.
    fn literal(&mut self, form: Form, p: u32, value: bool) -> Result<Moment, Stop> {
        if p >= PROPOSITIONS {
            return Err(Stop::Limit);
        }
        let owed = self.owed_atom(form)?;
        let truth = self.diagrams.variable(p)?;
        let read = if value {
            truth
        } else {
            self.diagrams.negated(truth)?
        };
        Ok(Moment { owed, read })
    }

    /// The diagrams of `f && g`.
    fn both(&mut self, f: Form, g: Form) -> Result<Moment, Stop> {
        let (f, g) = (self.known(f)?, self.known(g)?);
        let owed = self.diagrams.both(f.owed, g.owed)?;
        let read = self.diagrams.both(f.read, g.read)?;
        Ok(Moment { owed, read })
    }

    /// The diagrams of `f || g`.
    fn either(&mut self, f: Form, g: Form) -> Result<Moment, Stop> {
        let (f, g) = (self.known(f)?, self.known(g)?);
        let owed = self.diagrams.either(f.owed, g.owed)?;
        let read = self.diagrams.either(f.read, g.read)?;
        Ok(Moment { owed, read })
    }

    /// The diagrams of `X f`.
    fn next(&mut self, form: Form, f: Form) -> Result<Moment, Stop> {
        let owed = self.owed_atom(form)?;
        let read = self.known(f)?.owed;
        Ok(Moment { owed, read })
    }

    /// The diagrams of `f U g`.
    fn until(&mut self, form: Form, f: Form, g: Form) -> Result<Moment, Stop> {
        let (f, g) = (self.known(f)?, self.known(g)?);
        let owed = self.owed_atom(form)?;
        let goes_on = self.diagrams.both(f.read, owed)?;
        let read = self.diagrams.either(g.read, goes_on)?;
        Ok(Moment { owed, read })
    }

    /// The diagrams of `f R g`.
    fn release(&mut self, form: Form, f: Form, g: Form) -> Result<Moment, Stop> {
        let (f, g) = (self.known(f)?, self.known(g)?);
        let owed = self.owed_atom(form)?;
        let goes_on = self.diagrams.either(f.read, owed)?;
        let read = self.diagrams.both(g.read, goes_on)?;
        Ok(Moment { owed, read })
    }
}

/// The diagrams of a constant.
fn constant(value: bool) -> Moment {
    let truth = if value { TRUE } else { FALSE };
    Moment {
        owed: truth,
        read: truth,
    }
}
