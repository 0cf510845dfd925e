//! A formula as a Boolean function of parts, each of which has an automaton of its own.
//!
//! The formula is parted where its top is Boolean. Operands of a conjunction that are safeties make one part, as do
//! those that are guarantees, and those of the form `G F f`; a disjunction is parted as the negation of a conjunction.

pub mod normal;

use crate::diagrams::{self, Diagram};
use crate::forms::{FALSE, Form, Forms, TRUE};
use crate::part::{Kind, Part};
use crate::progression::Progression;
use crate::split::normal::normalised;
use crate::stop::{Stop, index};
use ps_formula::NormalNode;
use ps_keys::KeyMap;
use std::alloc::Global;

/// The most parts.
const PARTS: usize = 64;

/// The most parts where each operand is one of its own.
const EACH: usize = 512;

/// The steps of the budget that are spared for other ways, if a formula is to be parted into fewer parts.
const SPARED: usize = 9_000_000;

/// How deep the Boolean operators at the top of a formula may be nested.
const NESTING: u32 = 256;

/// Operands of a conjunction.
#[derive(Drop)]
struct Groups {
    /// The conjunction of the safeties.
    safety: Form,
    /// The conjunction of the other guarantees.
    guarantee: Form,
    /// The conjunction of the formulas `F G f`.
    lasting: Form,
    /// The conjunction of the formulas `G F f`.
    again: Form,
    /// The formulas `F f` of those.
    goals: Vec<Form>,
    /// The other operands, and behind them the conjunctions but that of the formulas `G F f`.
    others: Vec<Form>,
}

/// How far a formula may be parted.
#[derive(Clone, Copy, PartialEq, Eq)]
pub enum Extent {
    /// Into few parts, by few steps towards the normal form.
    Few,
    /// Into some more.
    Some,
    /// Into many parts, by any number of steps of the kinds that always come to an end.
    Many,
    /// The same, but parts with the same automaton are one, as `Merging` tells.
    Merged,
    /// Into a part for each operand of a conjunction, also inside `G`, but that those which depend on finitely many
    /// letters are one.
    Each,
}

impl Extent {
    /// The most parts.
    fn most(self) -> usize {
        match self {
            Extent::Few => 4,
            Extent::Some => 12,
            Extent::Many | Extent::Merged => PARTS,
            Extent::Each => EACH,
        }
    }

    /// Whether there are further ways behind this one.
    fn is_narrow(self) -> bool {
        self.most() < PARTS
    }
}

/// A way to part a formula.
#[derive(Clone, Copy)]
pub struct Way {
    /// Whether what is brought nearer to the normal form is the negation.
    pub is_negated: bool,
    pub extent: Extent,
}

/// A search for parts with the same automaton.
pub trait Merging {
    /// The diagram of a part: a constant if it accepts all words or none, that of a part with the same automaton, or
    /// the given one.
    fn diagram(
        &mut self,
        world: &mut Progression,
        kind: Kind,
        forms: &[Form],
        given: Diagram,
    ) -> Result<Diagram, Stop>;
}

/// No search: each part stands for itself.
#[derive(Drop)]
pub struct Apart;

impl Merging for Apart {
    fn diagram(
        &mut self,
        _world: &mut Progression,
        _kind: Kind,
        _forms: &[Form],
        given: Diagram,
    ) -> Result<Diagram, Stop> {
        Ok(given)
    }
}

/// The parts of a formula.
#[derive(Drop)]
pub struct Split<M> {
    alloc: Global,
    pub parts: Vec<Part>,
    /// The diagram of each formula that is a part.
    known: KeyMap<u64, Diagram>,
    /// What tells which parts have the same automaton, if those are one.
    merging: M,
    way: Way,
    /// The number of steps towards the normal form.
    steps: usize,
}

impl<M: Merging + Drop> Split<M> {
    /// No parts.
    pub fn new(alloc: Global, way: Way, merging: M) -> Self {
        Split {
            alloc,
            parts: Vec::new(alloc),
            known: KeyMap::new(alloc),
            merging,
            way,
            steps: 0,
        }
    }

    /// The parts.
    pub fn into_parts(self) -> Vec<Part> {
        self.parts
    }

    /// A formula as a diagram, in which the variable i stands for the part i.
    pub fn function(&mut self, world: &mut Progression, form: Form) -> Result<Diagram, Stop> {
        self.function_at(NESTING, world, form, self.way.is_negated)
    }

    /// Counts a step towards the normal form.
    fn step(&mut self, world: &mut Progression) -> Result<(), Stop> {
        world.is_normalised = true;
        if self.steps == 0 && self.way.extent.is_narrow() {
            world.diagrams.take(SPARED)?;
        }
        self.steps = self.steps.saturating_add(1);
        self.limited()
    }

    /// Fails if the formula is parted too far.
    fn limited(&self) -> Result<(), Stop> {
        let most = if self.steps > 0 {
            self.way.extent.most()
        } else {
            self.way.extent.most().max(PARTS)
        };
        let is_long = self.way.extent.is_narrow() && self.steps > most.saturating_mul(2);
        if self.parts.len() > most || is_long {
            return Err(Stop::Limit);
        }
        Ok(())
    }

    /// Like `function`, at a depth. A formula that stands for its negation is brought nearer to the normal form as this
    /// negation, since the steps for a formula undo those for its negation.
    #[cycle(function)]
    fn function_at(
        &mut self,
        depth: u32,
        world: &mut Progression,
        form: Form,
        is_negated: bool,
    ) -> Result<Diagram, Stop> {
        if form == FALSE || form == TRUE {
            return Ok(if form == TRUE {
                diagrams::TRUE
            } else {
                diagrams::FALSE
            });
        }
        if depth == 0 {
            return Err(Stop::Limit);
        }
        if self.way.extent == Extent::Each && is_many(world, form) {
            return self.each(depth - 1, world, form, is_negated);
        }
        if self.way.extent == Extent::Each
            && let Some(inner) = globally_many(world, form)
        {
            return self.globally_each(depth - 1, world, inner, is_negated);
        }
        if let Some(kind) = kind_of(world, form) {
            return self.single(world, kind, form, is_negated);
        }
        if is_conjunction(world, form) {
            return self.conjunction(depth - 1, world, form, is_negated);
        }
        if is_negated_first(world, form) {
            let negation = self.function_at(depth - 1, world, form ^ 1, !is_negated)?;
            return world.diagrams.negated(negation);
        }
        self.step(world)?;
        let sign = u32::from(is_negated);
        let is_parting = self.way.extent.is_narrow();
        let nearer = normalised(self.alloc, &mut world.forms, form ^ sign, is_parting)? ^ sign;
        self.function_at(depth - 1, world, nearer, is_negated)
    }

    /// Like `function_at`, of a conjunction.
    #[cycle(function)]
    fn conjunction(
        &mut self,
        depth: u32,
        world: &mut Progression,
        form: Form,
        is_negated: bool,
    ) -> Result<Diagram, Stop> {
        let groups = grouped(self.alloc, world, form)?;
        let mut made = self.rounds(world, &groups, is_negated)?;
        for operand in &groups.others {
            let one = self.function_at(depth, world, *operand, is_negated)?;
            made = world.diagrams.both(made, one)?;
        }
        Ok(made)
    }

    /// Like `function_at`, of a conjunction: its bounded operands are a part, as are some of the form `G f` where f
    /// speaks of one letter, each of which shares a proposition with one before it; each other operand is a part of its
    /// own.
    #[cycle(function)]
    fn each(
        &mut self,
        depth: u32,
        world: &mut Progression,
        form: Form,
        is_negated: bool,
    ) -> Result<Diagram, Stop> {
        let mut made = diagrams::TRUE;
        let mut bounded = TRUE;
        let mut instant = TRUE;
        for operand in &world.forms.operands(form)? {
            if world.forms.class(*operand).is_bounded() {
                bounded = world.forms.both(bounded, *operand)?;
            } else if let Some(inner) = globally_instant(world, *operand)?
                && is_near(&world.forms, instant, inner)?
            {
                instant = world.forms.both(instant, inner)?;
            } else {
                let one = self.function_at(depth, world, *operand, is_negated)?;
                made = world.diagrams.both(made, one)?;
            }
        }
        let kept = world.forms.release(FALSE, instant)?;
        let rest = self.safety(world, kept, is_negated)?;
        made = world.diagrams.both(made, rest)?;
        let rest = self.safety(world, bounded, is_negated)?;
        world.diagrams.both(made, rest)
    }

    /// Like `function_at`, of `G f` where f is a conjunction: `G` of each operand is a part, but that some which speak
    /// of one letter are one, each of which shares a proposition with one before it.
    #[cycle(function)]
    fn globally_each(
        &mut self,
        depth: u32,
        world: &mut Progression,
        inner: Form,
        is_negated: bool,
    ) -> Result<Diagram, Stop> {
        let mut made = diagrams::TRUE;
        let mut instant = TRUE;
        for operand in &world.forms.operands(inner)? {
            if is_instant(&world.forms, *operand)? && is_near(&world.forms, instant, *operand)? {
                instant = world.forms.both(instant, *operand)?;
            } else {
                let kept = world.forms.release(FALSE, *operand)?;
                let one = self.function_at(depth, world, kept, is_negated)?;
                made = world.diagrams.both(made, one)?;
            }
        }
        let kept = world.forms.release(FALSE, instant)?;
        let rest = self.safety(world, kept, is_negated)?;
        world.diagrams.both(made, rest)
    }

    /// The variable of a part that is a safety.
    fn safety(
        &mut self,
        world: &mut Progression,
        form: Form,
        is_negated: bool,
    ) -> Result<Diagram, Stop> {
        match form {
            TRUE => Ok(diagrams::TRUE),
            FALSE => Ok(diagrams::FALSE),
            _ => self.single(world, Kind::Safety, form, is_negated),
        }
    }

    /// The diagram of the conjunction of the operands `G F f`, which are one part.
    fn rounds(
        &mut self,
        world: &mut Progression,
        groups: &Groups,
        is_negated: bool,
    ) -> Result<Diagram, Stop> {
        if groups.again == TRUE {
            return Ok(diagrams::TRUE);
        }
        self.variable(world, Kind::Rounds, groups.again, &groups.goals, is_negated)
    }

    /// The variable of a part that is a single formula.
    fn single(
        &mut self,
        world: &mut Progression,
        kind: Kind,
        form: Form,
        is_negated: bool,
    ) -> Result<Diagram, Stop> {
        let inner = match (kind, world.forms.again(form)) {
            (Kind::Rounds, Some(goal)) => goal,
            _ => form,
        };
        self.variable(world, kind, form, &[inner], is_negated)
    }

    /// The variable of a part.
    fn variable(
        &mut self,
        world: &mut Progression,
        kind: Kind,
        form: Form,
        forms: &[Form],
        is_negated: bool,
    ) -> Result<Diagram, Stop> {
        if let Some(known) = self.known.get(form as u64) {
            return Ok(known);
        }
        let number = index(self.parts.len())?;
        let made = self.diagram(world, kind, forms, number)?;
        self.known.put(form as u64, made)?;
        if world.diagrams.level(made) == number {
            self.add(kind, forms, is_negated)?;
        }
        Ok(made)
    }

    /// The diagram of a part that would have a number.
    fn diagram(
        &mut self,
        world: &mut Progression,
        kind: Kind,
        forms: &[Form],
        number: u32,
    ) -> Result<Diagram, Stop> {
        let made = world.diagrams.variable(number)?;
        if self.way.extent == Extent::Merged {
            self.merging.diagram(world, kind, forms, made)
        } else {
            Ok(made)
        }
    }

    /// Adds a part.
    fn add(&mut self, kind: Kind, forms: &[Form], is_negated: bool) -> Result<(), Stop> {
        let is_negative = is_negated != self.way.is_negated;
        self.parts
            .push(Part::new(self.alloc, kind, forms, is_negative)?)?;
        self.limited()
    }
}

/// The kind of automaton of a formula, if the formula is a part.
fn kind_of(world: &Progression, form: Form) -> Option<Kind> {
    let class = world.forms.class(form);
    if class.is_safety {
        return Some(Kind::Safety);
    }
    if let NormalNode::And(..) | NormalNode::Or(..) = world.forms.node(form) {
        return None;
    }
    if rounds_goal(&world.forms, form).is_some() {
        return Some(Kind::Rounds);
    }
    if class.is_recurrence && !class.is_guarantee {
        return Some(Kind::Recurrence);
    }
    None
}

/// Whether a formula is a conjunction of which some operand depends on infinitely many letters.
fn is_many(world: &Progression, form: Form) -> bool {
    matches!(world.forms.node(form), NormalNode::And(..)) && !world.forms.class(form).is_bounded()
}

/// The conjunction f if a formula is `G f`, and f is a conjunction.
fn globally_many(world: &Progression, form: Form) -> Option<Form> {
    let inner = globally(&world.forms, form)?;
    match world.forms.node(inner) {
        NormalNode::And(..) => Some(inner),
        _ => None,
    }
}

/// The formula f if a formula is `G f`, and f speaks of one letter.
fn globally_instant(world: &Progression, form: Form) -> Result<Option<Form>, Stop> {
    let Some(inner) = globally(&world.forms, form) else {
        return Ok(None);
    };
    let is_instant = is_instant(&world.forms, inner)?;
    Ok(if is_instant { Some(inner) } else { None })
}

/// The formula f if a formula is `G f`.
fn globally(forms: &Forms, form: Form) -> Option<Form> {
    match forms.node(form) {
        NormalNode::Release(FALSE, f) => Some(f),
        _ => None,
    }
}

/// Whether a formula shares a proposition with another one, or that is true.
fn is_near(forms: &Forms, other: Form, form: Form) -> Result<bool, Stop> {
    Ok(other == TRUE || propositions(forms, other)? & propositions(forms, form)? != 0)
}

/// The propositions of a formula, one bit for each.
fn propositions(forms: &Forms, form: Form) -> Result<u64, Stop> {
    let mut found = 0;
    for each in &forms.below(form)? {
        if let NormalNode::Proposition(p) | NormalNode::Negated(p) = forms.node(*each) {
            found |= 1u64.checked_shl(p).unwrap_or(0);
        }
    }
    Ok(found)
}

/// Whether a formula speaks of one letter: it has no temporal operator.
fn is_instant(forms: &Forms, form: Form) -> Result<bool, Stop> {
    if !forms.class(form).is_bounded() {
        return Ok(false);
    }
    let below = forms.below(form)?;
    Ok(
        !below
            .iter()
            .any(|each| matches!(forms.node(*each), NormalNode::Next(_))),
    )
}

/// Whether a formula is a conjunction whose operands are parted.
fn is_conjunction(world: &Progression, form: Form) -> bool {
    matches!(world.forms.node(form), NormalNode::And(..)) && !world.forms.class(form).is_guarantee
}

/// Whether the negation of a formula, which is no part and no such conjunction, is a part or a conjunction.
fn is_negated_first(world: &Progression, form: Form) -> bool {
    let class = world.forms.class(form);
    let is_disjunction = matches!(world.forms.node(form), NormalNode::Or(..));
    is_disjunction || class.is_guarantee || class.is_persistence
}

/// The operands of a conjunction, by groups.
fn grouped(alloc: Global, world: &mut Progression, form: Form) -> Result<Groups, Stop> {
    let mut groups = Groups {
        safety: TRUE,
        guarantee: TRUE,
        lasting: TRUE,
        again: TRUE,
        goals: Vec::new(alloc),
        others: Vec::new(alloc),
    };
    groups.add_all(&mut world.forms, form)?;
    Ok(groups)
}

impl Groups {
    /// Adds all operands of a conjunction.
    fn add_all(&mut self, forms: &mut Forms, form: Form) -> Result<(), Stop> {
        let operands = forms.operands(form)?;
        for operand in &operands {
            self.add(forms, *operand)?;
        }
        let conjunctions = [self.safety, self.guarantee, self.lasting];
        self.others.extend_from_slice(&conjunctions)?;
        Ok(())
    }

    /// Adds an operand to its group.
    fn add(&mut self, forms: &mut Forms, operand: Form) -> Result<(), Stop> {
        let class = forms.class(operand);
        if class.is_safety {
            self.safety = forms.both(self.safety, operand)?;
        } else if class.is_guarantee {
            self.guarantee = forms.both(self.guarantee, operand)?;
        } else if let Some(goal) = rounds_goal(forms, operand) {
            self.again = forms.both(self.again, operand)?;
            self.goals.push(goal)?;
        } else if class.is_persistence && forms.again(operand ^ 1).is_some() {
            self.lasting = forms.both(self.lasting, operand)?;
        } else {
            self.others.push(operand)?;
        }
        Ok(())
    }
}

/// The formula `F f` if a formula is `G F f` where f is a guarantee.
fn rounds_goal(forms: &Forms, form: Form) -> Option<Form> {
    match forms.again(form) {
        Some(goal) if forms.class(goal).is_guarantee => Some(goal),
        _ => None,
    }
}
