//! Formulas in negation normal form, each beside its negation, and simplified as they are made.
//!
//! The classes of formulas are those of the hierarchy of Manna and Pnueli ("A Hierarchy of Temporal Properties", 1990),
//! told by syntax alone. A formula is a limit if it holds at all indices of a word or at none, as `G F f` does.
//!
//! The rules: `X` comes out of all other operators, `G` goes into a conjunction and `F` into a disjunction that are no
//! safety and no guarantee, a limit comes out of `U` and `R`, `F G f && F G g` is `F G (f && g)`, and so is
//! `F (G f && G g)`.

use crate::met::Met;
use crate::stop::{Stop, index};
use ps_formula::{Node, NormalNode};
use ps_keys::KeyList;
use std::alloc::Global;

/// A formula, as an index of the table. The negation of a formula with an even index is the next formula.
pub type Form = u32;

/// `false`
pub const FALSE: Form = 0;

/// `true`
pub const TRUE: Form = 1;

/// How many operators `X` that stand around one another come out of an operator.
const NEXTS: u32 = 4096;

/// The most formulas inside a formula that is looked into.
const FORMULAS: usize = 1 << 18;

/// The most operands of a conjunction that is looked at as a list.
const OPERANDS: usize = 65_536;

/// The classes that a formula belongs to by its syntax.
#[derive(Clone, Copy)]
pub struct Class {
    /// No operator `U`: a word that violates the formula does so at some index.
    pub is_safety: bool,
    /// No operator `R`: a word that satisfies the formula does so at some index.
    pub is_guarantee: bool,
    /// No `R` inside a `U`.
    pub is_recurrence: bool,
    /// No `U` inside an `R`.
    pub is_persistence: bool,
    /// It holds at all indices of a word or at none.
    pub is_limit: bool,
}

impl Class {
    /// The class of a literal.
    const LITERAL: Class = Class {
        is_safety: true,
        is_guarantee: true,
        is_recurrence: true,
        is_persistence: true,
        is_limit: false,
    };

    /// The classes that two formulas share.
    fn shared(self, other: Class) -> Class {
        Class {
            is_safety: self.is_safety && other.is_safety,
            is_guarantee: self.is_guarantee && other.is_guarantee,
            is_recurrence: self.is_recurrence && other.is_recurrence,
            is_persistence: self.is_persistence && other.is_persistence,
            is_limit: self.is_limit && other.is_limit,
        }
    }

    /// Whether the truth of the formula depends on finitely many letters, the same number at each word.
    pub fn is_bounded(self) -> bool {
        self.is_safety && self.is_guarantee
    }
}

/// The two operands of an operator.
#[derive(Clone, Copy)]
pub struct Sides {
    pub left: Form,
    pub right: Form,
}

/// The operands of a conjunction, as far as they were found.
#[derive(Drop)]
struct Operands {
    found: Vec<Form>,
    /// The formulas that are looked at next, the last one first.
    pending: Vec<Form>,
}

impl Operands {
    /// Adds a formula, or makes its operands pending if it is a conjunction.
    fn add(&mut self, form: Form, node: NormalNode) -> Result<(), Stop> {
        match node {
            NormalNode::And(f, g) => self.pending.extend_from_slice(&[g, f])?,
            _ => self.found.push(form)?,
        }
        Ok(())
    }

    /// The operands that were found.
    fn into_list(self) -> Vec<Form> {
        let Operands { found, .. } = self;
        found
    }
}

/// A table of formulas.
#[derive(Drop)]
pub struct Forms {
    alloc: Global,
    nodes: KeyList<NormalNode>,
    classes: Vec<Class>,
}

impl Forms {
    /// The constants.
    pub fn new(alloc: Global) -> Result<Self, Stop> {
        let mut forms = Forms {
            alloc,
            nodes: KeyList::new(alloc),
            classes: Vec::new(alloc),
        };
        forms.add(NormalNode::Constant(false))?;
        Ok(forms)
    }

    /// The number of formulas.
    pub fn len(&self) -> usize {
        self.nodes.len()
    }

    /// The operator of a formula.
    pub fn node(&self, form: Form) -> NormalNode {
        match self.nodes.as_slice().get(form as usize) {
            Some(node) => *node,
            None => NormalNode::Constant(false),
        }
    }

    /// The classes of a formula.
    pub fn class(&self, form: Form) -> Class {
        match self.classes.get(form as usize) {
            Some(class) => *class,
            None => Class::LITERAL,
        }
    }

    /// Adds a formula and its negation, if the table lacks them.
    fn add(&mut self, node: NormalNode) -> Result<Form, Stop> {
        let count = self.nodes.len();
        let place = self.nodes.place_of(node)?;
        if place == count {
            let dual = dual_of(node);
            self.nodes.place_of(dual)?;
            let class = self.class_of(node);
            let dual_class = self.class_of(dual);
            self.classes.push(class)?;
            self.classes.push(dual_class)?;
        }
        index(place)
    }

    /// The classes of a node, from those of its operands.
    fn class_of(&self, node: NormalNode) -> Class {
        match node {
            NormalNode::Constant(_) => Class {
                is_limit: true,
                ..Class::LITERAL
            },
            NormalNode::Proposition(_) | NormalNode::Negated(_) => Class::LITERAL,
            NormalNode::And(f, g) | NormalNode::Or(f, g) => self.class(f).shared(self.class(g)),
            NormalNode::Next(f) => self.class(f),
            NormalNode::Until(f, g) => {
                let shared = self.class(f).shared(self.class(g));
                Class {
                    is_safety: false,
                    is_recurrence: shared.is_guarantee,
                    is_limit: f == TRUE && self.is_globally(g),
                    ..shared
                }
            }
            NormalNode::Release(f, g) => {
                let shared = self.class(f).shared(self.class(g));
                Class {
                    is_guarantee: false,
                    is_persistence: shared.is_safety,
                    is_limit: f == FALSE && self.finally(g).is_some(),
                    ..shared
                }
            }
        }
    }

    /// Whether a formula is `G g`.
    fn is_globally(&self, form: Form) -> bool {
        self.finally(form ^ 1).is_some()
    }

    /// The formula g if a formula is `F g`.
    pub fn finally(&self, form: Form) -> Option<Form> {
        match self.node(form) {
            NormalNode::Until(TRUE, g) => Some(g),
            _ => None,
        }
    }

    /// The formula `F g` if a formula is `G F g`.
    pub fn again(&self, form: Form) -> Option<Form> {
        match self.node(form) {
            NormalNode::Release(FALSE, g) if self.finally(g).is_some() => Some(g),
            _ => None,
        }
    }

    /// The formula of a proposition.
    pub fn proposition(&mut self, p: u32) -> Result<Form, Stop> {
        self.add(NormalNode::Proposition(p))
    }

    /// `f || g`
    pub fn either(&mut self, f: Form, g: Form) -> Result<Form, Stop> {
        Ok(self.both(f ^ 1, g ^ 1)? ^ 1)
    }

    /// `f && g`
    pub fn both(&mut self, f: Form, g: Form) -> Result<Form, Stop> {
        let (sides, nexts) = self.without_nexts(Sides { left: f, right: g });
        let limits = self.both_limits(sides);
        let made = match limits {
            Some(limits) => {
                let inner = self.both_now(limits.left, limits.right)?;
                self.lasting(inner)?
            }
            None => self.both_now(sides.left, sides.right)?,
        };
        self.nexts(made, nexts)
    }

    /// The formulas f and g if two formulas are `F G f` and `F G g`.
    fn both_limits(&self, sides: Sides) -> Option<Sides> {
        let left = self.finally(self.again(sides.left ^ 1)?)? ^ 1;
        let right = self.finally(self.again(sides.right ^ 1)?)? ^ 1;
        Some(Sides { left, right })
    }

    /// `F G f`
    fn lasting(&mut self, f: Form) -> Result<Form, Stop> {
        if f <= TRUE {
            return Ok(f);
        }
        let kept = self.add(NormalNode::Release(FALSE, f))?;
        self.add(NormalNode::Until(TRUE, kept))
    }

    /// `f && g`, unless one of them makes the other unneeded.
    fn both_now(&mut self, f: Form, g: Form) -> Result<Form, Stop> {
        let (f, g) = (f.min(g), f.max(g));
        if f == FALSE || f ^ 1 == g {
            return Ok(FALSE);
        }
        if f == TRUE || f == g || self.implies(g, f) {
            return Ok(g);
        }
        if self.implies(f, g) {
            return Ok(f);
        }
        self.add(NormalNode::And(f, g))
    }

    /// Whether the syntax shows that a formula f implies a formula g.
    fn implies(&self, f: Form, g: Form) -> bool {
        let begin = self.begin_of(f, g);
        if begin == g || self.end_before(g, begin) == begin {
            return true;
        }
        if let NormalNode::And(a, b) = self.node(f)
            && (a == g || b == g)
        {
            return true;
        }
        if let NormalNode::Or(a, b) = self.node(g) {
            return a == f || b == f;
        }
        false
    }

    /// The formula h if a formula is `f U (g U .. h)`, or one of those around it that is a given one.
    fn end_before(&self, form: Form, given: Form) -> Form {
        let mut end = form;
        for _ in 0..NEXTS {
            match self.node(end) {
                NormalNode::Until(_, g) if end != given => end = g,
                _ => return end,
            }
        }
        end
    }

    /// The formula h if a formula is `f R (g R .. h)`, or one of those around it that is a given one.
    fn begin_of(&self, form: Form, given: Form) -> Form {
        self.end_before(form ^ 1, given ^ 1) ^ 1
    }

    /// The formula of a choice: `one` if an atom holds, and otherwise `other`, which is the stronger one if the atom is
    /// not bounded.
    pub fn chosen(&mut self, atom: Form, one: Form, other: Form) -> Result<Form, Stop> {
        if one == TRUE {
            return self.either(atom, other);
        }
        let with = self.both(atom, one)?;
        if self.class(atom).is_bounded() {
            let without = self.both(atom ^ 1, other)?;
            return self.either(with, without);
        }
        self.either(with, other)
    }

    /// Two formulas without the operators `X` that both have around them, and the number of these. A constant has as
    /// many as one likes.
    fn without_nexts(&self, sides: Sides) -> (Sides, u32) {
        let mut sides = sides;
        for count in 0..NEXTS {
            let left = self.after(sides.left);
            let right = self.after(sides.right);
            match (left, right) {
                (Some(left), Some(right)) if sides.left > TRUE || sides.right > TRUE => {
                    sides = Sides { left, right };
                }
                _ => return (sides, count),
            }
        }
        (sides, NEXTS)
    }

    /// The formula g if a formula is `X g`.
    fn after(&self, form: Form) -> Option<Form> {
        match self.node(form) {
            NormalNode::Next(g) => Some(g),
            NormalNode::Constant(_) => Some(form),
            _ => None,
        }
    }

    /// `X f`
    pub fn next(&mut self, f: Form) -> Result<Form, Stop> {
        if self.class(f).is_limit {
            return Ok(f);
        }
        self.add(NormalNode::Next(f))
    }

    /// A formula with some operators `X` around it.
    fn nexts(&mut self, f: Form, count: u32) -> Result<Form, Stop> {
        let mut made = f;
        for _ in 0..count {
            made = self.next(made)?;
        }
        Ok(made)
    }

    /// `f R g`
    pub fn release(&mut self, f: Form, g: Form) -> Result<Form, Stop> {
        Ok(self.until(f ^ 1, g ^ 1)? ^ 1)
    }

    /// `f U g`
    pub fn until(&mut self, f: Form, g: Form) -> Result<Form, Stop> {
        let (sides, nexts) = self.without_nexts(Sides { left: f, right: g });
        let made = self.until_apart(sides)?;
        self.nexts(made, nexts)
    }

    /// `f U g`, with the limits outside, and `F` of a disjunction that is no guarantee as a disjunction.
    fn until_apart(&mut self, sides: Sides) -> Result<Form, Stop> {
        let Sides { left, right } = sides;
        if self.class(left).is_limit && left > TRUE {
            let ends = self.until_now(TRUE, right)?;
            let meets = self.both(left, ends)?;
            return self.either(right, meets);
        }
        match self.node(right) {
            NormalNode::And(a, b) if self.class(a).is_limit => {
                let rest = self.until_now(left, b)?;
                self.both(a, rest)
            }
            NormalNode::And(a, b) if self.class(b).is_limit => {
                let rest = self.until_now(left, a)?;
                self.both(b, rest)
            }
            NormalNode::Or(..) if left == TRUE && !self.class(right).is_guarantee => {
                self.finally_each(right)
            }
            NormalNode::And(..) if left == TRUE => self.finally_all(right),
            _ => self.until_now(left, right),
        }
    }

    /// `F` of each operand of a disjunction, those that are guarantees taken together.
    fn finally_each(&mut self, form: Form) -> Result<Form, Stop> {
        let operands = self.operands(form ^ 1)?;
        let mut sides = Sides {
            left: FALSE,
            right: FALSE,
        };
        for operand in &operands {
            sides = self.with_operand(sides, *operand ^ 1)?;
        }
        self.finally_both(sides)
    }

    /// A disjunction of guarantees, and one of formulas `F f`, with one more operand.
    fn with_operand(&mut self, sides: Sides, operand: Form) -> Result<Sides, Stop> {
        let Sides { left, right } = sides;
        if self.class(operand).is_guarantee {
            let left = self.either(left, operand)?;
            return Ok(Sides { left, right });
        }
        let one = self.until_now(TRUE, operand)?;
        let right = self.either(right, one)?;
        Ok(Sides { left, right })
    }

    /// `F f || g`
    fn finally_both(&mut self, sides: Sides) -> Result<Form, Stop> {
        let one = self.until_now(TRUE, sides.left)?;
        self.either(sides.right, one)
    }

    /// `F` of a conjunction: if all operands are `G f`, also with operators `X` around it, this is `F G` of each.
    fn finally_all(&mut self, form: Form) -> Result<Form, Stop> {
        let operands = self.operands(form)?;
        let mut made = TRUE;
        for operand in &operands {
            let inner = self.inside_nexts(*operand);
            if !self.is_globally(inner) {
                return self.until_now(TRUE, form);
            }
            let lasting = self.until_now(TRUE, inner)?;
            made = self.both(made, lasting)?;
        }
        Ok(made)
    }

    /// A formula without the operators `X` around it.
    fn inside_nexts(&self, form: Form) -> Form {
        let mut inner = form;
        for _ in 0..NEXTS {
            match self.node(inner) {
                NormalNode::Next(f) => inner = f,
                _ => return inner,
            }
        }
        inner
    }

    /// `f U g`, unless it is one of its sides.
    fn until_now(&mut self, f: Form, g: Form) -> Result<Form, Stop> {
        if self.class(g).is_limit || f == FALSE || f == g {
            return Ok(g);
        }
        if f == TRUE || f == g ^ 1 {
            let end = self.end_before(g, FALSE);
            return self.add(NormalNode::Until(TRUE, end));
        }
        match self.node(g) {
            NormalNode::Until(a, _) if f == a => Ok(g),
            _ => self.add(NormalNode::Until(f, g)),
        }
    }

    /// The operands of a conjunction of any number of formulas, or a formula that is none, as the only one.
    pub fn operands(&self, form: Form) -> Result<Vec<Form>, Stop> {
        let mut operands = Operands {
            found: Vec::new(self.alloc),
            pending: Vec::new(self.alloc),
        };
        operands.pending.push(form)?;
        for _ in 0..2 * OPERANDS {
            let Some(next) = operands.pending.pop() else {
                return Ok(operands.into_list());
            };
            operands.add(next, self.node(next))?;
        }
        Err(Stop::Limit)
    }

    /// A formula and the formulas inside it, operands first.
    pub fn below(&self, form: Form) -> Result<Vec<Form>, Stop> {
        let mut met = Met::new(self.alloc);
        self.meet_below(&mut met, form)?;
        met.sorted(self.alloc)
    }

    /// Meets a formula and the formulas inside it.
    fn meet_below(&self, met: &mut Met, form: Form) -> Result<(), Stop> {
        met.add(form)?;
        for place in 0..FORMULAS {
            let Some(next) = met.at(place) else {
                return Ok(());
            };
            let Sides { left, right } = self.sides(next);
            met.add_both(left, right)?;
        }
        Err(Stop::Limit)
    }

    /// The operands of a formula; a formula with one has it twice, and one with none has itself.
    pub fn sides(&self, form: Form) -> Sides {
        let (left, right) = match self.node(form) {
            NormalNode::Constant(_) | NormalNode::Proposition(_) | NormalNode::Negated(_) => {
                (form, form)
            }
            NormalNode::Next(f) => (f, f),
            NormalNode::And(f, g)
            | NormalNode::Or(f, g)
            | NormalNode::Until(f, g)
            | NormalNode::Release(f, g) => (f, g),
        };
        Sides { left, right }
    }

    /// The formula of a node, from the formulas of the nodes before it.
    fn of_node(&mut self, node: Node, known: &[Form]) -> Result<Form, Stop> {
        match node {
            Node::Constant(value) => Ok(if value { TRUE } else { FALSE }),
            Node::Proposition(p) => self.proposition(p),
            Node::Not(f) => Ok(at(known, f) ^ 1),
            Node::And(f, g) => self.both(at(known, f), at(known, g)),
            Node::Or(f, g) => self.either(at(known, f), at(known, g)),
            Node::Implies(f, g) => self.either(at(known, f) ^ 1, at(known, g)),
            Node::Iff(f, g) => self.same(at(known, f), at(known, g)),
            Node::Next(f) => self.next(at(known, f)),
            Node::Until(f, g) => self.until(at(known, f), at(known, g)),
            Node::Release(f, g) => self.release(at(known, f), at(known, g)),
            Node::WeakUntil(f, g) => self.weak_until(at(known, f), at(known, g)),
            Node::Finally(f) => self.until(TRUE, at(known, f)),
            Node::Globally(f) => self.release(FALSE, at(known, f)),
        }
    }

    /// `f <-> g`
    fn same(&mut self, f: Form, g: Form) -> Result<Form, Stop> {
        let one = self.either(f ^ 1, g)?;
        let other = self.either(f, g ^ 1)?;
        self.both(one, other)
    }

    /// `f W g`
    fn weak_until(&mut self, f: Form, g: Form) -> Result<Form, Stop> {
        let kept = self.either(f, g)?;
        self.release(g, kept)
    }

    /// The formula of a node of a table, added with all nodes before it.
    pub fn of_table(&mut self, nodes: &[Node], root: u32) -> Result<Form, Stop> {
        let mut known = Vec::new(self.alloc);
        for node in nodes.iter().take(root as usize + 1) {
            let form = self.of_node(*node, &known)?;
            known.push(form)?;
        }
        Ok(at(&known, root))
    }
}

/// The formula at an index of a list.
fn at(known: &[Form], place: u32) -> Form {
    known.get(place as usize).copied().unwrap_or(FALSE)
}

/// The node of the negation of a formula, whose operands are the negations of its operands.
fn dual_of(node: NormalNode) -> NormalNode {
    match node {
        NormalNode::Constant(value) => NormalNode::Constant(!value),
        NormalNode::Proposition(p) => NormalNode::Negated(p),
        NormalNode::Negated(p) => NormalNode::Proposition(p),
        NormalNode::And(f, g) => NormalNode::Or(f ^ 1, g ^ 1),
        NormalNode::Or(f, g) => NormalNode::And(f ^ 1, g ^ 1),
        NormalNode::Next(f) => NormalNode::Next(f ^ 1),
        NormalNode::Until(f, g) => NormalNode::Release(f ^ 1, g ^ 1),
        NormalNode::Release(f, g) => NormalNode::Until(f ^ 1, g ^ 1),
    }
}
