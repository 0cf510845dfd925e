//! Negation normal forms.
//!
//! Each formula gets two nodes, one for its negation, so that no operator, not even `<->`, needs its operands more than
//! once. An operator with a constant operand gets none if its formula is a constant too, or its other operand.

ghost use Rattle.std.specs.Prelude.{◌≡◌, ℕ, ◌+◌, ◌*◌, ◌<◌, ◌≤◌, List, IfOk, IfSome, IsTrue, OnOk, length};
ghost use Rattle.ps_formula.specs.declared.normal_node.NormalNode.{NormalNode};
ghost use Rattle.ps_formula.specs.Formulas.{Formula, IsOver, IsTable, constant, proposition, and_of, or_of, iff, next};
ghost use Rattle.ps_formula.specs.Formulas.{finally, formula_of, formulas_of, globally, release, until, weak_until};
ghost use Rattle.ps_formula.specs.NormalForms.{IsNormalOver};
ghost use Rattle.ps_formula.specs.Inner.Forms.{AreForms, AreKnown, AreTrees, AreWithin, EachWithin, IsMade};

use crate::node::Node;
use crate::normal_formulas::NormalFormulas;
use crate::normal_node::NormalNode;
use std::alloc::{AllocError, Global};

/// A formula and its negation in negation normal form, by their indices in one table.
#[derive(Debug, Drop)]
pub struct NormalForm {
    pub table: NormalFormulas,
    pub formula: u32,
    pub negation: u32,
}

/// The indices of a formula and of its negation.
#[derive(Clone, Copy)]
pub(crate) struct Forms {
    pub formula: u32,
    pub negation: u32,
}

impl Forms {
    fn flipped(self) -> Forms
        ensures formula { result.formula ≡ self.negation }
        ensures negation { result.negation ≡ self.formula }
    {
        Forms {
            formula: self.negation,
            negation: self.formula,
        }
    }
}

/// Adds the forms of each node.
pub(crate) fn forms_of_nodes(
    alloc: Global,
    table: &mut NormalFormulas,
    nodes: &[Node],
) -> Result<Vec<Forms>, AllocError>
    requires { IsTable nodes.now }
    ensures few { OnOk result (length table.new ≤ length table.old + 6 * length nodes.now) }
    ensures known { IfOk result (λ known. AreKnown table.new known.items (formulas_of nodes.now)) }
    ensures count { IfOk result (λ known. length known.items ≡ length nodes.now) }
{
    let mut known = Vec::new(alloc);
    for node in nodes {
        let forms = forms_of(table, &known, *node)?;
        known.push(forms)?;
    }
    Ok(known)
}

/// Adds the forms of a node, by those before it.
fn forms_of(table: &mut NormalFormulas, known: &[Forms], node: Node) -> Result<Forms, AllocError>
    requires over { IsOver (length known.now) node }
    requires within { EachWithin table.old known.now }
    ensures made { IfOk result (IsMade table.old table.new 6) }
    ensures forms { IfOk result (λ forms. (trees : List Formula) → AreKnown table.old known.now trees →
        AreForms table.new (formula_of trees node) forms) }
{
    match node {
        Node::Constant(value) => constant(table, value),
        Node::Proposition(p) => proposition(table, p),
        Node::Not(f) => Ok(known[f as usize].flipped()),
        Node::And(f, g) => both(table, known[f as usize], known[g as usize]),
        Node::Or(f, g) => either(table, known[f as usize], known[g as usize]),
        Node::Implies(f, g) => either(table, known[f as usize].flipped(), known[g as usize]),
        Node::Iff(f, g) => iff(table, known[f as usize], known[g as usize]),
        Node::Next(f) => next(table, known[f as usize]),
        Node::Until(f, g) => until(table, known[f as usize], known[g as usize]),
        Node::Release(f, g) => release(table, known[f as usize], known[g as usize]),
        Node::WeakUntil(f, g) => weak_until(table, known[f as usize], known[g as usize]),
        Node::Finally(f) => finally(table, known[f as usize]),
        Node::Globally(f) => globally(table, known[f as usize]),
    }
}

fn pair(
    table: &mut NormalFormulas,
    formula: NormalNode,
    negation: NormalNode,
) -> Result<Forms, AllocError>
    requires formula { IsNormalOver (length table.old) formula }
    requires negation { IsNormalOver (length table.old) negation }
    ensures made { IfOk result (IsMade table.old table.new 2) }
    ensures trees { IfOk result (AreTrees table.old table.new formula negation) }
{
    let formula = table.add(formula)?;
    let negation = table.add(negation)?;
    Ok(Forms { formula, negation })
}

fn constant(table: &mut NormalFormulas, value: bool) -> Result<Forms, AllocError>
    ensures made { IfOk result (IsMade table.old table.new 2) }
    ensures forms { IfOk result (AreForms table.new (constant value)) }
{
    pair(
        table,
        NormalNode::Constant(value),
        NormalNode::Constant(!value),
    )
}

fn proposition(table: &mut NormalFormulas, p: u32) -> Result<Forms, AllocError>
    requires { p < 64 }
    ensures made { IfOk result (IsMade table.old table.new 2) }
    ensures forms { IfOk result (AreForms table.new (proposition p)) }
{
    pair(table, NormalNode::Proposition(p), NormalNode::Negated(p))
}

/// `f && g`, whose negation is `!f || !g`.
fn both(table: &mut NormalFormulas, f: Forms, g: Forms) -> Result<Forms, AllocError>
    requires f { AreWithin table.old f }
    requires g { AreWithin table.old g }
    ensures made { IfOk result (IsMade table.old table.new 2) }
    ensures forms { IfOk result (λ forms. (a b : Formula) → AreForms table.old a f → AreForms table.old b g →
        AreForms table.new (and_of a b) forms) }
{
    if let Some(forms) = constant_side(table, f, g) {
        return Ok(forms);
    }
    if let Some(forms) = constant_side(table, g, f) {
        return Ok(forms);
    }
    let formula = NormalNode::And(f.formula, g.formula);
    let negation = NormalNode::Or(f.negation, g.negation);
    pair(table, formula, negation)
}

/// `f && g` if `f` is a constant.
fn constant_side(table: &NormalFormulas, f: Forms, g: Forms) -> Option<Forms>
    requires f { AreWithin table.now f }
    requires g { AreWithin table.now g }
    ensures within { IfSome result (AreWithin table.now) }
    ensures forms { IfSome result (λ forms. (a b : Formula) → AreForms table.now a f → AreForms table.now b g →
        AreForms table.now (and_of a b) forms) }
{
    match table.constant(f.formula) {
        Some(true) => Some(g),
        Some(false) => Some(f),
        None => None,
    }
}

fn either(table: &mut NormalFormulas, f: Forms, g: Forms) -> Result<Forms, AllocError>
    requires f { AreWithin table.old f }
    requires g { AreWithin table.old g }
    ensures made { IfOk result (IsMade table.old table.new 2) }
    ensures forms { IfOk result (λ forms. (a b : Formula) → AreForms table.old a f → AreForms table.old b g →
        AreForms table.new (or_of a b) forms) }
{
    let forms = both(table, f.flipped(), g.flipped())?;
    Ok(forms.flipped())
}

/// `f <-> g`: both imply each other.
fn iff(table: &mut NormalFormulas, f: Forms, g: Forms) -> Result<Forms, AllocError>
    requires f { AreWithin table.old f }
    requires g { AreWithin table.old g }
    ensures made { IfOk result (IsMade table.old table.new 6) }
    ensures forms { IfOk result (λ forms. (a b : Formula) → AreForms table.old a f → AreForms table.old b g →
        AreForms table.new (iff a b) forms) }
{
    let there = either(table, f.flipped(), g)?;
    let back = either(table, g.flipped(), f)?;
    both(table, there, back)
}

/// `X f`
fn next(table: &mut NormalFormulas, f: Forms) -> Result<Forms, AllocError>
    requires { AreWithin table.old f }
    ensures made { IfOk result (IsMade table.old table.new 2) }
    ensures forms { IfOk result (λ forms. (a : Formula) → AreForms table.old a f →
        AreForms table.new (next a) forms) }
{
    if table.constant(f.formula).is_some() {
        return Ok(f);
    }
    let formula = NormalNode::Next(f.formula);
    let negation = NormalNode::Next(f.negation);
    pair(table, formula, negation)
}

/// `f U g`, whose negation is `!f R !g`.
fn until(table: &mut NormalFormulas, f: Forms, g: Forms) -> Result<Forms, AllocError>
    requires f { AreWithin table.old f }
    requires g { AreWithin table.old g }
    ensures made { IfOk result (IsMade table.old table.new 2) }
    ensures forms { IfOk result (λ forms. (a b : Formula) → AreForms table.old a f → AreForms table.old b g →
        AreForms table.new (until a b) forms) }
{
    if is_decided_now(table, f, g) {
        return Ok(g);
    }
    let formula = NormalNode::Until(f.formula, g.formula);
    let negation = NormalNode::Release(f.negation, g.negation);
    pair(table, formula, negation)
}

/// Whether `f U g` is `g` since `f` is `false`, or `g` is a constant.
fn is_decided_now(table: &NormalFormulas, f: Forms, g: Forms) -> bool
    requires f { AreWithin table.now f }
    requires g { AreWithin table.now g }
    ensures { IsTrue result → (a b : Formula) → AreForms table.now a f → AreForms table.now b g →
        AreForms table.now (until a b) g }
{
    match table.constant(g.formula) {
        Some(_) => true,
        None => matches!(table.constant(f.formula), Some(false)),
    }
}

fn release(table: &mut NormalFormulas, f: Forms, g: Forms) -> Result<Forms, AllocError>
    requires f { AreWithin table.old f }
    requires g { AreWithin table.old g }
    ensures made { IfOk result (IsMade table.old table.new 2) }
    ensures forms { IfOk result (λ forms. (a b : Formula) → AreForms table.old a f → AreForms table.old b g →
        AreForms table.new (release a b) forms) }
{
    let forms = until(table, f.flipped(), g.flipped())?;
    Ok(forms.flipped())
}

/// `f W g`, which is `g R (f || g)`.
fn weak_until(table: &mut NormalFormulas, f: Forms, g: Forms) -> Result<Forms, AllocError>
    requires f { AreWithin table.old f }
    requires g { AreWithin table.old g }
    ensures made { IfOk result (IsMade table.old table.new 4) }
    ensures forms { IfOk result (λ forms. (a b : Formula) → AreForms table.old a f → AreForms table.old b g →
        AreForms table.new (weak_until a b) forms) }
{
    let right = either(table, f, g)?;
    release(table, g, right)
}

/// `F f`, which is `true U f`.
fn finally(table: &mut NormalFormulas, f: Forms) -> Result<Forms, AllocError>
    requires { AreWithin table.old f }
    ensures made { IfOk result (IsMade table.old table.new 4) }
    ensures forms { IfOk result (λ forms. (a : Formula) → AreForms table.old a f →
        AreForms table.new (finally a) forms) }
{
    let left = constant(table, true)?;
    until(table, left, f)
}

/// `G f`, which is `false R f`.
fn globally(table: &mut NormalFormulas, f: Forms) -> Result<Forms, AllocError>
    requires { AreWithin table.old f }
    ensures made { IfOk result (IsMade table.old table.new 4) }
    ensures forms { IfOk result (λ forms. (a : Formula) → AreForms table.old a f →
        AreForms table.new (globally a) forms) }
{
    let left = constant(table, false)?;
    release(table, left, f)
}
