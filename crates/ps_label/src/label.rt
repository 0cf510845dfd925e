//! Labels.

ghost use Rattle.std.specs.Prelude.{◌≡◌, All, IfOk};
ghost use Rattle.ps_label.specs.Expression.{IsPlainLabel, expression, literal_expression, literal_expressions, not_of};
ghost use Rattle.ps_label.specs.Truth.{expressions};

use crate::literal::{Literal, Literals};
use std::alloc::{AllocError, Global};

/// A Boolean expression over propositions, such as the label of an edge.
#[derive(Debug, Drop)]
pub enum Label {
    /// True at every letter, or at none.
    Truth(bool),
    /// The proposition with this number, from 0.
    Atom(u32),
    /// The negation of the proposition with this number.
    Negated(u32),
    /// The alias with this number, from 0 in the order of definitions.
    Named(usize),
    /// True if all literals are, also if there are none.
    Literals(Literals),
    /// True if the operand is false.
    Neg(Box<Label>),
    /// True if all operands are, also if there are none.
    Both(Vec<Label>),
    /// True if at least one operand is.
    Either(Vec<Label>),
}

impl Label {
    ghost use Rattle.std.specs.Prelude.{◌↔◌, IfSome, IsSome};
    ghost use Rattle.ps_label.specs.Expression.{IsLiteral};

    /// The label of a literal.
    pub fn of_literal(literal: Literal) -> Label
        ensures literal { IsLiteral result }
        ensures same { expression result ≡ literal_expression literal }
    {
        if literal.is_negated() {
            Label::Negated(literal.proposition())
        } else {
            Label::Atom(literal.proposition())
        }
    }

    /// The literal that the label is, if it is `Atom` or `Negated` of a proposition less than 64.
    pub fn as_literal(&self) -> Option<Literal>
        ensures some { IsSome result ↔ IsLiteral self.now }
        ensures same { IfSome result (λ literal. expression self.now ≡ literal_expression literal) }
    {
        let (proposition, negated) = match self {
            Label::Atom(proposition) => (*proposition, false),
            Label::Negated(proposition) => (*proposition, true),
            _ => return None,
        };
        if proposition < 64 {
            Some(Literal::new(proposition, negated))
        } else {
            None
        }
    }

    /// The same expression without `Negated` and `Literals`, which for speed stand for `Neg` of `Atom`, and for `Both`
    /// of literals. Fails if out of memory.
    #[cycle(plain)]
    pub fn plain(&self, alloc: Global) -> Result<Label, AllocError>
        ensures same { IfOk result (λ label. expression label ≡ expression self.now) }
        ensures plain { IfOk result IsPlainLabel }
    {
        match self {
            Label::Truth(value) => Ok(Label::Truth(*value)),
            Label::Atom(proposition) => Ok(Label::Atom(*proposition)),
            Label::Negated(proposition) => negation(alloc, Label::Atom(*proposition)),
            Label::Named(alias) => Ok(Label::Named(*alias)),
            Label::Literals(literals) => Ok(Label::Both(plain_literals(
                alloc,
                literals.as_slice(),
            )?)),
            Label::Neg(operand) => negation(alloc, operand.plain(alloc)?),
            Label::Both(operands) => Ok(Label::Both(each_plain(alloc, operands)?)),
            Label::Either(operands) => Ok(Label::Either(each_plain(alloc, operands)?)),
        }
    }
}

fn negation(alloc: Global, label: Label) -> Result<Label, AllocError>
    ensures same { IfOk result (λ made. expression made ≡ not_of (expression label)) }
    ensures plain { IfOk result (λ made. IsPlainLabel label → IsPlainLabel made) }
{
    Ok(Label::Neg(Box::new(alloc, label)?))
}

#[cycle(plain)]
fn each_plain(alloc: Global, labels: &[Label]) -> Result<Vec<Label>, AllocError>
    ensures same { IfOk result (λ made. expressions made.items ≡ expressions labels.now) }
    ensures plain { IfOk result (λ made. All IsPlainLabel made.items) }
{
    let mut made = Vec::with_capacity(alloc, labels.len())?;
    for label in labels {
        made.push(label.plain(alloc)?)?;
    }
    Ok(made)
}

fn plain_literals(alloc: Global, literals: &[Literal]) -> Result<Vec<Label>, AllocError>
    ensures same { IfOk result (λ made. expressions made.items ≡ literal_expressions literals.now) }
    ensures plain { IfOk result (λ made. All IsPlainLabel made.items) }
{
    let mut made = Vec::with_capacity(alloc, literals.len())?;
    for literal in literals {
        made.push(plain_literal(alloc, *literal)?)?;
    }
    Ok(made)
}

fn plain_literal(alloc: Global, literal: Literal) -> Result<Label, AllocError>
    ensures same { IfOk result (λ made. expression made ≡ literal_expression literal) }
    ensures plain { IfOk result IsPlainLabel }
{
    let atom = Label::Atom(literal.proposition());
    if literal.is_negated() {
        negation(alloc, atom)
    } else {
        Ok(atom)
    }
}
