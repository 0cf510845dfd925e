//! Labels with their propositions renamed.

ghost use Rattle.std.specs.Prelude.{◌≡◌, IfOk, map};
ghost use Rattle.ps_label.specs.Expression.{expression, literal_expression, literal_expressions, not_of};
ghost use Rattle.ps_label.specs.Truth.{expressions};
ghost use Rattle.ps_mixing.specs.MixedFiles as files;
ghost use Rattle.ps_mixing.specs.Inner.Renaming.{IsWithin};
ghost use Rattle.ps_mixing.specs.Orders.{place_in};

use crate::order::entry;
use ps_label::{Label, Labels, Literal, Literals};
use std::alloc::{AllocError, Global};

/// The aliases with each proposition renamed to its entry in the table.
pub(crate) fn aliases_renamed(
    alloc: Global,
    aliases: &Labels,
    to: &[u32],
) -> Result<Labels, AllocError>
    requires { IsWithin 64 to.now }
    ensures { IfOk result (λ made. expressions made ≡ map (files.renamed (place_in to.now)) (expressions aliases.now)) }
{
    let mut made = Labels::new(alloc);
    let labels = aliases.as_slice();
    for label in labels {
        made.push(renamed(alloc, label, to)?)?;
    }
    Ok(made)
}

/// The label with each proposition renamed to its entry in the table.
#[cycle(renamed)]
pub(crate) fn renamed(alloc: Global, label: &Label, to: &[u32]) -> Result<Label, AllocError>
    requires { IsWithin 64 to.now }
    ensures { IfOk result (λ made. expression made ≡ files.renamed (place_in to.now) (expression label.now)) }
{
    match label {
        Label::Truth(value) => Ok(Label::Truth(*value)),
        Label::Atom(proposition) => Ok(Label::Atom(entry(to, *proposition))),
        Label::Negated(proposition) => Ok(Label::Negated(entry(to, *proposition))),
        Label::Named(alias) => Ok(Label::Named(*alias)),
        Label::Literals(literals) => Ok(Label::Literals(literals_renamed(literals, to))),
        Label::Neg(operand) => negation(alloc, renamed(alloc, operand, to)?),
        Label::Both(operands) => Ok(Label::Both(each_renamed(alloc, operands, to)?)),
        Label::Either(operands) => Ok(Label::Either(each_renamed(alloc, operands, to)?)),
    }
}

#[cycle(renamed)]
fn each_renamed(alloc: Global, labels: &[Label], to: &[u32]) -> Result<Vec<Label>, AllocError>
    requires { IsWithin 64 to.now }
    ensures { IfOk result (λ made. expressions made.items ≡ map (files.renamed (place_in to.now))
        (expressions labels.now)) }
{
    let mut made = Vec::with_capacity(alloc, labels.len())?;
    for label in labels {
        made.push(renamed(alloc, label, to)?)?;
    }
    Ok(made)
}

fn negation(alloc: Global, label: Label) -> Result<Label, AllocError>
    ensures { IfOk result (λ made. expression made ≡ not_of (expression label)) }
{
    Ok(Label::Neg(Box::new(alloc, label)?))
}

fn literals_renamed(literals: &Literals, to: &[u32]) -> Literals
    requires { IsWithin 64 to.now }
    ensures { literal_expressions result ≡ map (files.renamed (place_in to.now)) (literal_expressions literals.now) }
{
    let mut made = Literals::new();
    let literals = literals.as_slice();
    for literal in literals {
        made.push(literal_renamed(*literal, to));
    }
    made
}

fn literal_renamed(literal: Literal, to: &[u32]) -> Literal
    requires { IsWithin 64 to.now }
    ensures { literal_expression result ≡ files.renamed (place_in to.now) (literal_expression literal) }
{
    Literal::new(entry(to, literal.proposition()), literal.is_negated())
}
