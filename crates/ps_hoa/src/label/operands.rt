//! Rows of labels, while they are parsed.

ghost use Rattle.std.specs.Prelude.{◌≡◌, ◌↔◌, ◌<◌, ◌++◌, ◌∷◌, [], IfOk, length};
ghost use Rattle.ps_label.specs.Expression.{IsLiteral, expression, literal_expressions};
ghost use Rattle.ps_label.specs.declared.literal.TheConstants.{MOST};
ghost use Rattle.ps_label.specs.Truth.{expressions};
ghost use Rattle.ps_hoa.specs.Grammar.Labels as grammar;
ghost use Rattle.ps_hoa.specs.Inner.LabelRows.{HoldsLiterals, IsOfLiterals, operand_expressions};

use crate::infix::{self, Connective, SPACE};
use ps_label::{Label, Literals};
use std::alloc::{AllocError, Global};

/// The operands of a row. Many labels are conjunctions of a few literals, which are gathered without memory.
#[derive(Drop)]
pub(crate) enum Operands {
    /// Literals, which use no memory outside this value.
    Literals(Literals),
    /// Operands of any form.
    Labels(Vec<Label>),
}

impl Operands {
    /// A row with its first operand.
    #[inline(always)]
    pub(crate) fn new(
        alloc: Global,
        connective: Connective,
        first: Label,
    ) -> Result<Self, AllocError>
        ensures operands { IfOk result (λ row. operand_expressions row ≡ expression first ∷ []) }
        ensures literals { IfOk result (λ row. HoldsLiterals row ↔ ((connective ≡ Connective.And) × IsLiteral first)) }
    {
        match (connective, first.as_literal()) {
            (Connective::And, Some(literal)) => Ok(Operands::Literals(Literals::of(literal))),
            _ => Ok(Operands::Labels(infix::begun(alloc, first)?)),
        }
    }

    /// Adds an operand at the end.
    #[inline(always)]
    pub(crate) fn push(&mut self, alloc: Global, next: Label) -> Result<(), AllocError>
        ensures operands { IfOk result
            (λ _. operand_expressions self.new ≡ operand_expressions self.old ++ expression next ∷ []) }
        ensures literals { IfOk result (λ _. HoldsLiterals self.new ↔
            (HoldsLiterals self.old × IsLiteral next × (length (operand_expressions self.old) < MOST))) }
    {
        match self {
            Operands::Literals(literals) => match next.as_literal() {
                Some(literal) if !literals.is_full() => {
                    literals.push(literal);
                    Ok(())
                }
                _ => {
                    *self = Operands::Labels(with_label(alloc, literals, next)?);
                    Ok(())
                }
            },
            Operands::Labels(labels) => {
                labels.push(next)?;
                Ok(())
            }
        }
    }

    /// The value of the row.
    #[inline(always)]
    pub(crate) fn together(self, alloc: Global, connective: Connective) -> Result<Label, AllocError>
        ensures value { IfOk result
            (λ label. expression label ≡ grammar.together connective (operand_expressions self)) }
        ensures literals { IfOk result
            (λ label. IsOfLiterals label ↔ ((connective ≡ Connective.And) × HoldsLiterals self)) }
    {
        match (connective, self) {
            (Connective::And, Operands::Literals(literals)) => Ok(Label::Literals(literals)),
            (Connective::And, operands) => Ok(Label::Both(operands.into_labels(alloc)?)),
            (Connective::Or, operands) => Ok(Label::Either(operands.into_labels(alloc)?)),
        }
    }

    /// The operands as labels, in memory of just their size.
    #[inline(always)]
    fn into_labels(self, alloc: Global) -> Result<Vec<Label>, AllocError>
        ensures { IfOk result (λ labels. expressions labels.items ≡ operand_expressions self) }
    {
        match self {
            Operands::Literals(literals) => infix::fitted(alloc, labels_of(alloc, &literals)?),
            Operands::Labels(labels) => infix::fitted(alloc, labels),
        }
    }
}

/// The literals and a label behind them.
fn with_label(alloc: Global, literals: &Literals, last: Label) -> Result<Vec<Label>, AllocError>
    ensures { IfOk result
        (λ labels. expressions labels.items ≡ literal_expressions literals.now ++ expression last ∷ []) }
{
    let mut labels = labels_of(alloc, literals)?;
    labels.push(last)?;
    Ok(labels)
}

/// The literals as labels, with space for more.
fn labels_of(alloc: Global, literals: &Literals) -> Result<Vec<Label>, AllocError>
    ensures { IfOk result (λ labels. expressions labels.items ≡ literal_expressions literals.now) }
{
    let literals = literals.as_slice();
    let mut labels = Vec::with_capacity(alloc, SPACE.max(2 * literals.len()))?;
    for literal in literals {
        labels.push(Label::of_literal(*literal))?;
    }
    Ok(labels)
}
