//! The parser of labels.

ghost use Rattle.std.specs.Prelude.{◌≡◌, ◌↔◌, IsTrue};
ghost use Rattle.ps_label.specs.Expression.{expression};
ghost use Rattle.ps_hoa.specs.Grammar.Labels as labels;
ghost use Rattle.ps_hoa.specs.Grammar.Operands.{nesting_limit};
ghost use Rattle.ps_hoa.specs.Inner.Reads.{ReadsAs, Takes};
ghost use Rattle.ps_hoa.specs.Spans.{piece_of};

pub mod operands;

use crate::fault::{HoaCause, HoaFault};
use crate::header::names::Scope;
use crate::infix::{self, Connective, Infix};
use crate::label::operands::Operands;
use crate::refusal::{fault_at, refused};
use crate::signs::int_of;
use crate::tokens::{Kind, Token, Tokens, is_same};
use ps_label::Label;
use std::alloc::{AllocError, Global};

/// Parses a label.
pub(crate) fn label(alloc: Global, tokens: &mut Tokens, scope: &Scope) -> Result<Label, HoaFault>
    ensures { ReadsAs expression (labels.label scope.now nesting_limit) tokens.old result tokens.new }
{
    infix::read(alloc, tokens, scope)
}

impl Infix for Scope<'_, '_> {
    ghost use Rattle.ps_label.specs.Expression.{Expression};
    ghost use Rattle.ps_hoa.specs.Inner.LabelRows.{operand_expressions};

    type Value = Label;

    type Operands = Operands;

    ghost Meaning = { Expression };

    ghost meaning = { expression };

    ghost meanings = { operand_expressions };

    ghost grammar = { labels.grammar };

    #[inline(always)]
    fn leaf(&self, tokens: &mut Tokens) -> Result<Label, HoaFault> {
        let token = tokens.advance();
        leaf_of(token, self)
    }

    fn holds(&self, kind: Kind) -> bool {
        matches!(kind, Kind::Not | Kind::LeftParen)
    }

    #[inline(always)]
    fn negated(&self, alloc: Global, operand: Label) -> Result<Option<Label>, AllocError> {
        Ok(Some(match operand {
            Label::Atom(proposition) => Label::Negated(proposition),
            operand => Label::Neg(Box::new(alloc, operand)?),
        }))
    }

    #[inline(always)]
    fn begun(
        &self,
        alloc: Global,
        connective: Connective,
        first: Label,
    ) -> Result<Operands, AllocError> {
        Operands::new(alloc, connective, first)
    }

    #[inline(always)]
    fn add(&self, alloc: Global, operands: &mut Operands, next: Label) -> Result<(), AllocError> {
        operands.push(alloc, next)
    }

    #[inline(always)]
    fn together(
        &self,
        alloc: Global,
        connective: Connective,
        operands: Operands,
    ) -> Result<Label, AllocError> {
        operands.together(alloc, connective)
    }
}

/// The operand that a single token is.
#[inline(always)]
fn leaf_of(token: Token, scope: &Scope) -> Result<Label, HoaFault>
    ensures { Takes expression (labels.leaf_in scope.now.names) (labels.BadLeaf scope.now)
        (piece_of token.entry) result }
{
    match token.kind {
        Kind::Word if is_same(token.text, b"t") => Ok(Label::Truth(true)),
        Kind::Word if is_same(token.text, b"f") => Ok(Label::Truth(false)),
        Kind::Int => match int_of(token.text) {
            None => Err(fault_at(token, HoaCause::Limit)),
            Some(number) if is_beyond(scope.propositions, number) => {
                Err(fault_at(token, HoaCause::Range))
            }
            Some(number) => Ok(Label::Atom(number)),
        },
        Kind::AliasName => match scope.aliases.number(token.text) {
            None => Err(fault_at(token, HoaCause::Alias)),
            Some(number) => Ok(Label::Named(number)),
        },
        _ => Err(refused(token)),
    }
}

/// Whether no proposition has this number; false if their number is not known.
fn is_beyond(propositions: Option<usize>, number: u32) -> bool
    ensures { IsTrue result ↔ labels.IsBeyond propositions number }
{
    match propositions {
        None => false,
        Some(count) => count <= number as usize,
    }
}
