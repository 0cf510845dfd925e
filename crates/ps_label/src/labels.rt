//! Aliases, and the truth of labels.

ghost use Rattle.std.specs.Prelude.{◌≡◌, ℕ, ◌+◌, ◌^◌, ◌<◌, ◌++◌, ◌∷◌, [], List, Bool, IfOk, OnErr, OnOk, length};
ghost use Rattle.ps_label.specs.Expression.{Expression, expression, IsOver, AreOrdered, operands_in};
ghost use Rattle.ps_label.specs.Expression.{literal_expression, literal_expressions};
ghost use Rattle.ps_label.specs.Truth.{AreTruths, alias_truths, all_true, expressions, label_truth, truth};

use crate::label::Label;
use crate::literal::Literal;
use std::alloc::{AllocError, Global};
use std::marker::Model;

/// The aliases of a text in the order of their definitions, each over earlier ones and propositions less than 64.
#[derive(Debug, Drop)]
pub struct Labels {
    aliases: Vec<Label>,
}

impl Model for Labels {
    ghost use Rattle.std.specs.Prelude.{List};
    ghost use Rattle.ps_label.specs.declared.label.Label.{Label};
    ghost use Rattle.ps_label.specs.Expression.{AreOrdered};
    ghost use Rattle.ps_label.specs.Truth.{expressions};
    ghost use Rattle.std.specs.Coded.{codes};
    ghost use Rattle.ps_label.specs.contracts.label.Label as e;

    ghost Value = { List Label };

    ghost coded = { Prim.hlevel (codes, e.the_row.coded) };

    ghost view = { λ s. s.aliases.items };

    ghost invariant = { λ s. AreOrdered (expressions s.aliases.items) };
}

impl Labels {
    /// No aliases.
    pub fn new(alloc: Global) -> Self
        ensures { result ≡ [] }
    {
        Labels {
            aliases: Vec::new(alloc),
        }
    }

    /// Adds an alias at the end. Fails if out of memory.
    pub fn push(&mut self, label: Label) -> Result<(), AllocError>
        requires within { IsOver (length self.old) 64 (expression label) }
        ensures ok { OnOk result (self.new ≡ self.old ++ label ∷ []) }
        ensures err { OnErr result (self.new ≡ self.old) }
    {
        self.aliases.push(label)?;
        Ok(())
    }

    /// The aliases in the order of their definitions.
    pub fn as_slice(&self) -> &[Label]
        ensures value { result.now ≡ self.now }
        ensures ordered { AreOrdered (expressions self.now) }
    {
        self.aliases.as_slice()
    }

    /// The truth of a label at a letter. Each alias is evaluated once; its truth is then in `scratch`.
    pub fn eval(&self, label: &Label, letter: u64, scratch: &mut [bool]) -> bool
        requires room { length scratch.old ≡ length self.now }
        requires within { IsOver (length self.now) 64 (expression label.now) }
        ensures { result ≡ label_truth (expressions self.now) letter (expression label.now) }
    {
        for (k, alias) in self.aliases.iter().enumerate() {
            let value = truth_by(alias, letter, &scratch[..k]);
            scratch[k] = value;
        }
        truth_by(label, letter, scratch)
    }
}

/// If each alias uses only earlier ones, there is exactly one table of their truths at a letter in which each has the
/// truth of its expression, computed with the same table. It gives the truth of each label.
pub fn one_table_of_truths()
    ensures table { (aliases : List Expression) (letter : ℕ) → AreOrdered aliases →
        AreTruths aliases letter (alias_truths aliases letter) }
    ensures only { (aliases : List Expression) (letter : ℕ) (known : List Bool) → AreOrdered aliases →
        AreTruths aliases letter known → known ≡ alias_truths aliases letter }
    ensures label { (aliases : List Expression) (letter : ℕ) (known : List Bool) (e : Expression) → AreOrdered aliases →
        AreTruths aliases letter known → label_truth aliases letter e ≡ truth known letter e }
{}

fn truth_by(label: &Label, letter: u64, known: &[bool]) -> bool
    requires { IsOver (length known.now) 64 (expression label.now) }
    ensures { result ≡ truth known.now letter (expression label.now) }
{
    match label {
        Label::Truth(value) => *value,
        Label::Atom(proposition) => letter >> *proposition & 1 == 1,
        Label::Negated(proposition) => letter >> *proposition & 1 == 0,
        Label::Named(alias) => known[*alias],
        Label::Literals(literals) => are_true(literals.as_slice(), letter),
        Label::Neg(operand) => !truth_by(operand, letter, known),
        Label::Both(operands) => {
            for operand in operands {
                if !truth_by(operand, letter, known) {
                    return false;
                }
            }
            true
        }
        Label::Either(operands) => {
            for operand in operands {
                if truth_by(operand, letter, known) {
                    return true;
                }
            }
            false
        }
    }
}

fn are_true(literals: &[Literal], letter: u64) -> bool
    ensures { (known : List Bool) →
        result ≡ all_true known letter (operands_in (literal_expressions literals.now)) }
{
    for literal in literals {
        if !is_true(*literal, letter) {
            return false;
        }
    }
    true
}

fn is_true(literal: Literal, letter: u64) -> bool
    ensures { (known : List Bool) → result ≡ truth known letter (literal_expression literal) }
{
    (letter >> literal.proposition() & 1 == 1) != literal.is_negated()
}
