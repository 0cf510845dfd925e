//! The operators and parentheses before an operand that is not complete.

ghost use Rattle.std.specs.Prelude.{◌≡◌, ◌∷◌, [], OnOk};
ghost use Rattle.ps_text.specs.Answers.{first_of};
ghost use Rattle.ps_tlsf.specs.Machines.{taken, taken_top, binds, tail_of};

use crate::words::{Infix, Prefix};
use std::alloc::{AllocError, Global};
use std::marker::Model;

/// What stands before such an operand.
#[derive(Clone, Copy, Debug, PartialEq, Eq)]
pub(crate) enum Form {
    Prefix(Prefix),
    Paren,
    Infix(Infix),
}

/// An operator or a parenthesis, and how deep an operand is nested after it.
#[derive(Clone, Copy, Debug)]
pub(crate) struct Frame {
    pub(crate) form: Form,
    pub(crate) depth: usize,
}

/// An operand, or an operator, which comes after its operands.
#[derive(Clone, Copy, Debug, PartialEq, Eq)]
pub(crate) enum Op {
    Constant(bool),
    Proposition(usize),
    Prefix(Prefix),
    Infix(Infix),
}

/// Which operators have their operands complete.
#[derive(Clone, Copy, Debug)]
pub(crate) enum Sweep {
    /// After an operand: the operators directly before it.
    Prefixes,
    /// Before an operator: the operators that bind tighter.
    Before(Infix),
    /// At the end of a formula, or at `)`: all up to the parenthesis.
    Row,
}

/// Frames, the last first.
#[derive(Debug, Drop)]
pub(crate) struct Stack {
    frames: Vec<Frame>,
}

impl Model for Stack {
    ghost use Rattle.std.specs.Prelude.{List, reverse};
    ghost use Rattle.ps_tlsf.specs.declared.stack.Frame.{Frame};

    ghost Value = { List Frame };

    ghost view = { λ s. reverse s.frames.items };
}

impl Stack {
    ghost use Rattle.std.specs.Prelude.{◌≡◌, ◌∷◌, [], OnOk};
    ghost use Rattle.ps_text.specs.Answers.{first_of};
    ghost use Rattle.ps_tlsf.specs.Machines.{tail_of};

    pub(crate) fn new(alloc: Global) -> Self
        ensures { result ≡ [] }
    {
        Stack {
            frames: Vec::new(alloc),
        }
    }

    #[inline(always)]
    pub(crate) fn top(&self) -> Option<Frame>
        ensures { result ≡ first_of self.now }
    {
        if self.frames.is_empty() {
            return None;
        }
        Some(self.frames[self.frames.len() - 1])
    }

    pub(crate) fn push(&mut self, frame: Frame) -> Result<(), AllocError>
        ensures { OnOk result (self.new ≡ frame ∷ self.old) }
    {
        self.frames.push(frame)?;
        Ok(())
    }

    pub(crate) fn pop(&mut self)
        ensures { self.new ≡ tail_of self.old }
    {
        self.frames.pop();
    }
}

/// Whether the second operator binds tighter than the first.
fn binds(outer: Infix, inner: Infix) -> bool
    ensures { result ≡ binds outer inner }
{
    match (outer, inner) {
        (Infix::And, Infix::And) => true,
        (Infix::Or, Infix::And) => true,
        (Infix::Or, Infix::Or) => true,
        (Infix::Implies, Infix::And) => true,
        (Infix::Implies, Infix::Or) => true,
        (Infix::Iff, Infix::And) => true,
        (Infix::Iff, Infix::Or) => true,
        _ => false,
    }
}

/// The operator whose operands are complete, if they are.
fn taken(sweep: Sweep, form: Form) -> Option<Op>
    ensures { result ≡ taken sweep form }
{
    match (sweep, form) {
        (Sweep::Prefixes, Form::Prefix(prefix)) => Some(Op::Prefix(prefix)),
        (Sweep::Before(outer), Form::Infix(inner)) if binds(outer, inner) => Some(Op::Infix(inner)),
        (Sweep::Row, Form::Infix(inner)) => Some(Op::Infix(inner)),
        _ => None,
    }
}

/// The last operator, if its operands are complete.
#[inline(always)]
pub(crate) fn taken_top(sweep: Sweep, stack: &Stack) -> Option<Op>
    ensures { result ≡ taken_top sweep stack.now }
{
    match stack.top() {
        None => None,
        Some(frame) => taken(sweep, frame.form),
    }
}
