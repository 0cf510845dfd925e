//! The work on a formula, by operator precedence.

ghost use Rattle.std.specs.Prelude.{◌≡◌, OnOk};
ghost use Rattle.ps_text.specs.declared.faults.Fault.TheVariants as faults;
ghost use Rattle.ps_tlsf.specs.Machines as machines;
ghost use Rattle.ps_tlsf.specs.Machines.{at_operand, counted, depth_of, ended, may_follow, nested};
ghost use Rattle.ps_tlsf.specs.Machines.{top_form, unwound, with_infix, with_leaf, with_name, with_operand, with_paren};
ghost use Rattle.ps_tlsf.specs.Names.{number_of};
ghost use Rattle.ps_tlsf.specs.Inner.Views.{IsUnwound, Steps, token_data, work_data};

use crate::fault::{TlsfCause, TlsfFault};
use crate::names::Names;
use crate::stack::{Form, Frame, Op, Stack, Sweep, taken_top};
use crate::tokens::Token;
use crate::words::{Infix, Sign, is_word};
use std::alloc::AllocError;

/// The most operators and operands.
const USE_LIMIT: usize = 65535;

/// The most operators before an operand and parentheses around it.
const NESTING_LIMIT: usize = 256;

/// The work on a formula.
#[derive(Debug, Drop)]
pub(crate) struct Work {
    pub(crate) stack: Stack,
    /// Operands, and operators after their operands.
    pub(crate) ops: Vec<Op>,
    /// How many operators and operands there are, in all formulas.
    pub(crate) used: usize,
    /// The offset of the formula's first byte.
    pub(crate) start: usize,
    /// The offset after the last byte of the last operand.
    pub(crate) stop: usize,
}

/// The fault of a token.
pub(crate) fn fault_at(cause: TlsfCause, token: Token) -> TlsfFault
    ensures { result ≡ faults.Text cause token.entry.start }
{
    TlsfFault::Text {
        cause,
        offset: token.start,
    }
}

/// Moves operators with complete operands from the stack to the list.
fn unwind(sweep: Sweep, stack: &mut Stack, ops: &mut Vec<Op>) -> Result<(), AllocError>
    ensures { OnOk result (IsUnwound (unwound sweep stack.old ops.old.items) stack.new ops.new.items) }
{
    'frames: while let Some(op) = taken_top(sweep, stack) {
        ops.push(op)?;
        stack.pop();
    }
    Ok(())
}

/// The operators before an operand and parentheses on the stack.
fn depth_of(stack: &Stack) -> usize
    ensures { result ≡ depth_of stack.now }
{
    match stack.top() {
        None => 0,
        Some(frame) => frame.depth,
    }
}

fn top_form(stack: &Stack) -> Option<Form>
    ensures { result ≡ top_form stack.now }
{
    match stack.top() {
        None => None,
        Some(frame) => Some(frame.form),
    }
}

/// Whether the operator may follow what is left on the stack.
fn may_follow(operator: Infix, top: Option<Form>) -> bool
    ensures { result ≡ may_follow operator top }
{
    match (operator, top) {
        (_, None) => true,
        (_, Some(Form::Paren)) => true,
        (Infix::And, Some(Form::Infix(Infix::Or))) => true,
        (Infix::And, Some(Form::Infix(Infix::Implies))) => true,
        (Infix::And, Some(Form::Infix(Infix::Iff))) => true,
        (Infix::Or, Some(Form::Infix(Infix::Implies))) => true,
        (Infix::Or, Some(Form::Infix(Infix::Iff))) => true,
        (Infix::Implies, Some(Form::Infix(Infix::Implies))) => true,
        _ => false,
    }
}

/// Counts an operator or an operand.
fn count(work: &mut Work, token: Token) -> Result<(), TlsfFault>
    ensures { Steps (counted (work_data work.old)) token.entry.start result (work_data work.new) }
{
    if work.used >= USE_LIMIT {
        return Err(fault_at(TlsfCause::Limit, token));
    }
    work.used += 1;
    Ok(())
}

/// Puts an operator or a parenthesis on the stack.
fn nest(form: Form, work: &mut Work, token: Token) -> Result<(), TlsfFault>
    ensures { Steps (nested form (work_data work.old)) token.entry.start result (work_data work.new) }
{
    let depth = depth_of(&work.stack);
    if depth >= NESTING_LIMIT {
        return Err(fault_at(TlsfCause::Limit, token));
    }
    work.stack.push(Frame {
        form,
        depth: depth + 1,
    })?;
    Ok(())
}

/// Reads an operand that is a single token.
fn read_leaf(op: Op, work: &mut Work, token: Token) -> Result<(), TlsfFault>
    ensures { Steps (with_leaf op token.entry.stop (work_data work.old)) token.entry.start result (work_data work.new) }
{
    count(work, token)?;
    work.ops.push(op)?;
    close_operand(work, token)?;
    Ok(())
}

/// Moves the operators directly before an operand.
fn close_operand(work: &mut Work, token: Token) -> Result<(), AllocError>
    ensures { OnOk result (work_data work.new ≡
        with_operand (work_data work.old) work.old.stack work.old.ops.items token.entry.stop) }
{
    unwind(Sweep::Prefixes, &mut work.stack, &mut work.ops)?;
    work.stop = token.stop;
    Ok(())
}

/// Reads an operator before its operand.
fn read_prefix(form: Form, work: &mut Work, token: Token) -> Result<(), TlsfFault>
    ensures { Steps (machines.and_then (counted (work_data work.old)) (nested form)) token.entry.start result
        (work_data work.new) }
{
    count(work, token)?;
    nest(form, work, token)
}

/// Reads the first token of an operand.
pub(crate) fn read_operand(names: &Names, work: &mut Work, token: Token) -> Result<(), TlsfFault>
    ensures { Steps (at_operand names.now (work_data work.old) (token_data token.entry) token.entry.sign)
        token.entry.start result (work_data work.new) }
{
    match token.sign {
        Sign::Prefix(operator) => read_prefix(Form::Prefix(operator), work, token),
        Sign::LeftParen => nest(Form::Paren, work, token),
        Sign::Constant(value) => read_leaf(Op::Constant(value), work, token),
        Sign::Infix(_) => Err(fault_at(TlsfCause::Syntax, token)),
        _ if is_word(token.sign) => read_name(names, work, token),
        _ => Err(fault_at(TlsfCause::Syntax, token)),
    }
}

/// Reads a name.
fn read_name(names: &Names, work: &mut Work, token: Token) -> Result<(), TlsfFault>
    ensures { Steps (with_name (number_of names.now token.entry.text.now) token.entry.stop
        (work_data work.old)) token.entry.start result (work_data work.new) }
{
    match names.number(token.text) {
        None => Err(fault_at(TlsfCause::Name, token)),
        Some(number) => read_leaf(Op::Proposition(number), work, token),
    }
}

/// Reads an operator after its first operand.
pub(crate) fn read_infix(operator: Infix, work: &mut Work, token: Token) -> Result<(), TlsfFault>
    ensures { Steps (with_infix operator (work_data work.old)) token.entry.start result (work_data work.new) }
{
    unwind(Sweep::Before(operator), &mut work.stack, &mut work.ops)?;
    if !may_follow(operator, top_form(&work.stack)) {
        return Err(fault_at(TlsfCause::Syntax, token));
    }
    count(work, token)?;
    let depth = depth_of(&work.stack);
    work.stack.push(Frame {
        form: Form::Infix(operator),
        depth,
    })?;
    Ok(())
}

/// Reads `)` after an operand.
pub(crate) fn read_paren(work: &mut Work, token: Token) -> Result<(), TlsfFault>
    ensures { Steps (with_paren token.entry.stop (work_data work.old)) token.entry.start result (work_data work.new) }
{
    unwind(Sweep::Row, &mut work.stack, &mut work.ops)?;
    if top_form(&work.stack) != Some(Form::Paren) {
        return Err(fault_at(TlsfCause::Syntax, token));
    }
    work.stack.pop();
    close_operand(work, token)?;
    Ok(())
}

/// Ends a formula before the token.
pub(crate) fn read_end(work: &mut Work, token: Token) -> Result<(), TlsfFault>
    ensures { Steps (ended (work_data work.old)) token.entry.start result (work_data work.new) }
{
    unwind(Sweep::Row, &mut work.stack, &mut work.ops)?;
    if top_form(&work.stack).is_some() {
        return Err(fault_at(TlsfCause::Syntax, token));
    }
    Ok(())
}
