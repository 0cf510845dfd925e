//! Formulas as nodes of a table.

ghost use Rattle.std.specs.Prelude.{◌≡◌, ◌∷◌, ◌<◌, ℕ, List, IfOk, OnOk, length};
ghost use Rattle.ps_formula.specs.Formulas as formulas;
ghost use Rattle.ps_formula.specs.Formulas.{Formula, IsOver, IsTable, formula_at, formula_of, formulas_of, nth};
ghost use Rattle.ps_tlsf.specs.Trees.{applied, joined, prefixed, value_of};
ghost use Rattle.ps_tlsf.specs.Inner.Building.{AreIn, IsBuilt, IsPushed, stack_of};

use crate::stack::Op;
use crate::words::{Infix, Prefix};
use ps_formula::{Formulas, Node};
use std::alloc::{AllocError, Global};

fn add_node(table: &mut Formulas, node: Node) -> Result<u32, AllocError>
    requires { IsOver (length table.old) node }
    ensures { IfOk result (IsBuilt table.old (formula_of (formulas_of table.old) node) table.new) }
{
    operands_are_earlier(table);
    table.add(node)
}

/// The operands of each node come before it: the prover learns it here.
fn operands_are_earlier(table: &Formulas)
    ensures { IsTable table.now }
{
    table.as_slice();
}

/// The node of an operator before its operand.
fn prefix_node(operator: Prefix, f: u32) -> Node
    ensures over { (count : ℕ) → f < count → IsOver count result }
    ensures formula { (known : List Formula) → formula_of known result ≡ prefixed operator (nth known f) }
{
    match operator {
        Prefix::Not => Node::Not(f),
        Prefix::Next => Node::Next(f),
        Prefix::Finally => Node::Finally(f),
        Prefix::Globally => Node::Globally(f),
    }
}

/// The node of an operator between its operands.
fn infix_node(operator: Infix, f: u32, g: u32) -> Node
    ensures over { (count : ℕ) → f < count → g < count → IsOver count result }
    ensures formula { (known : List Formula) → formula_of known result ≡ joined operator (nth known f) (nth known g) }
{
    match operator {
        Infix::And => Node::And(f, g),
        Infix::Or => Node::Or(f, g),
        Infix::Implies => Node::Implies(f, g),
        Infix::Iff => Node::Iff(f, g),
        Infix::Until => Node::Until(f, g),
        Infix::Release => Node::Release(f, g),
        Infix::WeakUntil => Node::WeakUntil(f, g),
    }
}

pub(crate) fn add_constant(table: &mut Formulas, value: bool) -> Result<u32, AllocError>
    ensures { IfOk result (IsBuilt table.old (formulas.constant value) table.new) }
{
    add_node(table, Node::Constant(value))
}

/// Adds an operator before its operand.
pub(crate) fn add_prefix(table: &mut Formulas, operator: Prefix, f: u32) -> Result<u32, AllocError>
    requires { f < length table.old }
    ensures { IfOk result (IsBuilt table.old (prefixed operator (formula_at table.old f)) table.new) }
{
    add_node(table, prefix_node(operator, f))
}

/// Adds an operator between its operands.
pub(crate) fn add_infix(
    table: &mut Formulas,
    operator: Infix,
    f: u32,
    g: u32,
) -> Result<u32, AllocError>
    requires left { f < length table.old }
    requires right { g < length table.old }
    ensures { IfOk result
        (IsBuilt table.old (joined operator (formula_at table.old f) (formula_at table.old g)) table.new) }
{
    add_node(table, infix_node(operator, f, g))
}

/// Adds a node, and puts it on the stack.
fn push(table: &mut Formulas, stack: &mut Vec<u32>, node: Node) -> Result<(), AllocError>
    requires valid { AreIn table.old stack.old.items }
    requires over { IsOver (length table.old) node }
    ensures { OnOk result (IsPushed table.old
        (formula_of (formulas_of table.old) node ∷ stack_of table.old stack.old.items) table.new stack.new.items) }
{
    let id = add_node(table, node)?;
    stack.push(id)?;
    Ok(())
}

/// Applies an operator to the formula on the top of the stack.
fn push_prefix(
    table: &mut Formulas,
    stack: &mut Vec<u32>,
    operator: Prefix,
) -> Result<(), AllocError>
    requires { AreIn table.old stack.old.items }
    ensures { OnOk result (IsPushed table.old (applied (Op.Prefix operator) (stack_of table.old stack.old.items))
        table.new stack.new.items) }
{
    match stack.pop() {
        None => Ok(()),
        Some(f) => push(table, stack, prefix_node(operator, f)),
    }
}

/// Applies an operator to the two formulas on the top of the stack.
fn push_infix(table: &mut Formulas, stack: &mut Vec<u32>, operator: Infix) -> Result<(), AllocError>
    requires { AreIn table.old stack.old.items }
    ensures { OnOk result (IsPushed table.old (applied (Op.Infix operator) (stack_of table.old stack.old.items))
        table.new stack.new.items) }
{
    let Some(g) = stack.pop() else {
        return Ok(());
    };
    match stack.pop() {
        None => stack.push(g).map_err(|refused| refused.into()),
        Some(f) => push(table, stack, infix_node(operator, f, g)),
    }
}

/// Applies an operand or an operator to the formulas before it.
fn apply(table: &mut Formulas, stack: &mut Vec<u32>, op: Op) -> Result<(), AllocError>
    requires { AreIn table.old stack.old.items }
    ensures { OnOk result (IsPushed table.old (applied op (stack_of table.old stack.old.items))
        table.new stack.new.items) }
{
    match op {
        Op::Constant(value) => push(table, stack, Node::Constant(value)),
        Op::Proposition(number) if number < 64 => {
            push(table, stack, Node::Proposition(number as u32))
        }
        Op::Proposition(_) => Ok(()),
        Op::Prefix(operator) => push_prefix(table, stack, operator),
        Op::Infix(operator) => push_infix(table, stack, operator),
    }
}

/// Adds the formula of operands and operators.
pub(crate) fn add_formula(
    alloc: Global,
    table: &mut Formulas,
    ops: &[Op],
) -> Result<u32, AllocError>
    ensures { IfOk result (IsBuilt table.old (value_of ops.now) table.new) }
{
    let mut stack = Vec::new(alloc);
    for op in ops {
        apply(table, &mut stack, *op)?;
    }
    match stack.pop() {
        None => add_constant(table, true),
        Some(id) => Ok(id),
    }
}
