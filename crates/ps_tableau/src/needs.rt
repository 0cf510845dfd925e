//! The formulas that one formula needs.

ghost use Rattle.std.specs.Prelude.{◌≡◌, ◌<◌, ◌^◌, ℕ, IfOk, OnOk, length};
ghost use Rattle.ps_formula.specs.NormalForms.{IsNormalOver, IsNormalTable};
ghost use Rattle.ps_tableau.specs.Inner.NeedSteps.{AddsUntil, KeepsNeeds};
ghost use Rattle.ps_tableau.specs.Needs.{AreUntils, IsNeeded, NeedsAll, NeedsOperands};

use ps_formula::NormalNode;
use std::alloc::{AllocError, Global};

/// Whether each formula is needed: that with the index `root`, and the operands of those that are.
pub(crate) fn needs_of(
    alloc: Global,
    nodes: &[NormalNode],
    root: u32,
) -> Result<Vec<bool>, AllocError>
    requires table { IsNormalTable nodes.now }
    requires root { root < length nodes.now }
    ensures needs { IfOk result (λ needed. NeedsAll nodes.now needed.items) }
    ensures root { IfOk result (λ needed. IsNeeded needed.items root) }
{
    let mut needed = Vec::new(alloc);
    needed.resize(nodes.len(), false)?;
    needed[root as usize] = true;
    for index in (0..nodes.len()).rev() {
        if needed[index] {
            need_operands(&mut needed, nodes[index]);
        }
    }
    Ok(needed)
}

fn need_operands(needed: &mut Vec<bool>, node: NormalNode)
    requires { IsNormalOver (length needed.old.items) node }
    ensures operands { NeedsOperands needed.new.items node }
    ensures keeps { (bound : ℕ) → IsNormalOver bound node → KeepsNeeds bound needed.old.items needed.new.items }
{
    match node {
        NormalNode::Constant(_) | NormalNode::Proposition(_) | NormalNode::Negated(_) => {}
        NormalNode::Next(f) => needed[f as usize] = true,
        NormalNode::And(f, g)
        | NormalNode::Or(f, g)
        | NormalNode::Until(f, g)
        | NormalNode::Release(f, g) => {
            needed[f as usize] = true;
            needed[g as usize] = true;
        }
    }
}

pub(crate) fn untils_of(
    alloc: Global,
    nodes: &[NormalNode],
    needed: &[bool],
) -> Result<Vec<u32>, AllocError>
    requires needed { length needed.now ≡ length nodes.now }
    requires few { length nodes.now < 2 ^ 32 }
    ensures { IfOk result (λ untils. AreUntils nodes.now needed.now untils.items) }
{
    let mut untils = Vec::new(alloc);
    for index in 0..nodes.len() {
        add_until(&mut untils, index as u32, nodes[index], needed[index])?;
    }
    Ok(untils)
}

fn add_until(
    untils: &mut Vec<u32>,
    index: u32,
    node: NormalNode,
    is_needed: bool,
) -> Result<(), AllocError>
    ensures { OnOk result (AddsUntil untils.old.items index node is_needed untils.new.items) }
{
    if !is_needed {
        return Ok(());
    }
    if let NormalNode::Until(_, _) = node {
        untils.push(index)?;
    }
    Ok(())
}
