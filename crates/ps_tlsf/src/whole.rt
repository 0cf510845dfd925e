//! The formula of a whole specification, as operands and operators.

ghost use Rattle.std.specs.Prelude.{◌≡◌, ◌++◌, ◌∷◌, [], OnOk, IfOk, map, true, false};
ghost use Rattle.ps_tlsf.specs.Wholes.{always_ops, and_ops, conclusion_ops, conjunction, premise_ops, same_section};
ghost use Rattle.ps_tlsf.specs.Wholes.{strict_ops};
ghost use Rattle.ps_tlsf.specs.Wholes.{whole_ops};
ghost use Rattle.ps_tlsf.specs.Inner.StateViews.{written_data};

use crate::stack::Op;
use crate::steps::Written;
use crate::words::{Infix, Prefix, Section};
use std::alloc::{AllocError, Global};

fn same_section(one: Section, other: Section) -> bool
    ensures { result ≡ same_section one other }
{
    match (one, other) {
        (Section::Initially, Section::Initially) => true,
        (Section::Preset, Section::Preset) => true,
        (Section::Require, Section::Require) => true,
        (Section::Assert, Section::Assert) => true,
        (Section::Assume, Section::Assume) => true,
        (Section::Guarantee, Section::Guarantee) => true,
        _ => false,
    }
}

/// Appends a formula, and its conjunction with the one before it, if any.
fn append(out: &mut Vec<Op>, ops: &[Op], any: bool) -> Result<(), AllocError>
    ensures { OnOk result (out.new.items ≡ out.old.items ++ ops.now ++ and_ops any) }
{
    out.extend_from_slice(ops)?;
    if any {
        out.push(Op::Infix(Infix::And))?;
    }
    Ok(())
}

/// Appends the conjunction of a kind of sections.
fn conjoin(out: &mut Vec<Op>, formulas: &[Written], section: Section) -> Result<(), AllocError>
    ensures { OnOk result
        (out.new.items ≡ out.old.items ++ conjunction section false (map written_data formulas.now)) }
{
    let mut any = false;
    for formula in formulas {
        if same_section(section, formula.section) {
            append(out, formula.ops.as_slice(), any)?;
            any = true;
        }
    }
    if !any {
        out.push(Op::Constant(true))?;
    }
    Ok(())
}

/// The same, and `G`.
#[tactic(auto, using(crate::proofs::SectionFormulas::Joining::two))]
fn always(out: &mut Vec<Op>, formulas: &[Written], section: Section) -> Result<(), AllocError>
    ensures { OnOk result (out.new.items ≡ out.old.items ++ always_ops section (map written_data formulas.now)) }
{
    conjoin(out, formulas, section)?;
    out.push(Op::Prefix(Prefix::Globally))?;
    Ok(())
}

/// Appends `G R && A`.
#[tactic(auto, using(crate::proofs::SectionFormulas::Joining::three))]
fn premise(out: &mut Vec<Op>, formulas: &[Written]) -> Result<(), AllocError>
    ensures { OnOk result (out.new.items ≡ out.old.items ++ premise_ops (map written_data formulas.now)) }
{
    always(out, formulas, Section::Require)?;
    conjoin(out, formulas, Section::Assume)?;
    out.push(Op::Infix(Infix::And))?;
    Ok(())
}

/// Appends `G T && U`.
#[tactic(auto, using(crate::proofs::SectionFormulas::Joining::three))]
fn conclusion(out: &mut Vec<Op>, formulas: &[Written]) -> Result<(), AllocError>
    ensures { OnOk result (out.new.items ≡ out.old.items ++ conclusion_ops (map written_data formulas.now)) }
{
    always(out, formulas, Section::Assert)?;
    conjoin(out, formulas, Section::Guarantee)?;
    out.push(Op::Infix(Infix::And))?;
    Ok(())
}

/// Appends `P && T W !R`.
#[tactic(auto, using(crate::proofs::SectionFormulas::Joining::six))]
fn strict_part(out: &mut Vec<Op>, formulas: &[Written]) -> Result<(), AllocError>
    ensures { OnOk result (out.new.items ≡ out.old.items ++ strict_ops (map written_data formulas.now)) }
{
    conjoin(out, formulas, Section::Preset)?;
    conjoin(out, formulas, Section::Assert)?;
    conjoin(out, formulas, Section::Require)?;
    out.push(Op::Prefix(Prefix::Not))?;
    out.push(Op::Infix(Infix::WeakUntil))?;
    out.push(Op::Infix(Infix::And))?;
    Ok(())
}

/// Appends the implications and the conjunction of these parts.
#[tactic(auto, using(crate::proofs::SectionFormulas::Joining::three))]
fn join(out: &mut Vec<Op>) -> Result<(), AllocError>
    ensures { OnOk result (out.new.items ≡ out.old.items ++
        (Op.Infix Infix.Implies ∷ Op.Infix Infix.And ∷ Op.Infix Infix.Implies ∷ [])) }
{
    out.push(Op::Infix(Infix::Implies))?;
    out.push(Op::Infix(Infix::And))?;
    out.push(Op::Infix(Infix::Implies))?;
    Ok(())
}

/// The formula without `Strict`.
#[tactic(auto, using(crate::proofs::SectionFormulas::Joining::five))]
fn usual(out: &mut Vec<Op>, formulas: &[Written]) -> Result<(), AllocError>
    ensures { OnOk result (out.new.items ≡ out.old.items ++ whole_ops false (map written_data formulas.now)) }
{
    conjoin(out, formulas, Section::Initially)?;
    conjoin(out, formulas, Section::Preset)?;
    premise(out, formulas)?;
    conclusion(out, formulas)?;
    join(out)
}

/// The formula with `Strict`.
#[tactic(auto, using(crate::proofs::SectionFormulas::Joining::five))]
fn strict(out: &mut Vec<Op>, formulas: &[Written]) -> Result<(), AllocError>
    ensures { OnOk result (out.new.items ≡ out.old.items ++ whole_ops true (map written_data formulas.now)) }
{
    conjoin(out, formulas, Section::Initially)?;
    strict_part(out, formulas)?;
    premise(out, formulas)?;
    conjoin(out, formulas, Section::Guarantee)?;
    join(out)
}

/// The formula of a whole specification.
pub(crate) fn whole(
    alloc: Global,
    formulas: &[Written],
    is_strict: bool,
) -> Result<Vec<Op>, AllocError>
    ensures { IfOk result (λ ops. ops.items ≡ whole_ops is_strict (map written_data formulas.now)) }
{
    let mut out = Vec::new(alloc);
    if is_strict {
        strict(&mut out, formulas)?;
    } else {
        usual(&mut out, formulas)?;
    }
    Ok(out)
}
