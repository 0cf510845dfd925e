//! The chain of an acceptance condition.

ghost use Rattle.std.specs.Prelude.{◌≡◌, IfOk, Some, map, not, option_map};
ghost use Rattle.ps_hoa.specs.Values.{condition_of};
ghost use Rattle.ps_automaton.specs.Chains as chains;
ghost use Rattle.ps_automaton.specs.Chains.{base_alone, has_complement, in_front, link_to};
ghost use Rattle.ps_automaton.specs.Inner.Gathering.{IsGathered, with_base};
ghost use Rattle.ps_automaton.specs.Inner.Views.{chain_data, link_data};

use ps_hoa::Cond;
use std::alloc::{AllocError, Global};

/// A link of a chain.
#[derive(Clone, Copy)]
pub(crate) struct Link {
    /// The number of an acceptance set.
    pub set: u32,
    /// Whether a run is accepted if it meets the set infinitely often, but no earlier link's set.
    pub accepts: bool,
}

/// The first link whose set a run meets infinitely often decides whether the run is accepted.
#[derive(Drop)]
pub(crate) struct Chain {
    pub links: Vec<Link>,
    /// Whether a run is accepted if it meets no link's set infinitely often.
    pub base: bool,
}

/// Whether an acceptance condition contains a complemented set.
pub(crate) fn is_complemented(condition: &Cond) -> bool
    ensures { result ≡ has_complement (condition_of condition.now) }
{
    match condition {
        Cond::Always => false,
        Cond::Never => false,
        Cond::Inf(_, complemented) => *complemented,
        Cond::Fin(_, complemented) => *complemented,
        Cond::All(operands) => {
            for operand in operands {
                if is_complemented(operand) {
                    return true;
                }
            }
            false
        }
        Cond::Any(operands) => {
            for operand in operands {
                if is_complemented(operand) {
                    return true;
                }
            }
            false
        }
    }
}

pub(crate) fn chain_of(alloc: Global, condition: &Cond) -> Result<Option<Chain>, AllocError>
    ensures { IfOk result (λ chain. option_map chain_data chain ≡ chains.chain_of (condition_of condition.now)) }
{
    let mut links = Vec::new(alloc);
    let base = base_behind(condition, &mut links)?;
    Ok(base.map(|base| Chain { links, base }))
}

/// Appends the links of a condition's chain, and returns its base, or `None` if the condition is not a chain.
fn base_behind(condition: &Cond, links: &mut Vec<Link>) -> Result<Option<bool>, AllocError>
    ensures { IfOk result (λ base. with_base links.new.items base ≡ in_front (Some (map link_data links.old.items))
        (chains.chain_of (condition_of condition.now))) }
{
    match condition {
        Cond::Always => Ok(Some(true)),
        Cond::Never => Ok(Some(false)),
        Cond::Inf(set, complemented) => one_link(*set, *complemented, true, links),
        Cond::Fin(set, complemented) => one_link(*set, *complemented, false, links),
        Cond::Any(operands) => match gather(operands, true, links)? {
            Gathered::All => Ok(Some(false)),
            Gathered::AllBut(k) => base_behind(&operands[k], links),
            Gathered::TooFew => Ok(None),
        },
        Cond::All(operands) => match gather(operands, false, links)? {
            Gathered::All => Ok(Some(true)),
            Gathered::AllBut(k) => base_behind(&operands[k], links),
            Gathered::TooFew => Ok(None),
        },
    }
}

/// Which operands of a disjunction or a conjunction are links.
#[derive(Clone, Copy)]
enum Gathered {
    /// All.
    All,
    /// All but the one at this index.
    AllBut(usize),
    /// At least two are not.
    TooFew,
}

/// Appends the links of the operands of a disjunction or a conjunction.
fn gather(operands: &[Cond], accepts: bool, links: &mut Vec<Link>) -> Result<Gathered, AllocError>
    ensures { IfOk result (λ gathered. IsGathered accepts operands.now links.old.items links.new.items gathered) }
{
    let mut remaining = None;
    for (k, operand) in operands.iter().enumerate() {
        match link_of(operand, accepts) {
            Some(link) => links.push(link)?,
            None if remaining.is_some() => return Ok(Gathered::TooFew),
            None => remaining = Some(k),
        }
    }
    Ok(match remaining {
        None => Gathered::All,
        Some(k) => Gathered::AllBut(k),
    })
}

/// The link of an operand, if it is one.
fn link_of(operand: &Cond, accepts: bool) -> Option<Link>
    ensures { option_map link_data result ≡ chains.link_of accepts (condition_of operand.now) }
{
    match operand {
        Cond::Inf(set, false) if accepts => Some(Link { set: *set, accepts }),
        Cond::Fin(set, false) if !accepts => Some(Link { set: *set, accepts }),
        _ => None,
    }
}

/// Appends the link of a single `Inf` or `Fin`, and returns the chain's base, or `None` if the set is complemented.
fn one_link(
    set: u32,
    complemented: bool,
    accepts: bool,
    links: &mut Vec<Link>,
) -> Result<Option<bool>, AllocError>
    ensures { IfOk result (λ base. with_base links.new.items base ≡ in_front (Some (map link_data links.old.items))
        (in_front (chains.one_link (link_to accepts (record { number = set; complemented = complemented })))
        (base_alone (not accepts)))) }
{
    if complemented {
        return Ok(None);
    }
    links.push(Link { set, accepts })?;
    Ok(Some(!accepts))
}
