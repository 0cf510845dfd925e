//! Splits the leaves of a diagram by the values of truths.

ghost use Rattle.std.specs.Prelude.{All, IsTrue, [], ◌∷◌};
ghost use Rattle.indexmap.specs.IndexSet.{IsUnique};
ghost use Rattle.ps_diagram.specs.Inner.Known.{pair_eq};
ghost use Rattle.ps_product.specs.Groups.{Groups, IsWhole};
ghost use Rattle.ps_product.specs.Inner.Edges.{CanSplit, IsToldApart};
ghost use Rattle.ps_product.specs.Truths.{IsTruth};

use crate::truth::Truth;
use indexmap::IndexSet;
use ps_diagram::{Node, Store};
use std::alloc::{AllocError, Global};

/// A node with the same leaf at two letters exactly if `node` has the same leaf at both, and each truth the same value.
pub fn grouped(
    alloc: Global,
    store: &mut Store,
    node: Node,
    truths: &[Truth],
) -> Result<Node, AllocError>
    requires whole { IsWhole store.old node }
    requires truths { All (IsTruth store.old) truths.now }
    ensures { Groups store.old store.new node truths.now result }
{
    let mut made = node;
    for (place, truth) in truths.iter().enumerate() {
        if !is_told_apart(store, &truths[..place], truth) {
            made = split_by(alloc, store, made, *truth)?;
        }
    }
    Ok(made)
}

/// Whether the values in `before` decide that of `truth`, because one of them is this function or its negation.
fn is_told_apart(store: &Store, before: &[Truth], truth: &Truth) -> bool
    requires before { All (IsTruth store.now) before.now }
    requires truth { IsTruth store.now truth.now }
    ensures { IsTrue result → IsToldApart store.now before.now truth.now }
{
    for other in before {
        if is_same_or_negated(store, *other, *truth) {
            return true;
        }
    }
    false
}

/// Whether two functions that are not constant have the same diagram.
fn is_same_or_negated(store: &Store, first: Truth, second: Truth) -> bool
    requires first { IsTruth store.now first }
    requires second { IsTruth store.now second }
    ensures { IsTrue result → IsToldApart store.now (first ∷ []) second }
{
    let Truth::Sometimes { node: one, .. } = first else {
        return false;
    };
    let Truth::Sometimes { node: other, .. } = second else {
        return false;
    };
    store.same(one, other)
}

/// As `grouped`, for one function.
fn split_by(alloc: Global, store: &mut Store, node: Node, truth: Truth) -> Result<Node, AllocError>
    requires { CanSplit store.old node truth }
    ensures { Groups store.old store.new node (truth ∷ []) result }
{
    let Truth::Sometimes {
        node: condition,
        ..
    } = truth
    else {
        return Ok(node);
    };
    let sides = store.fill(condition, 0)?;
    let mut pairs = IndexSet::new(alloc);
    let made = store.both(node, sides, &mut pairs)?;
    pairs_differ(&pairs);
    Ok(made)
}

/// No pair of the set occurs twice: the prover learns it here.
fn pairs_differ(pairs: &IndexSet<(u64, u64)>)
    ensures { IsUnique pair_eq pairs.now }
{
    pairs.as_slice();
}
