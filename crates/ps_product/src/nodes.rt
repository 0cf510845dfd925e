//! Diagrams of truths, and their values at a letter.

ghost use Rattle.std.specs.Prelude.{◌≡◌, ◌≢◌, ◌+◌, ◌^◌, ◌<◌, ◌≤◌, ℕ, All, IfNone, IfOk, IfSome, is_some, length};
ghost use Rattle.std.specs.Prelude.{slice_index};
ghost use Rattle.ps_diagram.specs.Composing.{IsLetterOfTruths};
ghost use Rattle.ps_diagram.specs.Table.{IsNode, Keeps, MakesNode, leaf_of};
ghost use Rattle.ps_label.specs.Truth.{is_in};
ghost use Rattle.ps_product.specs.Groups.{AreDifferent, StandFor};
ghost use Rattle.ps_product.specs.Truths.{IsTruth, bits_of, truth_at};

use crate::truth::Truth;
use ps_diagram::{Node, Store};
use std::alloc::{AllocError, Global};

/// The diagram with a leaf where the function is true.
fn node_of(store: &mut Store, truth: Truth) -> Result<Node, AllocError>
    requires { IsTruth store.old truth }
    ensures { MakesNode store.old store.new result (λ node. (letter : ℕ) →
        is_some (leaf_of store.new node letter) ≡ truth_at store.old truth letter) }
{
    match truth {
        Truth::Never => store.none(),
        Truth::Always => store.leaf(1),
        Truth::Sometimes { is_negated, node } => {
            if is_negated {
                store.negated(node)
            } else {
                Ok(node)
            }
        }
    }
}

/// For each proposition, a diagram over the inputs: that of the output's function if it is one, and else its own.
pub fn nodes_of(
    alloc: Global,
    store: &mut Store,
    list: &[u32],
    outputs: &[Truth],
) -> Result<Vec<Node>, AllocError>
    requires one_each { length list.now ≡ length outputs.now }
    requires different { AreDifferent list.now }
    requires truths { All (IsTruth store.old) outputs.now }
    ensures keeps { Keeps store.old store.new }
    ensures count { IfOk result (λ nodes. length nodes.items ≡ store.old.propositions) }
    ensures nodes { IfOk result (λ nodes. StandFor store.new list.now outputs.now nodes.items) }
{
    let mut nodes = Vec::new(alloc);
    for p in 0..store.propositions() {
        let node = match place_in(list, p) {
            Some(k) => node_of(store, outputs[k])?,
            None => store.of_proposition(p)?,
        };
        nodes.push(node)?;
    }
    Ok(nodes)
}

/// The index of a proposition in a list.
fn place_in(list: &[u32], p: u32) -> Option<usize>
    ensures some { IfSome result (λ k. (k < length list.now) × (slice_index list.now k ≡ p)) }
    ensures none { IfNone result ((k : ℕ) → k < length list.now → slice_index list.now k ≢ p) }
{
    for (k, q) in list.iter().enumerate() {
        if *q == p {
            return Some(k);
        }
    }
    None
}

/// The letter of the values that the propositions' diagrams have at the given one: true where they have a leaf.
pub(crate) fn letter_at(store: &Store, nodes: &[Node], letter: u64) -> u64
    requires few { length nodes.now ≤ 64 }
    requires held { All (IsNode store.now) nodes.now }
    ensures few { result < 2 ^ length nodes.now }
    ensures letter { IsLetterOfTruths store.now nodes.now letter result }
{
    let mut whole = 0;
    for (p, node) in nodes.iter().enumerate() {
        whole = with_bit(whole, p, store.eval(*node, letter).is_some());
    }
    whole
}

/// The letter with the bit of p after those of the propositions before it.
fn with_bit(letter: u64, p: usize, bit: bool) -> u64
    requires named { p < 64 }
    requires few { letter < 2 ^ p }
    ensures few { result < 2 ^ (p + 1) }
    ensures at { is_in p result ≡ bit }
    ensures before { (q : ℕ) → q < p → is_in q result ≡ is_in q letter }
{
    if bit { letter + (1 << p) } else { letter }
}

/// The values of truths at a letter.
pub fn bits_of(
    alloc: Global,
    store: &Store,
    truths: &[Truth],
    letter: u64,
) -> Result<Vec<bool>, AllocError>
    requires { All (IsTruth store.now) truths.now }
    ensures { IfOk result (λ bits. bits.items ≡ bits_of store.now truths.now letter) }
{
    let mut bits = Vec::new(alloc);
    for truth in truths {
        bits.push(holds(store, *truth, letter))?;
    }
    Ok(bits)
}

fn holds(store: &Store, truth: Truth, letter: u64) -> bool
    requires { IsTruth store.now truth }
    ensures { result ≡ truth_at store.now truth letter }
{
    match truth {
        Truth::Never => false,
        Truth::Always => true,
        Truth::Sometimes { is_negated, node } => {
            store.eval(node, letter).is_some() != is_negated
        }
    }
}
