//! Conjunctions of formulas, and sentences as formulas.

ghost use Rattle.std.specs.Prelude.{◌≡◌, ◌<◌, ◌∷◌, [], IfOk, IfSome, IsTrue, List, length, map, slice_index_or};
ghost use Rattle.std.specs.Prelude.{true};
ghost use Rattle.ps_formula.specs.Formulas.{constant, formula_at};
ghost use Rattle.ps_formula.specs.declared.node.Node.{Node};
ghost use Rattle.ps_sentences.specs.Conjunctions.{AreImplications, IsConjunctionIn};
ghost use Rattle.ps_sentences.specs.Inner.Conjoining.{IsConjoined, IsConjoinedFor};
ghost use Rattle.ps_sentences.specs.Inner.Sharing.{IsSharedIn};
ghost use Rattle.ps_sentences.specs.Partings.{AreSentencesIn};
ghost use Rattle.ps_sentences.specs.Tables.{AreIn, IsGrownTable};

use crate::layers::{Shared, shared_layer};
use crate::parting::Sentence;
use ps_formula::{Formulas, Node};
use std::alloc::{AllocError, Global};

/// The number of layers through which the conjunction of two formulas is looked for.
const DEPTH: u32 = 8;

/// The conjunction of formulas of a table; `true` if there are none. Fails if out of memory.
pub fn conjunction(table: &mut Formulas, formulas: &[u32]) -> Result<u32, AllocError>
    requires { AreIn table.old formulas.now }
    ensures { IfOk result (IsConjunctionIn table.old formulas.now table.new) }
{
    let mut all = table.add(Node::Constant(true))?;
    for &formula in formulas {
        all = table.add(Node::And(all, formula))?;
    }
    Ok(all)
}

/// The same, within operators that neighbours have in common: of `G f` and `G g` it is `G (f && g)`. Its negation has a
/// smaller tableau then. Fails if out of memory.
pub fn merged(table: &mut Formulas, formulas: &[u32]) -> Result<u32, AllocError>
    requires { AreIn table.old formulas.now }
    ensures { IfOk result (IsConjunctionIn table.old formulas.now table.new) }
{
    let mut all = table.add(Node::Constant(true))?;
    for &formula in formulas {
        all = both(table, all, formula, DEPTH)?;
    }
    Ok(all)
}

/// The conjunction of two formulas, within the layers that they have in common.
fn both(table: &mut Formulas, first: u32, second: u32, depth: u32) -> Result<u32, AllocError>
    requires first { first < length table.old }
    requires second { second < length table.old }
    ensures { IfOk result (IsConjunctionIn table.old (first ∷ second ∷ []) table.new) }
{
    if is_true(table, first) {
        return Ok(second);
    }
    match layer_at(table, first, second) {
        Some(shared) if depth > 0 => {
            let inner = both(table, shared.first, shared.second, depth - 1)?;
            table.add(shared.layer.around(inner))
        }
        _ => table.add(Node::And(first, second)),
    }
}

fn is_true(table: &Formulas, index: u32) -> bool
    requires { index < length table.now }
    ensures { IsTrue result → formula_at table.now index ≡ constant true }
{
    let node = table.as_slice()[index as usize];
    match node {
        Node::Constant(value) => value,
        _ => false,
    }
}

/// The layer that two formulas have in common.
fn layer_at(table: &Formulas, first: u32, second: u32) -> Option<Shared>
    requires first { first < length table.now }
    requires second { second < length table.now }
    ensures { IfSome result (IsSharedIn table.now first second) }
{
    let left = table.as_slice()[first as usize];
    let right = table.as_slice()[second as usize];
    shared_layer(left, right)
}

/// For each sentence, the formula that its antecedents imply its consequent. Lists and formulas are those of a
/// [`Parting`](crate::Parting). Fails if out of memory.
pub fn implications(
    alloc: Global,
    table: &mut Formulas,
    lists: &[Vec<u32>],
    sentences: &[Sentence],
) -> Result<Vec<u32>, AllocError>
    requires { AreSentencesIn table.old (map (λ v. v.items) lists.now) sentences.now }
    ensures { IfOk result (λ goals. AreImplications table.old (map (λ v. v.items) lists.now) sentences.now table.new
        goals.items) }
{
    let mut goals = Vec::new(alloc);
    let mut last = None;
    for sentence in sentences {
        let known = conjoined_list(table, lists, last, sentence.antecedents)?;
        let goal = table.add(Node::Implies(known.conjunction, sentence.consequent))?;
        goals.push(goal)?;
        last = Some(known);
    }
    Ok(goals)
}

/// The conjunction of a list.
#[derive(Clone, Copy)]
struct Conjoined {
    list: u32,
    conjunction: u32,
}

/// The conjunction of a list, which may be known.
fn conjoined_list(
    table: &mut Formulas,
    lists: &[Vec<u32>],
    last: Option<Conjoined>,
    list: u32,
) -> Result<Conjoined, AllocError>
    requires there { list < length lists.now }
    requires formulas { AreIn table.old (slice_index_or (map (λ v. v.items) lists.now) list []) }
    ensures { (nodes : List Node) → IsGrownTable nodes table.old →
        AreIn nodes (slice_index_or (map (λ v. v.items) lists.now) list []) →
        IfSome last (IsConjoined nodes (map (λ v. v.items) lists.now) table.old) →
        IfOk result (IsConjoinedFor nodes (map (λ v. v.items) lists.now) list table.old table.new) }
{
    if let Some(known) = last
        && known.list == list
    {
        return Ok(known);
    }
    let conjunction = conjunction(table, &lists[list as usize])?;
    Ok(Conjoined { list, conjunction })
}
