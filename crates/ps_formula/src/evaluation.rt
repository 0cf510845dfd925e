//! The truths of formulas along a lasso.

ghost use Rattle.std.specs.Prelude.{◌≡◌, ℕ, ◌+◌, ◌<◌, List, IfOk, length};
ghost use Rattle.std.specs.Bool.{Decides};
ghost use Rattle.ps_label.specs.Words.{lasso_word};
ghost use Rattle.ps_formula.specs.Formulas.{Formula, IsOver, IsTable, formula_of, formulas_of, nth};
ghost use Rattle.ps_formula.specs.Satisfaction.{Satisfies};
ghost use Rattle.ps_formula.specs.Inner.Passes.{step};
ghost use Rattle.ps_formula.specs.Inner.Truths.{HasTruths, IsForLasso, TellsLater, TellsPartly};

use crate::node::Node;
use crate::rows::Rows;
use std::alloc::{AllocError, Global};

/// The truth of each formula at each index up to the end of the first lap.
pub(crate) fn truths(
    alloc: Global,
    nodes: &[Node],
    stem: &[u64],
    lap: &[u64],
) -> Result<Rows, AllocError>
    requires table { IsTable nodes.now }
    requires some { 0 < length lap.now }
    ensures count { IfOk result (λ rows. rows.count ≡ length nodes.now) }
    ensures truths { IfOk result (HasTruths stem.now lap.now (length nodes.now) (formulas_of nodes.now)) }
{
    let width = stem.len() + lap.len();
    let mut rows = Rows::new(alloc, nodes.len(), stem.len(), width)?;
    for (row, node) in nodes.iter().enumerate() {
        fill_row(&mut rows, row, *node, stem, lap);
    }
    Ok(rows)
}

fn fill_row(rows: &mut Rows, row: usize, node: Node, stem: &[u64], lap: &[u64])
    requires row { row < rows.old.count }
    requires over { IsOver row node }
    requires lasso { IsForLasso stem.now lap.now rows.old }
    ensures count { rows.new.count ≡ rows.old.count }
    ensures lasso { IsForLasso stem.now lap.now rows.new }
    ensures truths { (known : List Formula) → HasTruths stem.now lap.now row known rows.old →
        nth known row ≡ formula_of known node → HasTruths stem.now lap.now (row + 1) known rows.new }
{
    let mut next = truth_at_lap(rows, node, stem, lap);
    for at in (0..rows.width).rev() {
        let letter = letter_at(stem, lap, at);
        next = truth_here(rows, node, letter, at, next);
        rows.set(row, at, next);
    }
}

fn letter_at(stem: &[u64], lap: &[u64], at: usize) -> u64
    requires { at < length stem.now + length lap.now }
    ensures { result ≡ lasso_word stem.now lap.now at }
{
    if at < stem.len() {
        stem[at]
    } else {
        lap[at - stem.len()]
    }
}

/// The truth of a form of until or release at the start of the lap. An until is true there if its right side makes it
/// true within the first lap, a release unless its right side makes it false there: one pass tells.
fn truth_at_lap(rows: &Rows, node: Node, stem: &[u64], lap: &[u64]) -> bool
    requires over { IsOver rows.now.count node }
    requires lasso { IsForLasso stem.now lap.now rows.now }
    ensures { (known : List Formula) (row : ℕ) → IsOver row node → HasTruths stem.now lap.now row known rows.now →
        TellsLater known (lasso_word stem.now lap.now) node (length stem.now) result }
{
    let mut next = match node {
        Node::Release(..) | Node::WeakUntil(..) | Node::Globally(_) => true,
        Node::Until(..) | Node::Finally(_) => false,
        _ => return false,
    };
    for at in (stem.len()..rows.width).rev() {
        let letter = letter_at(stem, lap, at);
        next = truth_here(rows, node, letter, at, next);
    }
    next
}

/// The truth of a formula at an index, by those of its operands and, for until and release, by its own at the next
/// index.
fn truth_here(rows: &Rows, node: Node, letter: u64, at: usize, next: bool) -> bool
    requires at { at < rows.now.width }
    requires over { IsOver rows.now.count node }
    ensures here { (known : List Formula) (row : ℕ) (stem lap : List ℕ) → IsOver row node →
        HasTruths stem lap row known rows.now → letter ≡ lasso_word stem lap at →
        TellsLater known (lasso_word stem lap) node (at + 1) next →
        Decides result (Satisfies (formula_of known node) (lasso_word stem lap) at) }
    ensures partly { (known : List Formula) (row : ℕ) (stem lap : List ℕ) (n : ℕ) → IsOver row node →
        HasTruths stem lap row known rows.now → at < n →
        TellsPartly known (lasso_word stem lap) node n (at + 1) next →
        TellsPartly known (lasso_word stem lap) node n at result }
{
    match node {
        Node::Constant(value) => value,
        Node::Proposition(p) => letter >> p & 1 == 1,
        Node::Not(f) => !rows.get(f, at),
        Node::And(f, g) => rows.get(f, at) & rows.get(g, at),
        Node::Or(f, g) => rows.get(f, at) | rows.get(g, at),
        Node::Implies(f, g) => !rows.get(f, at) | rows.get(g, at),
        Node::Iff(f, g) => rows.get(f, at) == rows.get(g, at),
        Node::Next(f) => rows.get(f, rows.index_after(at)),
        Node::Until(f, g) => step(true, rows.get(f, at), rows.get(g, at), next),
        Node::Release(f, g) => step(false, rows.get(f, at), rows.get(g, at), next),
        Node::WeakUntil(f, g) => {
            let right = rows.get(f, at) | rows.get(g, at);
            step(false, rows.get(g, at), right, next)
        }
        Node::Finally(f) => step(true, true, rows.get(f, at), next),
        Node::Globally(f) => step(false, false, rows.get(f, at), next),
    }
}

fn step(is_until: bool, left: bool, right: bool, next: bool) -> bool
    ensures { result ≡ step is_until left right next }
{
    if is_until {
        right | (left & next)
    } else {
        right & (left | next)
    }
}
