//! The propositions that a formula mentions.

ghost use Rattle.std.specs.Prelude.{◌≡◌, ◌↔◌, ℕ, ◌<◌, IfOk, List, length};
ghost use Rattle.ps_label.specs.Truth.{is_in};
ghost use Rattle.ps_formula.specs.Formulas.{Formula, IsOver, IsTable, formula_at, formula_of, formulas_of};
ghost use Rattle.ps_formula.specs.Satisfaction.{Satisfies};
ghost use Rattle.ps_sentences.specs.Inner.MentionedBefore.{EachMentioned};
ghost use Rattle.ps_sentences.specs.Mentions.{AreMentioned, Mentions};

use ps_formula::{Formulas, Node};
use std::alloc::{AllocError, Global};

/// The propositions that a formula mentions, as a letter: bit p is set if it mentions proposition p. Takes time and
/// memory proportional to the number of nodes up to the formula's. Fails if out of memory.
pub fn mentioned(alloc: Global, formulas: &Formulas, root: u32) -> Result<u64, AllocError>
    requires { root < length formulas.now }
    ensures { IfOk result (AreMentioned (formula_at formulas.now root)) }
{
    let nodes = &formulas.as_slice()[..root as usize + 1];
    let letters = letters_of(alloc, nodes)?;
    Ok(letters[root as usize])
}

/// For each node, the propositions that its formula mentions.
fn letters_of(alloc: Global, nodes: &[Node]) -> Result<Vec<u64>, AllocError>
    requires { IsTable nodes.now }
    ensures count { IfOk result (λ letters. length letters.items ≡ length nodes.now) }
    ensures letters { IfOk result (λ letters. EachMentioned (formulas_of nodes.now) letters.items) }
{
    let mut letters = Vec::new(alloc);
    for node in nodes {
        let letter = mentioned_by(&letters, *node);
        letters.push(letter)?;
    }
    Ok(letters)
}

/// The propositions that a node mentions, by those of the nodes before it.
fn mentioned_by(letters: &[u64], node: Node) -> u64
    requires { IsOver (length letters.now) node }
    ensures { (known : List Formula) → EachMentioned known letters.now → AreMentioned (formula_of known node) result }
{
    match node {
        Node::Constant(_) => 0,
        Node::Proposition(p) => 1 << p,
        Node::Not(f) | Node::Next(f) | Node::Finally(f) | Node::Globally(f) => letters[f as usize],
        Node::And(f, g)
        | Node::Or(f, g)
        | Node::Implies(f, g)
        | Node::Iff(f, g)
        | Node::Until(f, g)
        | Node::Release(f, g)
        | Node::WeakUntil(f, g) => letters[f as usize] | letters[g as usize],
    }
}

/// Whether a word satisfies a formula depends on the propositions that the formula mentions alone.
pub fn truth_depends_on_mentions()
    ensures { (f : Formula) (v w : ℕ → ℕ) →
        ((p : ℕ) → Mentions f p → (k : ℕ) → is_in p (v k) ≡ is_in p (w k)) → (i : ℕ) →
        (Satisfies f v i) ↔ (Satisfies f w i) }
{}
