//! The diagram of a list of cases: products of literals, each with a leaf.

ghost use Rattle.std.specs.Prelude.{◌≡◌, ℕ, ◌<◌, ◌≤◌, Bool, true, false, Contains, IfNone, IfOk, IfSome, length};
ghost use Rattle.std.specs.Prelude.{Some, filter, take};
ghost use Rattle.std.specs.List.Sorted.{IsPermutation};
ghost use Rattle.ps_label.specs.Truth.{is_in};
ghost use Rattle.ps_diagram.specs.Products.{IsLeafByCases, allows, meets};
ghost use Rattle.ps_diagram.specs.Split.{IsConstant};
ghost use Rattle.ps_diagram.specs.Table.{IsNode, Keeps, leaf_of, tree_of};
ghost use Rattle.ps_diagram.specs.Tree.{Tree};
ghost use Rattle.ps_diagram.specs.Inner.Splitting.{AreUntested, IsByCases};
ghost use Rattle.ps_diagram.specs.declared.cases.Case.{Case};

use crate::products::Product;
use crate::store::Store;
use crate::view::Node;
use std::alloc::AllocError;

/// How many steps `of_cases` may take for each case, on average: to look at a case of a list that is split, or to go to
/// the next proposition for a case that is alone.
const STEPS: usize = 256;

/// One case of a diagram: its leaf at letters at which the product is true.
#[derive(Clone, Copy)]
pub struct Case {
    pub product: Product,
    pub leaf: u64,
    /// A number that tells cases with the same leaf apart.
    pub kind: u64,
}

impl Store {
    /// The diagram that has, at each letter, the leaf of the cases whose products are true there, or else `other`; it
    /// reorders the cases. None if cases that differ in leaf or kind are true at one letter, or if it takes too many
    /// steps, as it does if many products leave out propositions that others test first.
    pub fn of_cases(&mut self, cases: &mut [Case], other: u64) -> Result<Option<Node>, AllocError>
        ensures keeps { Keeps self.old self.new }
        ensures same { IsPermutation cases.old cases.new }
        ensures held { IfOk result (λ made. IfSome made (λ node. IsNode self.new node)) }
        ensures leaf { IfOk result (λ made. IfSome made (λ node. (letter : ℕ) →
            IsLeafByCases (λ case. meets self.old.propositions case.product letter) cases.old (Some other)
            (leaf_of self.new node letter))) }
    {
        let other = self.constant(Some(other))?;
        let mut steps = cases.len().saturating_mul(STEPS);
        self.split_cases(cases, 0, other, &mut steps)
    }

    /// The diagram by cases, whose literals count from the proposition `level` on; `other` is constant, and `steps` are
    /// left.
    fn split_cases(
        &mut self,
        cases: &mut [Case],
        level: u32,
        other: Node,
        steps: &mut usize,
    ) -> Result<Option<Node>, AllocError>
        requires within { level ≤ self.old.propositions }
        requires held { IsNode self.old other }
        requires constant { IsConstant (tree_of self.old other) }
        ensures keeps { Keeps self.old self.new }
        ensures same { IsPermutation cases.old cases.new }
        ensures made { IfOk result (λ made. IfSome made (IsByCases self.new level cases.old (tree_of self.old other))) }
    {
        let needed = steps_for(cases.len(), self.propositions() - level);
        if *steps < needed {
            return Ok(None);
        }
        *steps -= needed;
        if cases.len() < 2 {
            return Ok(Some(self.of_few(cases, level, other)?));
        }
        let Some(proposition) = self.first_tested(cases, level) else {
            return self.of_untested(cases);
        };
        let lows = partition(cases, proposition, false);
        let Some(low) = self.split_cases(&mut cases[..lows], proposition + 1, other, steps)? else {
            return Ok(None);
        };
        let highs = partition(cases, proposition, true);
        let Some(high) = self.split_cases(&mut cases[..highs], proposition + 1, other, steps)?
        else {
            return Ok(None);
        };
        Ok(Some(self.test(proposition, low, high)?))
    }

    fn of_few(&mut self, cases: &[Case], level: u32, other: Node) -> Result<Node, AllocError>
        requires few { length cases.now < 2 }
        requires within { level ≤ self.old.propositions }
        requires held { IsNode self.old other }
        requires constant { IsConstant (tree_of self.old other) }
        ensures keeps { Keeps self.old self.new }
        ensures made { IfOk result (IsByCases self.new level cases.now (tree_of self.old other)) }
    {
        let Some(case) = cases.first() else {
            return Ok(other);
        };
        let leaf = self.constant(Some(case.leaf))?;
        self.path(case.product, level, leaf, other)
    }

    /// The common leaf of the cases, without literals from `level` on; None if two cases differ.
    fn of_untested(&mut self, cases: &[Case]) -> Result<Option<Node>, AllocError>
        requires some { 0 < length cases.now }
        ensures keeps { Keeps self.old self.new }
        ensures made { IfOk result (λ made. IfSome made (λ node. (level : ℕ) (other : Tree) →
            AreUntested level self.old.propositions cases.now → IsByCases self.new level cases.now other node)) }
    {
        let first = cases[0];
        for case in cases {
            if case.leaf != first.leaf || case.kind != first.kind {
                return Ok(None);
            }
        }
        Ok(Some(self.constant(Some(first.leaf))?))
    }

    /// The first proposition, from `level` on, of which a case has a literal.
    fn first_tested(&self, cases: &[Case], level: u32) -> Option<u32>
        ensures none { IfNone result (AreUntested level self.now.propositions cases.now) }
        ensures few { IfSome result (λ p. p < 64) }
        ensures some { IfSome result (λ p. (level ≤ p) × (p < self.now.propositions) × AreUntested level p cases.now) }
    {
        let tested = tested_by(cases);
        let propositions = self.propositions();
        for proposition in level..propositions {
            if tested >> proposition & 1 == 1 {
                return Some(proposition);
            }
        }
        None
    }
}

/// The steps to split `count` cases, or to make one case over the last `propositions`.
fn steps_for(count: usize, propositions: u32) -> usize {
    match count {
        1 => propositions as usize,
        _ => count,
    }
}

fn tested_by(cases: &[Case]) -> u64
    ensures { (case : Case) → Contains cases.now case → (p : ℕ) → p < 64 → is_in p result ≡ false → (b : Bool) →
        allows case.product p b ≡ true }
{
    let mut tested = 0;
    for case in cases {
        tested |= case.product.positive | case.product.negative;
    }
    tested
}

/// Moves the cases that allow the proposition this value to the front, and returns their number.
fn partition(cases: &mut [Case], proposition: u32, value: bool) -> usize
    requires named { proposition < 64 }
    ensures same { IsPermutation cases.old cases.new }
    ensures within { result ≤ length cases.old }
    ensures front { take result cases.new ≡ filter (λ case. allows case.product proposition value) cases.old }
{
    let mut count = 0;
    for place in 0..cases.len() {
        if cases[place].product.allows(proposition, value) {
            cases.swap(count, place);
            count += 1;
        }
    }
    count
}
