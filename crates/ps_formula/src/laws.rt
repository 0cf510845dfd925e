//! Laws about formulas.

ghost use Rattle.std.specs.Prelude.{◌≡◌, ◌↔◌, ℕ, ◌+◌, ◌<◌, ◌≤◌, ◌++◌, List, Some, length, slice_get};
ghost use Rattle.ps_label.specs.Words.{lasso_word};
ghost use Rattle.ps_formula.specs.declared.node.Node.{Node};
ghost use Rattle.ps_formula.specs.Formulas.{Formula, IsTable, and_of, formula_at, formula_of, formulas_of, next, or_of};
ghost use Rattle.ps_formula.specs.Formulas.{release, until, weak_until};
ghost use Rattle.ps_formula.specs.Satisfaction.{IsDecidedWord, Satisfies};

/// A node's formula is its operator, applied to the operands' formulas, and stays if a table grows.
pub fn each_node_is_a_formula()
    ensures operator { (nodes : List Node) (k : ℕ) (node : Node) → IsTable nodes → slice_get nodes k ≡ Some node →
        formula_at nodes k ≡ formula_of (formulas_of nodes) node }
    ensures stays { (nodes more : List Node) (k : ℕ) → k < length nodes →
        formula_at (nodes ++ more) k ≡ formula_at nodes k }
{}

/// Whether a word satisfies a formula at an index depends only on the letters from this index on.
pub fn rest_decides()
    ensures { (f : Formula) (v w : ℕ → ℕ) (i j : ℕ) → ((k : ℕ) → v (i + k) ≡ w (j + k)) →
        (Satisfies f v i) ↔ (Satisfies f w j) }
{}

/// Along a lasso, each formula is true or false at each index, the same again after each lap.
pub fn lasso_truths()
    ensures repeat { (f : Formula) (stem lap : List ℕ) (i : ℕ) → length stem ≤ i →
        (Satisfies f (lasso_word stem lap) (i + length lap)) ↔ (Satisfies f (lasso_word stem lap) i) }
    ensures decided { (stem lap : List ℕ) → 0 < length lap → IsDecidedWord (lasso_word stem lap) }
{}

/// The expansion laws: until and release by their truth at the next index.
pub fn expansions()
    ensures until { (f g : Formula) (w : ℕ → ℕ) (i : ℕ) →
        (Satisfies (until f g) w i) ↔ (Satisfies (or_of g (and_of f (next (until f g)))) w i) }
    ensures release { (f g : Formula) (w : ℕ → ℕ) (i : ℕ) → IsDecidedWord w →
        (Satisfies (release f g) w i) ↔ (Satisfies (and_of g (or_of f (next (release f g)))) w i) }
{}

/// `f W g` does not need g: where f is always true and g never, it holds, and `f U g` does not.
pub fn weak_until_is_not_until()
    ensures { (f g : Formula) (w : ℕ → ℕ) (i : ℕ) → ((j : ℕ) → i ≤ j → Satisfies f w j) →
        ((j : ℕ) → i ≤ j → ¬ Satisfies g w j) →
        Satisfies (weak_until f g) w i × ¬ Satisfies (until f g) w i }
{}
