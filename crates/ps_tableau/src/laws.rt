//! Laws about tableaux.

ghost use Rattle.std.specs.Prelude.{ℕ, ◌<◌, Bool, false, true, List, [], ◌∷◌, ◌++◌};
ghost use Rattle.ps_formula.specs.NormalForms.{NormalFormula, after, both, either, keeps, literal, reaches, truth};
ghost use Rattle.ps_formula.specs.Satisfaction.{IsDecidedWord};
ghost use Rattle.ps_tableau.specs.Covers.{AreCoversOf, Cover, SatisfiesAll};
ghost use Rattle.ps_tableau.specs.Examples.{end_now, p_until_q, not_postponing};
ghost use Rattle.ps_tableau.specs.Operators.{AreProducts, ArePruned, free_cover, literal_cover, next_cover};
ghost use Rattle.ps_tableau.specs.Operators.{postponing_cover};
ghost use Rattle.ps_tableau.specs.Runs.{HasFairRun, HasRound, IsFair, IsFairRun, IsPartialTableau, IsTableau};
ghost use Rattle.ps_tableau.specs.Runs.{Tableau};

/// A word with a fair run satisfies the obligations of the run's first state, even if not each cover leads to a state.
pub fn fair_run_satisfies()
    ensures { (t : Tableau) (w : ℕ → ℕ) (states : ℕ → ℕ) (run : ℕ → Cover) → IsPartialTableau t →
        IsFairRun t w states run → SatisfiesAll (t.obligations (states 0)) w 0 }
{}

/// A word that satisfies a state's obligations has a fair run from there, if each formula is true or false at each
/// index.
pub fn satisfied_has_fair_run()
    ensures { (t : Tableau) (w : ℕ → ℕ) (q : ℕ) → IsTableau t → IsDecidedWord w → q < t.count →
        SatisfiesAll (t.obligations q) w 0 → HasFairRun t w q }
{}

/// If the indices of a fair run have finitely many values, two with the same value have between them, for each until,
/// an index at which it is not postponed.
pub fn fair_run_has_round()
    ensures { (untils : List NormalFormula) (run : ℕ → Cover) (values : ℕ → ℕ) (count : ℕ) → IsFair untils run →
        ((i : ℕ) → values i < count) → HasRound untils run values }
{}

/// Covers of `p U q` that do not postpone it, or that lack the second way, are wrong.
pub fn wrong_covers_are_none()
    ensures postponing { ¬ AreCoversOf (p_until_q ∷ []) (end_now ∷ not_postponing ∷ []) }
    ensures second_way { ¬ AreCoversOf (p_until_q ∷ []) (end_now ∷ []) }
{}

/// The covers of a formula, by those of its operands.
pub fn covers_of_each_operator()
    ensures of_true { AreCoversOf (truth true ∷ []) (free_cover ∷ []) }
    ensures of_false { AreCoversOf (truth false ∷ []) [] }
    ensures of_literal { (negated : Bool) (p : ℕ) →
        AreCoversOf (literal negated p ∷ []) (literal_cover negated p ∷ []) }
    ensures of_and { (f g : NormalFormula) (first second products : List Cover) → AreCoversOf (f ∷ []) first →
        AreCoversOf (g ∷ []) second → AreProducts first second products → AreCoversOf (both f g ∷ []) products }
    ensures of_or { (f g : NormalFormula) (first second : List Cover) → AreCoversOf (f ∷ []) first →
        AreCoversOf (g ∷ []) second → AreCoversOf (either f g ∷ []) (first ++ second) }
    ensures of_next { (f : NormalFormula) → AreCoversOf (after f ∷ []) (next_cover f ∷ []) }
    ensures of_until { (f g : NormalFormula) (first second products : List Cover) → AreCoversOf (f ∷ []) first →
        AreCoversOf (g ∷ []) second → AreProducts first (postponing_cover (reaches f g) ∷ []) products →
        AreCoversOf (reaches f g ∷ []) (second ++ products) }
    ensures of_release { (f g : NormalFormula) (first second products : List Cover) → AreCoversOf (f ∷ []) first →
        AreCoversOf (g ∷ []) second → AreProducts second (first ++ next_cover (keeps f g) ∷ []) products →
        AreCoversOf (keeps f g ∷ []) products }
{}

/// The covers of several obligations, by those of some of them and of the others.
pub fn covers_of_more_obligations()
    ensures none { AreCoversOf [] (free_cover ∷ []) }
    ensures more { (some others : List NormalFormula) (first second products : List Cover) → AreCoversOf some first →
        AreCoversOf others second → AreProducts first second products → AreCoversOf (some ++ others) products }
{}

/// Covers stay covers if they are pruned letter by letter.
pub fn pruned_covers_are_covers()
    ensures { (obligations : List NormalFormula) (old new : List Cover) → AreCoversOf obligations old →
        ArePruned old new → AreCoversOf obligations new }
{}
