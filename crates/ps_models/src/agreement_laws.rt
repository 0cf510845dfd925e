//! Laws about automata that are compared with formulas.

ghost use Rattle.std.specs.Prelude.{◌^◌, ◌<◌, ℕ, List, length};
ghost use Rattle.ps_automaton.specs.Answers.{IsAdmitted};
ghost use Rattle.ps_hoa.specs.Files.{FileData};
ghost use Rattle.ps_hoa.specs.Sound.{IsSoundFile};
ghost use Rattle.ps_simulate.specs.Symbols.{AreDistinct};
ghost use Rattle.ps_models.specs.Agreements.{ArePropositionsOf, HasOneReading, IsAcceptedWrongly, IsAgreeing};
ghost use Rattle.ps_models.specs.Agreements.{IsRejectedWrongly};
ghost use Rattle.ps_models.specs.Judgements.{NamedFormula};

use ps_automaton::automaton_is_there;

/// An automaton and a formula either agree, or differ on some lasso, but not both; on no lasso do they differ in both
/// ways. If they differ on no lasso, they agree. The law is about a parsed file that has an automaton (`IsAdmitted`)
/// whose propositions are some of the formula's, each of the same player.
pub fn agreement_is_one()
    ensures agrees { (file : FileData) (f : NamedFormula) → IsSoundFile file → IsAdmitted file →
        AreDistinct f.names → ArePropositionsOf file.names file.controllable f →
        ((stem lap : List ℕ) → ¬ IsAcceptedWrongly file f stem lap) →
        ((stem lap : List ℕ) → ¬ IsRejectedWrongly file f stem lap) → IsAgreeing file f }
    ensures accepts { (file : FileData) (f : NamedFormula) (stem lap : List ℕ) → IsAgreeing file f →
        ¬ IsAcceptedWrongly file f stem lap }
    ensures rejects { (file : FileData) (f : NamedFormula) (stem lap : List ℕ) → IsAgreeing file f →
        ¬ IsRejectedWrongly file f stem lap }
    ensures apart { (file : FileData) (f : NamedFormula) (stem lap : List ℕ) → IsAcceptedWrongly file f stem lap →
        ¬ IsRejectedWrongly file f stem lap }
{
    automaton_is_there();
}

/// An automaton reads each letter of a formula in exactly one way, if its propositions are some of the formula's.
pub fn letters_are_read()
    ensures { (own : List (List ℕ)) (own_controllable : List ℕ) (f : NamedFormula) (letter : ℕ) →
        AreDistinct f.names → ArePropositionsOf own own_controllable f → HasOneReading own f.names letter }
{}
