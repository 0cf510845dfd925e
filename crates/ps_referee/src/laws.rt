//! Laws (theorems): each solution has one verdict, but for which lost cycle is reported.

ghost use Rattle.std.specs.Prelude.{◌≡◌, ◌⊎◌, ℕ, List, Option, Bool};
ghost use Rattle.ps_game.specs.Games.{ParityGame, IsGame};
ghost use Rattle.ps_certificate.specs.Certificates.{CertificateData, IsFirstFlaw};
ghost use Rattle.ps_certificate.specs.declared.flaw.Flaw.{Flaw};
ghost use Rattle.ps_referee.specs.Solutions.{claimed, IsSolution, IsCycleOf, IsCertificateOf};

/// A solution has at most one certificate with least counts.
pub fn one_certificate()
    ensures { (game : ParityGame) (won : List Bool) (first second : List (Option ℕ)) (one other : CertificateData) →
        IsCertificateOf game won first second one → IsCertificateOf game won first second other → one ≡ other }
{}

/// A solution never has both a flaw and a lost cycle (`IsCycleOf`); one player loses all of these; a right solution has
/// neither. The first flaw is unique (`ps_certificate::first_flaw_is_one`).
pub fn one_verdict()
    ensures apart { (game : ParityGame) (won : List Bool) (first second : List (Option ℕ)) (flaw : Flaw) (player : ℕ)
        (cycle : List ℕ) → IsFirstFlaw game (claimed game won first second) flaw →
        ¬ IsCycleOf game won first second player cycle }
    ensures player { (game : ParityGame) (won : List Bool) (first second : List (Option ℕ)) (player other : ℕ)
        (cycle another : List ℕ) → IsCycleOf game won first second player cycle →
        IsCycleOf game won first second other another → player ≡ other }
    ensures no_flaw { (game : ParityGame) (won : List Bool) (first second : List (Option ℕ)) (flaw : Flaw) →
        IsGame game → IsSolution game won first second → ¬ IsFirstFlaw game (claimed game won first second) flaw }
    ensures no_cycle { (game : ParityGame) (won : List Bool) (first second : List (Option ℕ)) (player : ℕ)
        (cycle : List ℕ) → IsSolution game won first second → ¬ IsCycleOf game won first second player cycle }
{}

/// A solution is right and has a certificate, or has a first flaw, or a lost cycle.
pub fn solution_is_judged()
    ensures { (game : ParityGame) (won : List Bool) (first second : List (Option ℕ)) → IsGame game →
        (IsSolution game won first second ×
        ((certificate : CertificateData) × IsCertificateOf game won first second certificate)) ⊎
        ((flaw : Flaw) × IsFirstFlaw game (claimed game won first second) flaw) ⊎
        ((player : ℕ) × (cycle : List ℕ) × IsCycleOf game won first second player cycle) }
{
    ps_certificate::first_flaw_is_there();
    ps_measure::counts_are_there();
}
