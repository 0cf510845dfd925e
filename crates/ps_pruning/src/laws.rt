//! Laws about pruned games and their certificates: each law is the contract of a function with an empty body.

ghost use Rattle.std.specs.Prelude.{◌≡◌, ℕ, List, Option};
ghost use Rattle.ps_game.specs.Games.{owner_of};
ghost use Rattle.ps_certificate.specs.Certificates.{CertificateData, Fits, IsValid, winner_of};
ghost use Rattle.ps_pruning.specs.Lifting.{Pruning, IsPruning, IsCovered, IsKeptAs, IsGuide, IsLift, HasEntryOf};
ghost use Rattle.ps_pruning.specs.Lifting.{AreCandidates, IsGuideBy};

/// If each vertex of the second mover may be replaced by a kept one with no other successors, each lift of a valid
/// certificate of the pruned game is a valid certificate of the whole game.
pub fn lift_is_certificate()
    ensures { (p : Pruning) (certificate lifted : CertificateData) (guide : ℕ → Option ℕ) → IsPruning p → IsCovered p →
        Fits p.pruned certificate → IsValid p.pruned certificate → IsGuide p certificate guide →
        IsLift p certificate guide lifted → Fits p.game lifted × IsValid p.game lifted }
{}

/// A lift keeps the winner of each kept vertex. At a vertex of the first mover it also keeps the move and the counts.
pub fn lift_keeps_winners()
    ensures winners { (p : Pruning) (certificate lifted : CertificateData) (guide : ℕ → Option ℕ) → IsPruning p →
        Fits p.pruned certificate → IsValid p.pruned certificate → IsGuide p certificate guide →
        IsLift p certificate guide lifted → (u v : ℕ) → IsKeptAs p u v →
        winner_of lifted v ≡ winner_of certificate u }
    ensures firsts { (p : Pruning) (certificate lifted : CertificateData) (guide : ℕ → Option ℕ) → IsPruning p →
        Fits p.pruned certificate → IsValid p.pruned certificate → IsGuide p certificate guide →
        IsLift p certificate guide lifted → (u v : ℕ) → IsKeptAs p u v → owner_of p.game v ≡ p.mover →
        HasEntryOf p certificate lifted v u }
{}

/// Each valid certificate of a pruned game has a lift for each guide.
pub fn lift_is_there()
    ensures { (p : Pruning) (certificate : CertificateData) (guide : ℕ → Option ℕ) → IsPruning p →
        Fits p.pruned certificate → IsValid p.pruned certificate → IsGuide p certificate guide →
        (lifted : CertificateData) × IsLift p certificate guide lifted }
{}

/// Each certificate of a pruned game has a guide for each order in which a vertex's candidates are tried.
pub fn guide_is_there()
    ensures { (p : Pruning) (certificate : CertificateData) (order : ℕ → List ℕ) → AreCandidates p certificate order →
        (guide : ℕ → Option ℕ) × IsGuideBy p certificate order guide }
{}
