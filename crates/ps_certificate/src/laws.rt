//! Laws about certificates.

ghost use Rattle.std.specs.Prelude.{◌≡◌, ◌<◌, ◌⊎◌, ℕ, List, Ok, length};
ghost use Rattle.ps_game.specs.Games.{NamedGameData, ParityGame, IsGame, owner_of, vertex_count};
ghost use Rattle.ps_certificate.specs.Certificates.{CertificateData, Fits, IsClosed, IsValid, IsFirstFlaw, winner_of};
ghost use Rattle.ps_certificate.specs.declared.flaw.Flaw.{Flaw};
ghost use Rattle.ps_certificate.specs.Regions.{BothKeep, BothHold, NoneWinsOutside};
ghost use Rattle.ps_certificate.specs.Texts.{ReadsCertificate};

/// In a closed certificate, a path that begins in a player's region and follows its moves stays there.
pub fn closed_regions_are_kept()
    ensures { (game : ParityGame) (certificate : CertificateData) → IsClosed game certificate →
        BothKeep game certificate }
{}

/// A player who follows the moves of a valid certificate stays in its region, and wins there.
pub fn valid_regions_are_held()
    ensures { (game : ParityGame) (certificate : CertificateData) → Fits game certificate → IsValid game certificate →
        BothHold game certificate }
{}

/// Outside the region that a valid certificate gives a player, neither a strategy of finite memory nor a history table,
/// which maps each play so far to a move, wins for it.
pub fn no_strategy_wins_outside()
    ensures { (game : ParityGame) (certificate : CertificateData) → IsGame game → Fits game certificate →
        IsValid game certificate → NoneWinsOutside game certificate }
{}

/// If each vertex belongs to one of the two players, any two valid certificates of a game give it the same winner.
pub fn winners_are_one()
    ensures { (game : ParityGame) (one other : CertificateData) →
        ((v : ℕ) → v < vertex_count game → owner_of game v < 2) →
        Fits game one → IsValid game one → Fits game other → IsValid game other →
        (v : ℕ) → v < vertex_count game → winner_of one v ≡ winner_of other v }
{}

/// A certificate has at most one first flaw.
pub fn first_flaw_is_one()
    ensures { (game : ParityGame) (certificate : CertificateData) (flaw other : Flaw) → IsGame game →
        IsFirstFlaw game certificate flaw → IsFirstFlaw game certificate other → flaw ≡ other }
{}

/// A certificate is closed, or has a first flaw; one that fits its game is valid, or has a first flaw.
pub fn first_flaw_is_there()
    ensures closed { (game : ParityGame) (certificate : CertificateData) → IsClosed game certificate ⊎
        (¬ IsClosed game certificate × ((flaw : Flaw) × IsFirstFlaw game certificate flaw)) }
    ensures valid { (game : ParityGame) (certificate : CertificateData) → Fits game certificate →
        IsValid game certificate ⊎
        (¬ IsValid game certificate × ((flaw : Flaw) × IsFirstFlaw game certificate flaw)) }
{}

/// The certificate that a text describes fits the game.
pub fn read_certificate_fits()
    ensures { (named : NamedGameData) (text : List ℕ) (certificate : CertificateData) →
        length named.ids ≡ vertex_count named.game → ReadsCertificate named text (Ok certificate) →
        Fits named.game certificate }
{}
