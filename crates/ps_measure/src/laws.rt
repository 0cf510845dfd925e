//! A law (theorem) about least counts and lost cycles.

ghost use Rattle.std.specs.Prelude.{ℕ, ◌<◌, ◌⊎◌, Bool, List, Option};
ghost use Rattle.ps_game.specs.Games.{ParityGame};
ghost use Rattle.ps_game.specs.Plays.{Holds};
ghost use Rattle.ps_measure.specs.Ranks.{AreRanks, IsLostCycle};

/// For any region and moves of a player, least counts exist, or there is a cycle that the player loses. If the player
/// holds the region by the moves (`Holds`), least counts exist.
pub fn counts_are_there()
    ensures either { (game : ParityGame) (player : ℕ) (set : ℕ → Bool) (table : ℕ → Option ℕ) →
        ((priorities : List ℕ) × (rows : List (List ℕ)) × AreRanks game player set table priorities rows) ⊎
        ((cycle : List ℕ) × IsLostCycle game player set table cycle) }
    ensures held { (game : ParityGame) (player : ℕ) (set : ℕ → Bool) (table : ℕ → Option ℕ) →
        player < 2 → Holds game player set table →
        (priorities : List ℕ) × (rows : List (List ℕ)) × AreRanks game player set table priorities rows }
{}
