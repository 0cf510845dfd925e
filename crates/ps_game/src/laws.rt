//! Laws (theorems) about plays and strategies.

ghost use Rattle.std.specs.Prelude.{◌≡◌, ℕ, ◌+◌, ◌-◌, ◌<◌, ◌≤◌, List, Option, Bool, IsTrue, length, slice_index};
ghost use Rattle.ps_game.specs.Games.{ParityGame, IsGame, vertex_count, owner_of};
ghost use Rattle.ps_game.specs.Plays.{IsPath, Holds, other_player, loop_priority};
ghost use Rattle.ps_game.specs.Strategies.{HasLoop, WinsByNoMemory, AllHistoriesBeaten};
ghost use Rattle.ps_game.specs.Subgames.{HoldsWithin, IsTop};

/// A path that is longer than the number of the game's vertices visits one of them twice.
pub fn long_path_has_loop()
    ensures { (game : ParityGame) (path : List ℕ) →
        IsPath game path → vertex_count game < length path → HasLoop path }
{}

/// If one player holds a set of vertices (stays in it and wins there), no finite-memory strategy of the other wins from
/// one of them.
pub fn no_memory_wins_outside()
    ensures { (game : ParityGame) (player : ℕ) (set : ℕ → Bool) (table : ℕ → Option ℕ) →
        IsGame game → player < 2 → Holds game (other_player player) set table →
        (v : ℕ) → v < vertex_count game → IsTrue (set v) → WinsByNoMemory game player v }
{}

/// If one player holds a set of vertices, each history table of the other loses from each of them.
pub fn no_history_wins_outside()
    ensures { (game : ParityGame) (player : ℕ) (set : ℕ → Bool) (table : ℕ → Option ℕ) →
        IsGame game → player < 2 → Holds game (other_player player) set table →
        (v : ℕ) → v < vertex_count game → IsTrue (set v) → AllHistoriesBeaten game player v }
{}

/// A player who holds a set by the definition for subgames (`HoldsWithin`), within that of all vertices, also holds it
/// by the definition for paths (`Holds`).
pub fn holds_on_paths()
    ensures { (game : ParityGame) (player : ℕ) (subgame set : ℕ → Bool) (table : ℕ → Option ℕ) →
        ((v : ℕ) → v < vertex_count game → IsTrue (subgame v)) →
        HoldsWithin game subgame player set table → Holds game player set table }
{}

/// Holding a set by a table depends only on its moves at the player's own vertices of the set.
pub fn only_own_moves_matter()
    ensures { (game : ParityGame) (player : ℕ) (subgame set : ℕ → Bool) (table other : ℕ → Option ℕ) →
        ((v : ℕ) → IsTrue (set v) → owner_of game v ≡ player → other v ≡ table v) →
        HoldsWithin game subgame player set table → HoldsWithin game subgame player set other }
{}

/// The priority of a loop is the greatest priority of its vertices.
pub fn loop_priority_is_top()
    ensures { (game : ParityGame) (path : List ℕ) (i j : ℕ) → i < j → j ≤ length path →
        IsTop game (λ t. slice_index path (i + t)) (j - i) (loop_priority game path i j) }
{}
