//! An attractor whose target is a part of the trail.

ghost use Rattle.std.specs.Prelude.{◌≡◌, ◌<◌};
ghost use Rattle.ps_zielonka.specs.declared.level.Level.{Level};
ghost use Rattle.ps_zielonka.specs.Inner.Levels.{code_of};

use crate::level::Level;
use ps_attractor::Aim;
use ps_game::Player;

/// A player's attractor to the vertices of the trail from index `begin` on.
#[derive(Drop)]
pub struct Attraction {
    /// The player.
    pub player: Player,
    /// Where the target begins in the trail.
    pub begin: usize,
    /// The level that attracted vertices get.
    pub level: Level,
    ghost placed: { code_of level < code_of Level.Unplaced },
}

impl Attraction {
    ghost use Rattle.ps_zielonka.specs.Inner.Aims.{aim_of};

    /// The same for the attractor's tables; vertices of the level `UNPLACED` can be attracted.
    pub fn aim(&self) -> Aim
        ensures { result ≡ aim_of self.now }
    {
        Aim {
            player: self.player,
            begin: self.begin,
            level: self.level.code(),
            free: Level::Unplaced.code(),
        }
    }
}
