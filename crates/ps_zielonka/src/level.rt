//! How far a vertex is decided.

ghost use Rattle.std.specs.Prelude.{◌≡◌, ◌<◌, ◌≤◌};
ghost use Rattle.ps_zielonka.specs.declared.level.TheConstants.{UNPLACED};
ghost use Rattle.ps_zielonka.specs.Inner.Levels.{code_of};

const UNPLACED: usize = usize::MAX;

/// The state of a vertex. The depth of a call is the number of calls that wait when it runs.
#[derive(Clone, Copy)]
pub enum Level {
    /// Its winner and its move are final within this call.
    Decided {
        /// The depth of the call.
        depth: usize,
    },
    /// Attracted in the current iteration of this call, or a top.
    Attracted {
        /// The depth of the call.
        depth: usize,
    },
    /// Not placed yet.
    Unplaced,
}

impl Level {
    /// The number of the level in the tables.
    pub fn code(self) -> usize
        requires { code_of self ≤ usize.MAX }
        ensures { result ≡ code_of self }
    {
        match self {
            Level::Decided { depth } => 2 * depth + 1,
            Level::Attracted { depth } => 2 * depth + 2,
            Level::Unplaced => UNPLACED,
        }
    }
}

/// The level of a placed vertex.
#[derive(Clone, Copy)]
pub struct PlacedLevel {
    /// Any level but `Unplaced`.
    pub level: Level,
    ghost placed: { code_of level < UNPLACED },
}
