//! What an attractor is computed from.

use ps_game::Player;

/// The parameters of one attractor computation.
#[derive(Clone, Copy)]
pub struct Aim {
    /// The player who attracts.
    pub player: Player,
    /// Where the target begins in the trail.
    pub begin: usize,
    /// The level that attracted vertices get.
    pub level: usize,
    /// The level of those that may still be attracted.
    pub free: usize,
}
