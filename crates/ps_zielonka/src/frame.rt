//! A pending call.

use ps_game::Player;

/// A call that waits for the recursive call on the undecided vertices outside its attractor.
#[derive(Drop)]
pub struct Frame {
    /// No earlier vertex in `order` is undecided in this call.
    pub cursor: usize,
    /// The player who wins by the greatest undecided priority.
    pub player: Player,
    /// Where the tops begin in the trail.
    pub turn: usize,
    /// Where they end; the attracted vertices follow.
    pub top: usize,
}
