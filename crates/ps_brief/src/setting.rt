//! An automaton, and who moves first in its game.

ghost use Rattle.std.specs.Prelude.{◌≡◌};
ghost use Rattle.ps_brief.specs.Settings.{HasMasks};

use ps_automaton::Automaton;
use ps_machine::{Order, is_first};

/// An automaton with the order of moves in its game, and the propositions of both players.
#[derive(Drop)]
pub struct Setting<'a> {
    /// The automaton.
    pub automaton: &'a Automaton,
    /// Who moves first.
    pub order: Order,
    /// The propositions of the player who moves first, as bits.
    pub first: u64,
    /// The propositions of the player who moves second, as bits.
    pub second: u64,
}

impl<'a> Setting<'a> {
    /// The setting of an automaton's game.
    pub fn new(automaton: &'a Automaton, order: Order) -> Setting<'a>
        ensures automaton { result.automaton.now ≡ automaton.now }
        ensures order { result.order ≡ order }
        ensures masks { HasMasks result }
    {
        let mut first = 0;
        let mut second = 0;
        for proposition in 0..automaton.names().len() {
            if is_first(order, automaton.controllable(), proposition as u32) {
                first += 1 << proposition;
            } else {
                second += 1 << proposition;
            }
        }
        Setting {
            automaton,
            order,
            first,
            second,
        }
    }
}
