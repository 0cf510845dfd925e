//! What the builder of a game asks.

ghost use Rattle.std.specs.Prelude.{ℕ, ◌<◌, ◌≤◌, List, IfOk, OnOk, length, slice_index};
ghost use Rattle.ps_automaton.specs.Automata.{AutomatonData};
ghost use Rattle.ps_machine.specs.Boards.{IsClassLetter, IsListOf};
ghost use Rattle.ps_machine.specs.BuiltBoards.{board_of};
ghost use Rattle.ps_machine.specs.Inner.Exploring.{AreLeavesBehind};
ghost use Rattle.ps_machine.specs.declared.key.Order.{Order};

use std::alloc::AllocError;

/// Computes the classes of the first player's letters, and the steps behind each class.
pub(crate) trait LetterClasses {
    ghost fits: { Self → Order → AutomatonData → Type 0 };

    /// From this place on, it is stored how to find the steps behind the classes of a state, whose least letters are
    /// listed.
    ghost divided: { Self → ℕ → ℕ → List ℕ → Type 0 };

    /// Divides the first player's letters at a state into classes; `letters` then has the least of each, in order.
    /// Returns the place from which on the classes are stored.
    fn divide(&mut self, state: u32, letters: &mut Vec<u64>) -> Result<usize, AllocError>
        requires { (order : Order) × (a : AutomatonData) × fits self.old order a × (state ≤ a.states) }
        ensures fits { OnOk result ((order : Order) (a : AutomatonData) → fits self.old order a →
            fits self.new order a) }
        ensures divided_before { OnOk result ((place q : ℕ) (list : List ℕ) → divided self.old place q list →
            divided self.new place q list) }
        ensures divided { IfOk result (λ place. divided self.new place state letters.new.items) }
        ensures listed { OnOk result ((order : Order) (a : AutomatonData) → fits self.old order a →
            IsListOf (IsClassLetter (board_of order a) state) letters.new.items) };

    /// Finds the steps after the least letter of a class: `leaves` then has the leaves that stand for them, in the
    /// order of the second player's letters. The class is given by the place of its state, and its index there.
    fn leaves(&self, place: usize, class: usize, leaves: &mut Vec<u64>) -> Result<(), AllocError>
        requires { (order : Order) × (a : AutomatonData) × (q : ℕ) × (letters : List ℕ) × fits self.now order a
            × divided self.now place q letters × (class < length letters) }
        ensures { OnOk result ((order : Order) (a : AutomatonData) (q : ℕ) (letters : List ℕ) →
            fits self.now order a → divided self.now place q letters → class < length letters →
            AreLeavesBehind order a q (slice_index letters class) leaves.new.items) };
}
