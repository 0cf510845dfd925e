//! The trait of solvers.

ghost use Rattle.std.specs.Prelude.{◌≡◌, true, None, IsOk, OnOk, OnErr};
ghost use Rattle.ps_solver.specs.Solvers.{Answered, IsKept, SolverData, once_fed};
ghost use Rattle.ps_solver.specs.Solving.{AnswersSurely, IsFree, NamesVertices};

use crate::fault::SolveFault;
use ps_certificate::Certificate;
use ps_game::NamedGame;
use std::alloc::AllocError;

/// Finds a certificate of a game. It may first be fed a text, such as a certificate that another program made.
pub trait Solver: Drop {
    /// Whether the solver is sure, what it may answer, and the text that it was fed.
    ghost known: { Self → SolverData };

    /// Feeds the solver a text, which replaces the one before. If memory runs out, this fails, and the earlier text is
    /// kept. A solver that ignores texts accepts every text.
    fn feed(&mut self, text: &[u8]) -> Result<(), AllocError>
        ensures unkept { (known self.old).fed ≡ None → IsOk result }
        ensures ok { OnOk result (IsKept (once_fed text.now (known self.old)) (known self.new)) }
        ensures err { OnErr result (IsKept (known self.old) (known self.new)) };

    /// Whether the solver may give any valid certificate with the least counts. Then another way to find one may take
    /// its place.
    fn is_free(&self) -> bool
        ensures { result ≡ true → IsFree (known self.now) };

    /// The solver's certificate of the game, or why it returns none.
    fn solve(&mut self, game: &NamedGame) -> Result<Certificate, SolveFault>
        ensures surely { (known self.old).is_sure ≡ true → AnswersSurely game.now result }
        ensures cycle { NamesVertices game.now result }
        ensures kept { IsKept (known self.old) (known self.new) }
        ensures answered { Answered (known self.old) (known self.new) game.now result };
}
