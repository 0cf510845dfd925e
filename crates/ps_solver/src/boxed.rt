//! A solver that is chosen at run time.

use crate::fault::SolveFault;
use crate::solver::Solver;
use ps_certificate::Certificate;
use ps_game::NamedGame;
use std::alloc::AllocError;

/// Whoever takes any solver also takes a `Box` of one.
impl Solver for Box<dyn Solver> {
    ghost known = { λ b. (Solver-box b).known b.value };

    fn feed(&mut self, text: &[u8]) -> Result<(), AllocError> {
        (**self).feed(text)
    }

    fn is_free(&self) -> bool {
        (**self).is_free()
    }

    fn solve(&mut self, game: &NamedGame) -> Result<Certificate, SolveFault> {
        (**self).solve(game)
    }
}
