//! A solver that returns what it was fed.

ghost use Rattle.std.specs.Prelude.{◌≡◌, [], Some};

use crate::fault::SolveFault;
use crate::solver::Solver;
use ps_certificate::{CertFault, Certificate, read};
use ps_game::NamedGame;
use std::alloc::{AllocError, Global};

/// Parses what it was fed as a certificate of the game. It is not sure: this fits the game, but may be wrong.
#[derive(Drop)]
pub struct Replay {
    alloc: Global,
    text: Vec<u8>,
}

impl Replay {
    /// Creates a solver that was fed the empty text.
    pub fn new(alloc: Global) -> Self
        ensures { (⟦<Replay as Solver>⟧.known result).fed ≡ Some [] }
    {
        Replay {
            alloc,
            text: Vec::new(alloc),
        }
    }
}

impl Solver for Replay {
    ghost use Rattle.ps_solver.specs.Solving.{replay_of};

    ghost known = { λ replay. replay_of replay.text.items };

    fn feed(&mut self, text: &[u8]) -> Result<(), AllocError> {
        let kept = text.to_vec(self.alloc)?;
        self.text = kept;
        Ok(())
    }

    fn is_free(&self) -> bool {
        false
    }

    fn solve(&mut self, game: &NamedGame) -> Result<Certificate, SolveFault> {
        match read(self.alloc, &self.text, game) {
            Ok(certificate) => Ok(certificate),
            Err(CertFault::Text { cause, offset }) => Err(SolveFault::Text { cause, offset }),
            Err(CertFault::OutOfMemory) => Err(SolveFault::OutOfMemory),
        }
    }
}
