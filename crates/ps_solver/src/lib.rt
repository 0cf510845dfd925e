//! Solvers of parity games. A solver answers a game with a certificate of who wins where, and by which moves.
//!
//! | Call | What it gives |
//! |---|---|
//! | `Solver::feed`, `solve` | takes a text, such as a certificate; gives a certificate of a game, or a fault |
//! | `Solver::is_free` | whether it may give any valid certificate with the least counts |
//! | `BuiltIn::new` | psyn's own solver, which is sure: its certificates are valid, and only memory may run out |
//! | `least_certificate(game)` | its certificate of a game without ids |
//! | `Replay::new` | the solver that returns the certificate whose text it was fed; it is not sure |
//! | `SolveFault::number`, `name` | a fault's number and name in psyn's list |
//! | `each_game_has_a_certificate` | a law: each game has a certificate that fits, is valid and has the least counts |
//!
//! A `Box` of a solver is a solver.
#![tactic(auto)]

mod boxed;
mod built_in;
mod fault;
mod laws;
mod replay;
mod solver;

pub use built_in::{BuiltIn, least_certificate};
pub use fault::SolveFault;
pub use laws::each_game_has_a_certificate;
pub use replay::Replay;
pub use solver::Solver;
