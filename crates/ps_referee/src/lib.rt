//! Checks whether a claimed solution of a parity game is right, wherever it comes from.
//!
//! A solution claims which vertices player 0 wins (player 1 all others), and by which moves. If it is right, [`judge`]
//! returns its certificate, with the least counts; if not, the reason. A flaw is a wrong move, or a remaining edge (the
//! winner's move, or one of the loser's vertex) to a vertex with the other winner. The reason is the first flaw, or, if
//! there is none, a cycle of remaining edges that its claimed winner loses.
//!
//! | Call | What it gives |
//! |---|---|
//! | `judge(arena, won, first, second)` | the certificate exactly if the solution is right; else a `JudgeFault` |
//! | `certificate_of_solution(arena, won, first, second)` | the certificate, if the solution is known to be right |
//! | `JudgeFault::number`, `name` | the number and name of a fault in psyn's list of faults |
//! | `one_certificate` | a law: a solution has at most one certificate |
//! | `one_verdict` | a law: a solution never has both a flaw and a lost cycle; if it is right, it has neither |
//! | `solution_is_judged` | a law: a solution is right and has a certificate, or has a flaw, or a lost cycle |
//!
//! Moves may be any numbers; only those of winners at their own vertices are checked. A cycle that player 1 loses is
//! reported only if player 0 loses none. Both calls take about as long as `ps_measure::ranks` for both players, and
//! call no solver.
#![tactic(auto)]

mod building;
mod fault;
mod judging;
mod laws;

pub use fault::JudgeFault;
pub use judging::{certificate_of_solution, judge};
pub use laws::{one_certificate, one_verdict, solution_is_judged};
