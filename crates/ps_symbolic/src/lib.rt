//! Symbolic synthesis: a circuit for a specification in linear temporal logic, by a game whose states are bits.
//!
//! | Call | What it gives |
//! |---|---|
//! | `solved(specification, steps)` | the winner's role with the parts of a circuit, or none |
//!
//! It is proved that the call is safe and ends, and nothing else: that a circuit wins has to be judged. Where a budget
//! of steps or a size is passed, there is no circuit. One text has one circuit on every machine.
//!
//! 1. Each conjunct of the formula has a small deterministic automaton, and the formula is a Boolean combination of
//!    them, its *skeleton* (`automata`; of ps_parts `split`, `part` and `progression`).
//! 2. The states of each automaton become bits. Propositions and bits get an order (`order`), and the automata become
//!    functions of bits and letters in decision diagrams (`arena`). What the winner of a play depends on are the
//!    *colours* that recur (`colours`).
//! 3. The game is solved for any Boolean combination of recurring colours, by nested fixpoints along its Zielonka tree
//!    (`tree`, `game`). The winner first gives up what it does not need (`strengthening`, `aims`).
//! 4. The winner's moves are a relation between bits, letters and a memory (`relation`). From it functions are chosen,
//!    one after another (`functions`), until they win from all that they reach (`closed`, `renewal`). They are made
//!    smaller there (`shrinking`).
//! 5. The functions become gates and latches (`gates`, `circuit`).
#![tactic(auto)]

mod aims;
mod arena;
mod automata;
mod circuit;
mod closed;
mod colours;
mod functions;
mod game;
mod gates;
mod order;
mod relation;
mod renewal;
mod shrinking;
mod strengthening;
mod synthesis;
mod tree;

pub use synthesis::{Solution, solved};
