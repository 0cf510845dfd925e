//! Makes a circuit that wins smaller.
//!
//! [`shrunk`] first judges the circuit by an automaton, and [`shrunk_by`] by any judge. If it wins, then up to eight
//! times it runs with pseudorandom inputs, and each latch and gate becomes the first signal with equal, or opposite,
//! values. After that, small changes are tried one by one: an output, a latch's next value, a latch or a gate becomes
//! another literal, or a gate over two literals. A changed circuit takes the last one's place if it wins, has no more
//! latches and no more gates than the given one, and costs less (a latch counts as two gates) or, late in the search,
//! the same. So it need not compute what the given circuit computes; it is only as good.
//!
//! | Call | What it gives |
//! |---|---|
//! | `shrunk(circuit, automaton, order, role, steps)` | a `Reduction`: a circuit that wins, or a losing stimulus |
//! | `shrunk_by(circuit, judge, alphabet, steps)` | the same by any judge |
//! | [`Judge`], [`Alphabet`] | what judges circuits (a trait); its propositions, and the role of its circuits |
//!
//! Which smaller circuit is found is not promised, but depends on the arguments alone; at most `steps` changes are
//! tried. A changed circuit first runs on up to eight stimuli on which others lost, the latest first, for up to 256
//! laps. It is judged only if it loses on none of them.
#![tactic(auto)]

mod assembling;
mod by_automaton;
mod change;
mod images;
mod judging;
mod lanes;
mod needed;
mod rebuilding;
mod reduction;
mod shrinking;
mod size;
mod sketch;
mod sweeping;
mod trails;
mod trials;
mod walk;

pub use by_automaton::shrunk;
pub use judging::{Alphabet, Judge};
pub use reduction::Reduction;
pub use shrinking::shrunk_by;
