//! Translates specifications in linear temporal logic into deterministic parity automata.
//!
//! | Call | What it gives |
//! |---|---|
//! | `translated(specification)` | the text of an automaton, in the Hanoi Omega-Automata format, or none |
//! | `titled(specification, title)` | the same, with a name |
//! | `translated_within(specification, steps)` | the same as `translated`, within a budget of steps |
//!
//! It is proved that the calls are safe and end, and nothing else: that an automaton is right has to be judged. A
//! translation beyond a budget or a size gives none.
//!
//! The formula is simplified, and parted where its top is Boolean; each part has a deterministic automaton (ps_parts).
//! Where there would be too many parts, those with the same automaton are one (`shapes`). Their product (`product`) has
//! a condition on the marks of all parts. Edges between its components lead as far down as they can (`descent`), and
//! the alternating cycle decomposition (`cycles`, with `components`, `loops`, `nested`, `turns`) makes the condition a
//! parity condition (`parity`). States that cannot be told apart are joined (`quotient`, with `classes`, `sources` and
//! `renumbering`), and named by what they owe (`owing`, `names`). The text (`text`, with `header` and `output`) has
//! short sums of products as labels (`cover`, `labels`).
#![tactic(auto)]

mod components;
mod cycles;
mod descent;
mod machine;
mod owing;
mod parity;
mod product;
mod quotient;
mod shapes;
mod text;
mod translate;

pub use translate::{titled, translated, translated_within};
