//! Specifications in the basic form of TLSF (Temporal Logic Synthesis Format): the part `INFO` states the order of
//! moves; the part `MAIN` lists inputs and outputs, and has sections of formulas of linear temporal logic.
//!
//! | Call | What it gives |
//! |---|---|
//! | `read(text)` | the specification, or the first `TlsfFault` in the text; at most 16,777,216 bytes |
//! | `Specification` | propositions, order of moves, the formulas of the sections with their spans, the whole formula |
//! | `names_of(propositions)`, `outputs_of` | the names of propositions; the numbers of the outputs among them |
//! | `TlsfCause::number`, `name` | the number and name of an error's cause in psyn's list of faults |
//! | `one_answer`, `some_answer` | laws: a text has exactly one answer, its meaning or its first error |
//! | `whole_is_of_sections` | a law: the whole formula is made from the sections' formulas as TLSF defines it |
//! | `texts_have_the_outline` | a law: the tokens of a text are in the order that a grammar describes |
//! | `refused_texts_lack_the_outline` | a law: outside formulas, what is refused as syntax is in no such order |
//! | `formulas_are_derived` | a law: the grammar derives each formula |
//! | `derived_formulas_are_read` | a law: what it derives is read as its formula, within the limits |
//! | `one_formula` | a law: the grammar is unambiguous |
//! | `names_differ` | a law: no two propositions have the same name, and there are at most 64 |
//!
//! Parsing takes time proportional to the length of the text. No function calls itself: the operators of a formula are
//! kept on a stack until their operands are complete.
#![tactic(auto)]

mod fault;
mod heading;
mod laws;
mod names;
mod phases;
mod reader;
mod specification;
mod stack;
mod steps;
mod tokens;
mod trees;
mod whole;
mod words;
mod work;

pub use fault::{TlsfCause, TlsfFault};
pub use heading::Span;
pub use laws::{
    derived_formulas_are_read, formulas_are_derived, names_differ, one_answer, one_formula,
    refused_texts_lack_the_outline, some_answer, texts_have_the_outline, whole_is_of_sections,
};
pub use names::{Proposition, names_of, outputs_of};
pub use reader::read;
pub use specification::{SectionFormula, Specification};
pub use words::{Infix, Item, Order, Prefix, Section, Side, Sign};
