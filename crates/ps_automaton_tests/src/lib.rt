//! Tests of what no contract states of labels, automata, decision diagrams and the parser of HOA texts, such as that
//! calls succeed with ample memory. What the program prints for automata is tested in
//! `examples/rows/libraries-automata.toml`.
#![tactic(auto)]

#[cfg(test)]
mod diagrams;
#[cfg(test)]
mod files;
#[cfg(test)]
mod surface;
#[cfg(test)]
mod tokens;
