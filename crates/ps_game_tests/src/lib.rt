//! Tests of the libraries for games, one file for each topic. A crate with tests is proved a second time with them, so
//! they are in a crate of their own. What psyn's commands do is shown by `examples/rows`.
#![tactic(auto)]

#[cfg(test)]
mod games;
#[cfg(test)]
mod regions;
#[cfg(test)]
mod solvers;
#[cfg(test)]
mod surface;
