//! Tests of what no contract states of circuits, machines, solvers and simulators, and of calls that psyn never makes.
//! What the program prints for circuits is tested in `examples/rows/libraries-circuits.toml`.
#![tactic(auto)]

#[cfg(test)]
mod builders;
#[cfg(test)]
mod lanes;
#[cfg(test)]
mod machines;
#[cfg(test)]
mod parts;
#[cfg(test)]
mod problems;
#[cfg(test)]
mod solvers;
#[cfg(test)]
mod surface;
