//! How much work a solver did.

/// How much work a solver did.
#[derive(Clone, Copy, Debug, Default, PartialEq, Eq, Drop)]
pub struct Counts {
    /// The greatest depth of nested calls of the recursive algorithm, without calls on empty subgames.
    pub depth: u64,
    /// How often an entry of a progress measure was raised.
    pub raises: u128,
}
