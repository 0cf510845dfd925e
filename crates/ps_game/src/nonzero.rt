//! The nonzero counts of a list.

/// A nonzero count of a list.
#[derive(Clone, Copy, Debug, PartialEq)]
pub struct NonzeroCount {
    /// Its index in the list.
    pub place: usize,
    /// The count.
    pub count: u64,
}
