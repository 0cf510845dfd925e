//! The letters at which the edges of a state are taken.

use ps_diagram::Node;
use ps_hoa::{HoaFile, Row};

/// The row of a state, with the diagrams of the file's aliases and of the row's label.
#[derive(Clone, Copy)]
pub(crate) struct Guards<'a> {
    pub file: &'a HoaFile,
    pub row: &'a Row,
    /// A diagram for each alias.
    pub aliases: &'a [Node],
    /// The diagram of the row's label, if it has one.
    pub label: Option<Node>,
}
