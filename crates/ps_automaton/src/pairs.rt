//! The diagrams of states while they are built.

use crate::letter_sets::LetterSets;
use crate::levels::Levels;
use crate::step_list::StepList;
use ps_diagram::{Node, Store};
use ps_hoa::HoaFile;
use std::alloc::Global;

/// Diagrams whose leaves are indices of steps. The step with the index 0 leads to the sink.
#[derive(Drop)]
pub(crate) struct Pairs {
    pub alloc: Global,
    pub store: Store,
    /// The steps; a leaf is the index of its step.
    pub steps: StepList,
}

/// What the steps of states are built from.
#[derive(Clone, Copy)]
pub(crate) struct Source<'a> {
    pub file: &'a HoaFile,
    /// The priorities that the file's chain gives to edges.
    pub levels: &'a Levels,
    /// A diagram for each alias.
    pub aliases: &'a [Node],
    /// The sets of letters, if there are few propositions.
    pub sets: &'a Option<LetterSets>,
}
