//! The search for the roots of one priority, at which the computation of its counts begins.

ghost use Rattle.std.specs.Prelude.{◌≡◌, ℕ, ◌<◌, ◌≤◌, ◌↔◌, IfOk, IsTrue, length, slice_index};
ghost use Rattle.ps_components.specs.Graphs.{Link};
ghost use Rattle.ps_measure.specs.Inner.Columns.{AreRoots};
ghost use Rattle.ps_measure.specs.Inner.Groups.{candidates_in, candidate_in};
ghost use Rattle.ps_measure.specs.Inner.Remaining.{low_graph, low_weight};

use crate::groups::Groups;
use crate::low::Low;
use ps_components::Graph;
use ps_game::Width;
use std::alloc::{AllocError, Global};
use std::marker::Model;

/// One priority, and what the search for its roots uses.
#[derive(Drop)]
pub(crate) struct Layer<'a, G: Graph, W: Width> {
    pub(crate) graph: &'a G,
    pub(crate) low: &'a Low<'a, W>,
    pub(crate) groups: &'a Groups<W>,
    pub(crate) place: usize,
}

impl<'a, G: Graph, W: Width> Model for Layer<'a, G, W> {
    ghost use Rattle.ps_measure.specs.Inner.Groups.{LayerData, IsLayer};

    ghost Value = { LayerData };

    ghost view = { λ l. record { low = l.low.now; members = l.groups.now.members; place = l.place } };

    ghost invariant = { λ l. IsLayer (G.graph l.graph.now)
        (record { low = l.low.now; members = l.groups.now.members; place = l.place }) };
}

impl<'a, G: Graph, W: Width> Layer<'a, G, W> {
    /// The vertices of this priority that have a remaining edge to one of the same or a smaller priority.
    pub(crate) fn roots(&self, alloc: Global) -> Result<Vec<usize>, AllocError>
        ensures { IfOk result (λ roots. AreRoots (low_graph self.now.low) (low_weight self.now.low) roots.items) }
    {
        let _vertices = self.low.count();
        let mut roots = Vec::new(alloc);
        for number in 0..self.candidates() {
            let vertex = self.candidate(number);
            if self.low.weight(vertex) == 1 && self.leads_down(vertex) {
                roots.push(vertex)?;
            }
        }
        Ok(roots)
    }

    /// The number of vertices that the search tries: the priority's group, or all if they are not grouped.
    fn candidates(&self) -> usize
        ensures { result ≡ candidates_in self.now.members (length self.now.low.sources) self.now.place }
    {
        match &self.groups.members {
            Some(members) => members.degree(self.place),
            None => self.low.count(),
        }
    }

    fn candidate(&self, number: usize) -> usize
        requires { number < candidates_in self.now.members (length self.now.low.sources) self.now.place }
        ensures is { result ≡ candidate_in self.now.members self.now.place number }
        ensures within { result < length self.now.low.sources }
    {
        match &self.groups.members {
            Some(members) => members.source(self.place, number),
            None => number,
        }
    }

    fn leads_down(&self, vertex: usize) -> bool
        requires vertex { vertex < length self.now.low.sources }
        requires level { slice_index self.now.low.levels vertex ≤ self.now.low.priority }
        ensures { IsTrue result ↔ (w : ℕ) × Link (low_graph self.now.low) w vertex }
    {
        for place in 0..self.graph.degree(vertex) {
            if let Some(to) = self.graph.target(vertex, place) {
                if self.low.is_low(to) {
                    return true;
                }
            }
        }
        false
    }
}
