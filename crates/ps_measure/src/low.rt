//! The reversed remaining edges between vertices of bounded priority.

ghost use Rattle.std.specs.Prelude.{◌≡◌, ◌<◌, length, nat_le, slice_index};
ghost use Rattle.ps_measure.specs.Inner.Remaining.{low_graph, low_weight};

use crate::packed::Packed;
use ps_attractor::Sources;
use ps_components::Graph;
use ps_game::{Region, Width};
use std::marker::Model;

/// The reversed remaining edges between vertices whose priorities are at most `priority`.
#[derive(Drop)]
pub(crate) struct Low<'a, W: Width> {
    /// The sources of the remaining edges to each vertex.
    pub(crate) sources: &'a Sources<W>,
    pub(crate) region: &'a Region,
    /// The priority of each vertex.
    pub(crate) levels: &'a Packed<usize>,
    pub(crate) priority: u64,
}

impl<'a, W: Width> Model for Low<'a, W> {
    ghost use Rattle.ps_measure.specs.Inner.Remaining.{LowData, IsLow};

    ghost Value = { LowData };

    ghost view = { λ l. record {
      sources = l.sources.now;
      region = l.region.now;
      levels = l.levels.now;
      priority = l.priority;
    } };

    ghost invariant = { λ l. IsLow (record {
      sources = l.sources.now;
      region = l.region.now;
      levels = l.levels.now;
      priority = l.priority;
    }) };
}

impl<'a, W: Width> Low<'a, W> {
    pub(crate) fn is_low(&self, item: usize) -> bool
        requires { item < length self.now.sources }
        ensures { result ≡ nat_le (slice_index self.now.levels item) self.now.priority }
    {
        let levels = self.levels;
        levels.at(item) as u64 <= self.priority
    }

    /// 1 if a vertex is in the region and has the given priority, else 0.
    pub(crate) fn weight(&self, item: usize) -> u64
        requires { item < length self.now.sources }
        ensures { result ≡ low_weight self.now item }
    {
        let levels = self.levels;
        u64::from(levels.at(item) as u64 == self.priority && self.region.contains(item))
    }
}

impl<'a, W: Width> Graph for Low<'a, W> {
    ghost graph = { λ l. low_graph l };

    fn count(&self) -> usize {
        self.levels.len()
    }

    fn degree(&self, item: usize) -> usize {
        let levels = self.levels;
        if levels.at(item) as u64 <= self.priority {
            self.sources.degree(item)
        } else {
            0
        }
    }

    #[tactic(auto, using(crate::proofs::LinksOfEdges::RemainingEdges::source_low))]
    fn target(&self, item: usize, place: usize) -> Option<usize> {
        let to = self.sources.source(item, place);
        if self.levels.at(to) as u64 <= self.priority {
            Some(to)
        } else {
            None
        }
    }
}
