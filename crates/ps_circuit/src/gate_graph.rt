//! The gates of a circuit as a graph.

ghost use Rattle.ps_components.specs.Graphs.{LinksStayWithin};
ghost use Rattle.ps_circuit.specs.GateGraphs.{gate_graph};

use crate::links::Links;
use ps_components::Graph;

/// A graph whose edges lead from each gate to those that it reads.
#[derive(Drop)]
pub struct GateGraph {
    /// For each gate, those that it reads.
    pub links: Vec<Links>,
    pub ghost within: { LinksStayWithin (gate_graph links.items) },
}

impl Graph for GateGraph {
    ghost graph = { λ g. gate_graph g.links.items };

    fn count(&self) -> usize {
        self.links.len()
    }

    fn degree(&self, _item: usize) -> usize {
        2
    }

    fn target(&self, item: usize, place: usize) -> Option<usize> {
        let sides = self.links[item];
        if place == 0 {
            sides.first
        } else {
            sides.second
        }
    }
}
