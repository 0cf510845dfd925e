//! The product of a circuit and a tableau, as a graph whose edges bear marks.

ghost use Rattle.std.specs.Prelude.{◌≡◌, ◌<◌, IfOk, length};
ghost use Rattle.ps_tableau_product.specs.Graphs.{IsStored, graph_of, inputs_along, marks_of, passage_row, stored};

use ps_components::Graph;
use ps_fairness::{Edge, Marked};
use ps_tableau::Tableau;
use std::alloc::{AllocError, Global};
use std::marker::Model;

/// An edge of the product.
#[derive(Clone, Copy)]
pub(crate) struct Passage {
    /// The number of the vertex to which the edge leads.
    pub to: usize,
    /// A letter at which the circuit makes the step. The circuit's inputs are its bits for the inputs' propositions.
    pub letter: u64,
    /// The cover.
    pub cover: ps_tableau::Edge,
}

/// The product of a circuit and a tableau. An edge bears the mark of each until that its cover does not postpone.
#[derive(Drop)]
pub struct ModelGraph<'a> {
    tableau: Tableau,
    /// The edges of each vertex.
    rows: Vec<Vec<Passage>>,
    /// The propositions of the circuit's inputs.
    propositions: &'a [u32],
}

impl<'a> Model for ModelGraph<'a> {
    ghost use Rattle.ps_tableau_product.specs.Graphs.{GraphData, IsStored, stored};

    ghost Value = { GraphData };

    ghost view = { λ g. stored g.tableau g.rows.items g.propositions.now };

    ghost invariant = { λ g. IsStored (stored g.tableau g.rows.items g.propositions.now) };
}

impl<'a> ModelGraph<'a> {
    /// The product that has the given edges. `propositions` are those of the circuit's inputs.
    pub(crate) fn new(tableau: Tableau, rows: Vec<Vec<Passage>>, propositions: &'a [u32]) -> Self
        requires { IsStored (stored tableau rows.items propositions.now) }
        ensures { result ≡ stored tableau rows.items propositions.now }
    {
        ModelGraph {
            tableau,
            rows,
            propositions,
        }
    }

    /// The parts fit: each edge leads to a vertex, and each vertex is reached from the first. The prover learns it here.
    pub fn parts_fit(&self)
        ensures { IsStored self.now }
    {
        self.rows.len();
    }

    /// The inputs that the circuit reads in a step along an edge. Fails if out of memory.
    pub(crate) fn inputs(&self, alloc: Global, edge: Edge) -> Result<Vec<bool>, AllocError>
        requires vertex { edge.vertex < length self.now.rows }
        requires slot { edge.slot < length (passage_row self.now.rows edge.vertex) }
        ensures { IfOk result (λ inputs. inputs.items ≡ inputs_along self.now edge) }
    {
        let letter = self.rows[edge.vertex][edge.slot].letter;
        let mut bits = Vec::new(alloc);
        for proposition in self.propositions {
            bits.push(letter >> *proposition & 1 == 1)?;
        }
        Ok(bits)
    }
}

impl<'a> Graph for ModelGraph<'a> {
    ghost graph = { λ g. graph_of g };

    fn count(&self) -> usize {
        self.rows.len()
    }

    fn degree(&self, item: usize) -> usize {
        self.rows[item].len()
    }

    fn target(&self, item: usize, place: usize) -> Option<usize> {
        Some(self.rows[item][place].to)
    }
}

impl<'a> Marked for ModelGraph<'a> {
    ghost marks = { λ g. marks_of g };

    fn mark_count(&self) -> usize {
        self.tableau.untils().len()
    }

    fn has_mark(&self, vertex: usize, slot: usize, mark: usize) -> bool {
        let cover = self.rows[vertex][slot].cover;
        !self.tableau.postpones(cover, self.tableau.untils()[mark])
    }
}
