//! Strongly connected components of lists of edges (Tarjan, "Depth-First Search and Linear Graph Algorithms", 1972).

use ps_keys::KeyList;
use ps_parts::column::Column;
use ps_parts::stop::{Stop, index, number_of};
use std::alloc::Global;

/// The end of a list.
const NONE: u32 = u32::MAX;

/// An edge of an automaton.
#[derive(Clone, Copy)]
pub(crate) struct Edge {
    /// The number of the edge among all edges of the automaton.
    pub(crate) number: u32,
    pub(crate) source: u32,
    pub(crate) target: u32,
    /// The marks, one bit for each part.
    pub(crate) marks: u64,
}

/// The ends of an edge, as numbers of vertices.
#[derive(Clone, Copy)]
struct Ends {
    source: u32,
    target: u32,
    /// The edge before this one, of those with the same source.
    earlier: u32,
}

/// Edges whose vertices are numbered.
#[derive(Drop)]
struct Graph {
    vertices: KeyList<u64>,
    edges: Vec<Ends>,
    /// For each vertex, its last edge.
    last: Column,
}

/// What a search knows of a vertex.
#[derive(Clone, Copy)]
struct Vertex {
    /// When it was met, counted from 1; or 0.
    met: u32,
    /// The earliest vertex that it is known to lead back to.
    low: u32,
    /// Its component, or `NONE`.
    component: u32,
}

impl Vertex {
    /// A vertex that was not met.
    const UNMET: Vertex = Vertex {
        met: 0,
        low: 0,
        component: NONE,
    };
}

/// A vertex on the way of a search, and the edge that is next to follow.
#[derive(Clone, Copy)]
struct Visit {
    vertex: u32,
    edge: u32,
}

/// A depth-first search.
#[derive(Drop)]
struct Search {
    graph: Graph,
    vertices: Vec<Vertex>,
    /// The vertices without a component, in the order in which they were met.
    open: Vec<u32>,
    /// The way.
    way: Vec<Visit>,
    /// The number of vertices that were met.
    count: u32,
    /// The number of components.
    components: u32,
}

/// The components that have edges, each as the list of its edges, in their order.
pub(crate) fn components(alloc: Global, edges: &[Edge]) -> Result<Vec<Vec<Edge>>, Stop> {
    let mut search = Search::new(alloc);
    let lists = search.lists(alloc, edges);
    drop(search);
    lists
}

/// The number of the component of each vertex of some edges. No edge leads to a component with a greater number.
pub(crate) fn component_numbers(alloc: Global, edges: &[Edge]) -> Result<Column, Stop> {
    let mut search = Search::new(alloc);
    let numbers = search.numbers(alloc, edges);
    drop(search);
    numbers
}

impl Graph {
    /// Adds edges.
    fn add_all(&mut self, edges: &[Edge]) -> Result<(), Stop> {
        for edge in edges {
            self.add(edge)?;
        }
        Ok(())
    }

    /// Adds an edge.
    fn add(&mut self, edge: &Edge) -> Result<(), Stop> {
        let source = number_of(&mut self.vertices, edge.source as u64)?;
        let target = number_of(&mut self.vertices, edge.target as u64)?;
        let number = index(self.edges.len())?;
        self.edges.push(Ends {
            source,
            target,
            earlier: self.last.get(source),
        })?;
        self.last.set(source, number)
    }
}

impl Search {
    /// A search of a graph without edges.
    fn new(alloc: Global) -> Self {
        Search {
            graph: Graph {
                vertices: KeyList::new(alloc),
                edges: Vec::new(alloc),
                last: Column::new(alloc, NONE),
            },
            vertices: Vec::new(alloc),
            open: Vec::new(alloc),
            way: Vec::new(alloc),
            count: 0,
            components: 0,
        }
    }

    /// Finds all components of the graph of some edges.
    fn run(&mut self, edges: &[Edge]) -> Result<(), Stop> {
        self.graph.add_all(edges)?;
        let count = self.graph.vertices.len();
        self.vertices.resize(count, Vertex::UNMET)?;
        for vertex in 0..count {
            self.visit(index(vertex)?)?;
        }
        Ok(())
    }

    /// Finds the components of the vertices that a vertex leads to.
    fn visit(&mut self, vertex: u32) -> Result<(), Stop> {
        if self.vertex(vertex).met != 0 {
            return Ok(());
        }
        self.enter(vertex)?;
        let most = self.graph.edges.len().saturating_mul(2).saturating_add(2);
        for _ in 0..most {
            let Some(visit) = self.way.pop() else {
                break;
            };
            self.go_on(visit)?;
        }
        Ok(())
    }

    /// Follows the next edge of a vertex, or goes back from it.
    fn go_on(&mut self, visit: Visit) -> Result<(), Stop> {
        let Some(ends) = self.graph.edges.get(visit.edge as usize) else {
            self.leave(visit.vertex);
            return Ok(());
        };
        let Ends {
            target,
            earlier,
            ..
        } = *ends;
        self.way.push(Visit {
            vertex: visit.vertex,
            edge: earlier,
        })?;
        self.follow(visit.vertex, target)
    }

    /// What is known of a vertex.
    fn vertex(&self, number: u32) -> Vertex {
        match self.vertices.get(number as usize) {
            Some(vertex) => *vertex,
            None => Vertex::UNMET,
        }
    }

    /// Goes to a vertex that was not met.
    fn enter(&mut self, number: u32) -> Result<(), Stop> {
        self.count = self.count.saturating_add(1);
        if let Some(vertex) = self.vertices.get_mut(number as usize) {
            vertex.met = self.count;
            vertex.low = self.count;
        }
        self.open.push(number)?;
        self.way.push(Visit {
            vertex: number,
            edge: self.graph.last.get(number),
        })?;
        Ok(())
    }

    /// Follows an edge.
    fn follow(&mut self, source: u32, target: u32) -> Result<(), Stop> {
        let Vertex { met, component, .. } = self.vertex(target);
        if met == 0 {
            return self.enter(target);
        }
        if component == NONE {
            self.lower(source, met);
        }
        Ok(())
    }

    /// Notes that a vertex leads back to the vertex that was met at a time.
    fn lower(&mut self, number: u32, time: u32) {
        if let Some(vertex) = self.vertices.get_mut(number as usize) {
            vertex.low = vertex.low.min(time);
        }
    }

    /// Goes back from a vertex whose edges have been followed.
    fn leave(&mut self, number: u32) {
        let Vertex { met, low, .. } = self.vertex(number);
        if let Some(before) = self.way.last() {
            let before = before.vertex;
            self.lower(before, low);
        }
        if low == met {
            self.close(number);
        }
    }

    /// Makes a component of the vertices that were met since a vertex.
    fn close(&mut self, number: u32) {
        for _ in 0..self.open.len() {
            let Some(member) = self.open.pop() else {
                break;
            };
            if let Some(vertex) = self.vertices.get_mut(member as usize) {
                vertex.component = self.components;
            }
            if member == number {
                break;
            }
        }
        self.components = self.components.saturating_add(1);
    }

    /// The number of the component of each vertex.
    fn numbers(&mut self, alloc: Global, edges: &[Edge]) -> Result<Column, Stop> {
        self.run(edges)?;
        let mut numbers = Column::new(alloc, NONE);
        for (ends, edge) in self.graph.edges.iter().zip(edges) {
            numbers.set(edge.source, self.vertex(ends.source).component)?;
            numbers.set(edge.target, self.vertex(ends.target).component)?;
        }
        Ok(numbers)
    }

    /// The edges of each component that has edges.
    fn lists(&mut self, alloc: Global, edges: &[Edge]) -> Result<Vec<Vec<Edge>>, Stop> {
        self.run(edges)?;
        let mut places = Column::new(alloc, NONE);
        self.listed(alloc, edges, &mut places)
    }

    /// The edges of each component that has edges, with a column for the places of their lists.
    fn listed(
        &self,
        alloc: Global,
        edges: &[Edge],
        places: &mut Column,
    ) -> Result<Vec<Vec<Edge>>, Stop> {
        let mut lists = Vec::new(alloc);
        for (ends, edge) in self.graph.edges.iter().zip(edges) {
            let component = self.vertex(ends.source).component;
            if component == self.vertex(ends.target).component {
                let place = place_of(alloc, component, places, &mut lists)?;
                put(&mut lists, place, *edge)?;
            }
        }
        Ok(lists)
    }
}

/// The place of the list of a component, which is added if there is none.
fn place_of(
    alloc: Global,
    component: u32,
    places: &mut Column,
    lists: &mut Vec<Vec<Edge>>,
) -> Result<u32, Stop> {
    let known = places.get(component);
    if known != NONE {
        return Ok(known);
    }
    let place = index(lists.len())?;
    places.set(component, place)?;
    lists.push(Vec::new(alloc))?;
    Ok(place)
}

/// Adds an edge to one of some lists.
fn put(lists: &mut Vec<Vec<Edge>>, place: u32, edge: Edge) -> Result<(), Stop> {
    let list = lists.get_mut(place as usize).ok_or(Stop::Limit)?;
    list.push(edge)?;
    Ok(())
}
