//! Fair cycles of a directed graph whose edges bear marks: closed walks on which each mark occurs.
//!
//! The graph is an `impl Graph` of `ps_components`, and the marks are an `impl Marked`. An edge is a slot of a vertex
//! that holds a link, so two edges between the same vertices may bear different marks.
//!
//! | Call | What it gives |
//! |---|---|
//! | `fair_cycle(graph)` | a closed walk of one or more edges on which each mark occurs, if there is one |
//! | `walk_to(graph, from, to)` | the edges of a path from one vertex to another, if there is one |
//!
//! A closed walk is within one strongly connected component, and edges of one component can be joined to a closed walk.
//! So the search looks in each component for an edge with the first mark, then for one with the second, until a mark is
//! missing. The time is at most proportional to the number of vertices, and to that of slots times that of marks; the
//! walk has at most as many edges as the component has vertices, times the marks, or times 1.
#![tactic(auto)]

mod cycles;
mod edge;
mod full;
mod inner;
mod marked;

pub use cycles::{fair_cycle, walk_to};
pub use edge::Edge;
pub use marked::Marked;
