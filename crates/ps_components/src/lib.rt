//! The strongly connected components of a directed graph, ordered so that each link (edge) leads to the same or an
//! earlier component; and paths through the graph.
//!
//! The caller supplies an `impl Graph`. Gabow's path-based algorithm finds the components, without recursion. The time
//! is at most proportional to the number of vertices of the graph and of slots, empty or not, of the visited vertices,
//! and the memory to that of its vertices and visited links.
//!
//! | Call | What it gives |
//! |---|---|
//! | `components_of(graph)` | the components of all vertices; each follows the components to which it has links |
//! | `components_from(graph, roots)` | the components of exactly the roots and the vertices reachable from them |
//! | `Components::renew(graph, roots)` | like `components_from`, but reuses the memory of old components |
//! | `Components::number`, `order`, `into_order` | the number of a vertex's component; the order of the vertices |
//! | `arrange(graph)` | an order in which each vertex follows its targets, or the first vertex on a cycle |
//! | `way_back(graph, start, end)` | a trail (not always a shortest one) from the end back to the start, or none |
#![tactic(auto)]

mod arranging;
mod components;
mod graph;
mod search;
mod statuses;
mod trail;

pub use arranging::{Arrangement, arrange};
pub use components::{Components, components_from, components_of};
pub use graph::Graph;
pub use trail::way_back;
