//! The least counts (a progress measure) of a player's region, or a cycle that the player loses.
//!
//! [`ranks`] considers the edges that remain inside a region when its player moves by a table. For each priority of the
//! opponent's parity, by which the player loses, it returns the least counts that keep the rule of counts, `KeepsRule`.
//! If a cycle of these edges is lost, no counts do, and [`ranks`] returns such a cycle.
//!
//! The counts for one priority are a progress measure (Jurdzinski), but they are not lifted step by step. If there are
//! many priorities, vertices are first grouped by priority. For each priority, one search follows the edges backwards
//! from its vertices; then one pass over the strongly connected components, from the last that the search finished to
//! the first, gives each vertex its count. That takes time at most proportional to the number of vertices and edges.
//! The memory is proportional to the number of vertices, edges and nonzero counts.
//!
//! | Call | What it gives |
//! |---|---|
//! | `ranks` | `Ranks`: the least counts; else a lost cycle, which never occurs if the player holds the region |
//! | `CountTable::row_into`, `len` | the counts of a vertex, written into a list; the number of rows |
//! | `CountTable::nonzero_into`, `width` | a vertex's nonzero counts, each with its index; the number of its counts |
//! | `MeasureFault::number`, `name` | the number and name of a fault in psyn's list of faults |
//! | `counts_are_there` | a law: a region has least counts or a lost cycle; a region that is held has least counts |
//!
//! The counts for a priority are 0 outside the region, and at most the number of its vertices in the region. Any region
//! and table may be given: edges may leave the region, and moves may be wrong. How often a count was raised is written
//! to `Counts::raises`.
#![tactic(auto)]

mod column;
mod fault;
mod groups;
mod laws;
mod layer;
mod low;
mod measuring;
mod packed;
mod remaining;
mod table;

pub use fault::MeasureFault;
pub use laws::counts_are_there;
pub use measuring::ranks;
pub use table::{CountTable, Ranks};
