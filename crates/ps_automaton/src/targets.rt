//! The target of an edge.

ghost use Rattle.std.specs.Prelude.{◌≡◌, ℕ, ◌<◌, ◌||◌, All};
ghost use Rattle.ps_label.specs.Truth.{is_in};
ghost use Rattle.ps_hoa.specs.Files.{is_among};
ghost use Rattle.ps_hoa.specs.Views.{edge_data, row_data};
ghost use Rattle.ps_automaton.specs.Inner.Targets.{IsTargetOf};

use ps_hoa::{Edge, Row};

/// The state to which an edge leads, and the acceptance sets of the edge and of the state that it leaves.
#[derive(Clone, Copy, PartialEq, Eq)]
pub(crate) struct Target {
    pub state: u32,
    /// Bit k is 1 if the edge has set k.
    pub sets: u64,
}

pub(crate) fn target_of(row: &Row, edge: &Edge) -> Target
    requires row { All (λ set. set < 64) (row_data row.now).marks }
    requires edge { All (λ set. set < 64) (edge_data edge.now).marks }
    ensures { IsTargetOf (row_data row.now) (edge_data edge.now) result }
{
    Target {
        state: edge.target,
        sets: mask_of(row.marks.as_slice()) | mask_of(edge.marks.as_slice()),
    }
}

fn mask_of(sets: &[u32]) -> u64
    requires { All (λ set. set < 64) sets.now }
    ensures { (set : ℕ) → set < 64 → is_in set result ≡ is_among set sets.now }
{
    let mut mask = 0;
    for set in sets {
        mask |= 1 << *set;
    }
    mask
}
