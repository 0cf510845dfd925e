//! Graphs whose edges bear marks.

ghost use Rattle.std.specs.Prelude.{◌≡◌, ◌<◌};
ghost use Rattle.ps_fairness.specs.Marks.{Marks};

use ps_components::Graph;

/// A graph whose edges bear any number of marks, which are numbered from 0.
pub trait Marked: Graph {
    /// The marks, in clauses.
    ghost marks: { Self → Marks };

    /// The number of marks.
    fn mark_count(&self) -> usize
        ensures { result ≡ (marks self.now).count };

    /// Whether the edge in a slot of a vertex bears a mark.
    fn has_mark(&self, vertex: usize, slot: usize, mark: usize) -> bool
        requires vertex { vertex < (Self.graph self.now).count }
        requires slot { slot < (Self.graph self.now).degree vertex }
        requires mark { mark < (marks self.now).count }
        ensures { result ≡ (marks self.now).has vertex slot mark };
}
