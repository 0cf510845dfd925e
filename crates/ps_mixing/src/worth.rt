//! Whether a mixing can change a file's diagrams.

ghost use Rattle.std.specs.Prelude.{IsTrue};
ghost use Rattle.ps_mixing.specs.MixedFiles.{HasLabels};

use crate::file::has_labels;
use crate::named::{bits_of, named_in};
use ps_hoa::{Edge, Guard, HoaFile, Row};
use ps_label::Label;

/// Whether the file has labels, and one of them names propositions of both players. If each names those of one player
/// alone, whose order a mixing keeps, the diagrams are the same in all mixings.
pub fn is_worth_mixing(file: &HoaFile) -> bool
    ensures { IsTrue result → HasLabels file.now }
{
    let own = bits_of(file.controllable());
    has_labels(file) && file.rows().iter().any(|row| row_names_both(row, own))
}

fn row_names_both(row: &Row, own: u64) -> bool {
    let by_state = match &row.label {
        Some(label) => names_both(label, own),
        None => false,
    };
    by_state || row.edges.iter().any(|edge| edge_names_both(edge, own))
}

fn edge_names_both(edge: &Edge, own: u64) -> bool {
    match &edge.guard {
        Guard::Stated(label) => names_both(label, own),
        _ => false,
    }
}

fn names_both(label: &Label, own: u64) -> bool {
    let named = named_in(label);
    named & own != 0 && named & !own != 0
}
