//! The labels of a state's edges, and whether they are long.

ghost use Rattle.std.specs.Prelude.{IfSome};
ghost use Rattle.ps_hoa.specs.Files.{FileData};
ghost use Rattle.ps_hoa.specs.Sound.{IsSoundRow};
ghost use Rattle.ps_hoa.specs.Views.{edge_data, row_data};
ghost use Rattle.ps_label.specs.Expression.{expression};
ghost use Rattle.ps_automaton.specs.Inner.Cases.{IsEdgeLabel};
ghost use Rattle.ps_automaton.specs.Inner.Drafts.{IsFit};

use ps_hoa::{Edge, Guard, Row};
use ps_label::{Label, Literal};

/// The label of an edge: its own or the state's; None if it is taken at a single letter.
pub(crate) fn label_of<'a>(row: &'a Row, edge: &'a Edge) -> Option<&'a Label>
    ensures { IfSome result (λ label. (file : FileData) → IsSoundRow file (row_data row.now) →
        IsFit file (edge_data edge.now).guard →
        IsEdgeLabel file (row_data row.now) (edge_data edge.now) (expression label.now)) }
{
    match &edge.guard {
        Guard::Stated(label) => Some(label),
        Guard::OfState => row.label.as_ref(),
        Guard::Letter(_) => None,
    }
}

/// Whether the labels of a row's edges have at least this many literals and operators.
pub(crate) fn are_labels_long(row: &Row, least: usize) -> bool {
    let mut left = least;
    for edge in &row.edges {
        if left == 0 {
            return true;
        }
        if let Some(label) = label_of(row, edge) {
            left = left_behind(label, left);
        }
    }
    left == 0
}

/// The number without one for each literal and operator of a label, but at least 0.
fn left_behind(label: &Label, left: usize) -> usize {
    match label {
        Label::Truth(_) | Label::Atom(_) | Label::Named(_) => left.saturating_sub(1),
        Label::Negated(_) => left.saturating_sub(2),
        Label::Literals(literals) => left.saturating_sub(size_of_literals(literals.as_slice())),
        Label::Neg(operand) => left_behind(operand, left.saturating_sub(1)),
        Label::Both(operands) | Label::Either(operands) => {
            let mut left = left.saturating_sub(1);
            for operand in operands {
                if left == 0 {
                    return 0;
                }
                left = left_behind(operand, left);
            }
            left
        }
    }
}

fn size_of_literals(literals: &[Literal]) -> usize {
    let mut size: usize = 1;
    for literal in literals {
        size = size.saturating_add(if literal.is_negated() { 2 } else { 1 });
    }
    size
}
