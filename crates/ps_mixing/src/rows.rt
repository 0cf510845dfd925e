//! Rows with their propositions moved.

ghost use Rattle.std.specs.Prelude.{◌≡◌, ◌≢◌, ℕ, IfOk, map, option_copied, option_map};
ghost use Rattle.std.specs.List.{All};
ghost use Rattle.ps_label.specs.Expression.{expression};
ghost use Rattle.ps_hoa.specs.Files.{at_letter};
ghost use Rattle.ps_hoa.specs.Views.{edge_data, guard_data, row_data};
ghost use Rattle.ps_mixing.specs.MixedFiles.{IsWithLabel, mixed_edge, mixed_guard, mixed_row, renamed as renamed_by};
ghost use Rattle.ps_mixing.specs.Inner.Renaming.{IsWithin};
ghost use Rattle.ps_mixing.specs.Orders.{mixing_of, place_in};

use crate::copies::marks_copied;
use crate::label::renamed;
use crate::order::Permutation;
use ps_hoa::{Edge, Guard, Row};
use ps_label::Label;
use std::alloc::{AllocError, Global};

pub(crate) fn rows_mixed(
    alloc: Global,
    rows: &[Row],
    order: &Permutation,
) -> Result<Vec<Row>, AllocError>
    requires within { IsWithin 64 order.now.to.items }
    requires labels { All (λ row. All IsWithLabel row.edges) (map row_data rows.now) }
    ensures { IfOk result (λ made. (n : ℕ) →
        map row_data made.items ≡ map (mixed_row n (mixing_of order.now)) (map row_data rows.now)) }
{
    let mut made = Vec::with_capacity(alloc, rows.len())?;
    for row in rows {
        made.push(row_mixed(alloc, row, order)?)?;
    }
    Ok(made)
}

fn row_mixed(alloc: Global, row: &Row, order: &Permutation) -> Result<Row, AllocError>
    requires within { IsWithin 64 order.now.to.items }
    requires labels { All IsWithLabel (row_data row.now).edges }
    ensures { IfOk result (λ made. (n : ℕ) → row_data made ≡ mixed_row n (mixing_of order.now) (row_data row.now)) }
{
    let label = label_mixed(alloc, row.label.as_ref(), order)?;
    let marks = marks_copied(alloc, &row.marks)?;
    let edges = edges_mixed(alloc, &row.edges, order)?;
    Ok(Row {
        state: row.state,
        label,
        marks,
        edges,
    })
}

fn label_mixed(
    alloc: Global,
    label: Option<&Label>,
    order: &Permutation,
) -> Result<Option<Label>, AllocError>
    requires { IsWithin 64 order.now.to.items }
    ensures { IfOk result (λ made. option_map expression made ≡
        option_map (renamed_by (mixing_of order.now).to) (option_map expression (option_copied label.entry))) }
{
    match label {
        None => Ok(None),
        Some(label) => Ok(Some(renamed(alloc, label, &order.to)?)),
    }
}

fn edges_mixed(alloc: Global, edges: &[Edge], order: &Permutation) -> Result<Vec<Edge>, AllocError>
    requires within { IsWithin 64 order.now.to.items }
    requires labels { All IsWithLabel (map edge_data edges.now) }
    ensures { IfOk result (λ made. (n : ℕ) →
        map edge_data made.items ≡ map (mixed_edge n (mixing_of order.now)) (map edge_data edges.now)) }
{
    let mut made = Vec::with_capacity(alloc, edges.len())?;
    for edge in edges {
        made.push(edge_mixed(alloc, edge, order)?)?;
    }
    Ok(made)
}

fn edge_mixed(alloc: Global, edge: &Edge, order: &Permutation) -> Result<Edge, AllocError>
    requires within { IsWithin 64 order.now.to.items }
    requires label { IsWithLabel (edge_data edge.now) }
    ensures { IfOk result (λ made. (n : ℕ) → edge_data made ≡ mixed_edge n (mixing_of order.now) (edge_data edge.now)) }
{
    let guard = guard_mixed(alloc, &edge.guard, order)?;
    let marks = marks_copied(alloc, &edge.marks)?;
    Ok(Edge {
        guard,
        target: edge.target,
        marks,
    })
}

fn guard_mixed(alloc: Global, guard: &Guard, order: &Permutation) -> Result<Guard, AllocError>
    requires within { IsWithin 64 order.now.to.items }
    requires label { (k : ℕ) → guard_data guard.now ≢ at_letter k }
    ensures { IfOk result (λ made. (n : ℕ) →
        guard_data made ≡ mixed_guard n (mixing_of order.now) (guard_data guard.now)) }
{
    match guard {
        Guard::Stated(label) => Ok(Guard::Stated(renamed(alloc, label, &order.to)?)),
        Guard::OfState => Ok(Guard::OfState),
        Guard::Letter(_) => unreachable!(),
    }
}
