//! Files with their propositions moved.

ghost use Rattle.std.specs.Prelude.{◌≡◌, ◌↔◌, ◌≤◌, true, IfOk, length, map};
ghost use Rattle.std.specs.List.{All};
ghost use Rattle.ps_hoa.specs.Memory.{bytes_of};
ghost use Rattle.ps_hoa.specs.Sound.{IsSoundFile};
ghost use Rattle.ps_hoa.specs.Views.{edge_data, row_data};
ghost use Rattle.ps_mixing.specs.MixedFiles.{HasLabels, IsMixingOf, IsWithLabel, mixed_file, mixed_names};
ghost use Rattle.ps_mixing.specs.MixedOrSame.{IsMixedFrom};
ghost use Rattle.ps_mixing.specs.Inner.Renaming.{IsWithin, names_by};
ghost use Rattle.ps_mixing.specs.Orders.{mixing_of, place_in};

use crate::copies::condition_copied;
use crate::label::aliases_renamed;
use crate::order::{Permutation, entry, even_order};
use crate::rows::rows_mixed;
use ps_hoa::{Edge, Guard, HoaFile, HoaParts, Row};
use std::alloc::{AllocError, Global};

/// A file's propositions: their names, and the controllable ones.
#[derive(Drop)]
struct Propositions {
    names: Vec<Vec<u8>>,
    controllable: Vec<u32>,
}

/// The file with each player's propositions evenly spread among the other's. Fails if out of memory.
pub fn evenly_mixed(alloc: Global, file: &HoaFile) -> Result<HoaFile, AllocError>
    requires { HasLabels file.now }
    ensures mixed { IfOk result (IsMixedFrom file.now) }
    ensures sound { IsSoundFile file.now }
{
    let order = even_order(alloc, file.names().len() as u32, file.controllable())?;
    let made = mixed(alloc, file, &order);
    drop(order);
    made
}

/// The file with its propositions moved as the order says. Fails if out of memory.
pub fn mixed(alloc: Global, file: &HoaFile, order: &Permutation) -> Result<HoaFile, AllocError>
    requires mixing { IsMixingOf file.now (mixing_of order.now) }
    requires labels { HasLabels file.now }
    ensures { IfOk result (λ made. made ≡ mixed_file (mixing_of order.now) file.now) }
{
    let propositions = propositions_mixed(alloc, file, order)?;
    let aliases = aliases_renamed(alloc, file.aliases(), &order.to)?;
    let condition = condition_copied(alloc, file.condition())?;
    let rows = rows_mixed(alloc, file.rows(), order)?;
    HoaFile::of_parts(
        alloc,
        HoaParts {
            states: file.states(),
            start: file.start(),
            names: propositions.names,
            controllable: propositions.controllable,
            aliases,
            sets: file.sets(),
            condition,
            rows,
        },
    )
}

fn propositions_mixed(
    alloc: Global,
    file: &HoaFile,
    order: &Permutation,
) -> Result<Propositions, AllocError>
    requires { IsMixingOf file.now (mixing_of order.now) }
    ensures names { IfOk result (λ made.
        map bytes_of made.names.items ≡ mixed_names (mixing_of order.now) file.now.names) }
    ensures controllable { IfOk result (λ made.
        made.controllable.items ≡ map (mixing_of order.now).to file.now.controllable) }
{
    let names = names_mixed(alloc, file.names(), &order.from)?;
    let controllable = numbers_moved(alloc, file.controllable(), &order.to)?;
    Ok(Propositions {
        names,
        controllable,
    })
}

/// The names in the order that the table states.
fn names_mixed(alloc: Global, names: &[Vec<u8>], from: &[u32]) -> Result<Vec<Vec<u8>>, AllocError>
    requires few { length names.now ≤ 64 }
    requires within { IsWithin (length names.now) from.now }
    ensures { IfOk result (λ made. map bytes_of made.items ≡ names_by (place_in from.now) (map bytes_of names.now)) }
{
    let mut made = Vec::with_capacity(alloc, names.len())?;
    for p in 0..names.len() as u32 {
        let name = &names[entry(from, p) as usize];
        made.push(Vec::from_slice(alloc, name)?)?;
    }
    Ok(made)
}

fn numbers_moved(alloc: Global, numbers: &[u32], to: &[u32]) -> Result<Vec<u32>, AllocError>
    ensures { IfOk result (λ made. made.items ≡ map (place_in to.now) numbers.now) }
{
    numbers.iter().map(|p| entry(to, *p)).collect(alloc)
}

/// Whether the file states a label for each edge, or for its state.
pub(crate) fn has_labels(file: &HoaFile) -> bool
    ensures { (result ≡ true) ↔ HasLabels file.now }
{
    have_labels(file.rows())
}

fn have_labels(rows: &[Row]) -> bool
    ensures { (result ≡ true) ↔ All (λ row. All IsWithLabel row.edges) (map row_data rows.now) }
{
    for row in rows {
        if !are_labelled(&row.edges) {
            return false;
        }
    }
    true
}

fn are_labelled(edges: &[Edge]) -> bool
    ensures { (result ≡ true) ↔ All IsWithLabel (map edge_data edges.now) }
{
    for edge in edges {
        if let Guard::Letter(_) = edge.guard {
            return false;
        }
    }
    true
}
