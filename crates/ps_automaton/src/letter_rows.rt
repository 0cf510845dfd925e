//! For each letter, the first edge of a row that is taken at the letter.

ghost use Rattle.std.specs.Prelude.{◌≡◌, ℕ, ◌*◌, ◌^◌, ◌<◌, ◌≤◌, All, IfOk, IfSome, IsTrue, None, length, map};
ghost use Rattle.ps_hoa.specs.Sound.{IsSoundFile, IsSoundRow};
ghost use Rattle.ps_hoa.specs.Views.{row_data};
ghost use Rattle.ps_automaton.specs.Inner.Drafts.{AreJoined, AreTargets};
ghost use Rattle.ps_automaton.specs.Inner.LetterSets.{AreLetterSets, IsAdded, edge_at, entry_for, in_words};

use crate::edge_labels::label_of;
use crate::letter_sets::LetterSets;
use crate::numbers::is_in;
use crate::targets::Target;
use ps_hoa::{HoaFile, Row};
use std::alloc::{AllocError, Global};

/// For each letter, the index of the first edge that is taken there, if there is one; None if two edges with different
/// targets share a letter. The contract allows None for every row: the edges are then joined as diagrams, which is
/// slower, but also right.
pub(crate) fn edges_by_letter(
    alloc: Global,
    sets: &LetterSets,
    file: &HoaFile,
    row: &Row,
    targets: &[Target],
) -> Result<Option<Vec<Option<usize>>>, AllocError>
    requires sets { AreLetterSets file.now sets.now }
    requires file { IsSoundFile file.now }
    requires row { IsSoundRow file.now (row_data row.now) }
    requires targets { AreTargets (row_data row.now) targets.now }
    ensures letters { IfOk result (λ found. IfSome found
        (λ edges. length edges.items ≡ 2 ^ length file.now.names)) }
    ensures firsts { IfOk result (λ found. IfSome found
        (λ edges. All (λ edge. IfSome edge (λ first. first < length targets.now)) edges.items)) }
    ensures joined { IfOk result (λ found. IfSome found
        (λ edges. AreJoined file.now (row_data row.now) (length (row_data row.now).edges) targets.now
        (edge_at edges.items))) }
{
    let mut edges = no_edges(alloc, 1 << file.names().len())?;
    for place in 0..row.edges.len() {
        let Some(label) = label_of(row, &row.edges[place]) else {
            return Ok(None);
        };
        let set = sets.of_label(alloc, file, label)?;
        if !add(&mut edges, &set, place, targets) {
            return Ok(None);
        }
    }
    Ok(Some(edges))
}

fn no_edges(alloc: Global, letters: usize) -> Result<Vec<Option<usize>>, AllocError>
    ensures letters { IfOk result (λ edges. length edges.items ≡ letters) }
    ensures none { IfOk result (λ edges. (letter : ℕ) → edge_at edges.items letter ≡ None) }
{
    vec![in alloc; None; letters]
}

/// Adds the edge with the index `place` at the letters of a set. Returns false if one of them has an edge with another
/// target.
fn add(edges: &mut [Option<usize>], set: &[u64], place: usize, targets: &[Target]) -> bool
    requires few { length edges.old ≤ 64 * length set.now }
    requires within { place < length targets.now }
    requires firsts { All (λ edge. IfSome edge (λ first. first < length targets.now)) edges.old }
    ensures letters { length edges.new ≡ length edges.old }
    ensures added { IsTrue result → (letter : ℕ) → letter < length edges.old →
        IsAdded targets.now place (in_words letter set.now) (edge_at edges.old letter) (edge_at edges.new letter) }
{
    for letter in 0..edges.len() {
        if !is_in(letter % 64, set[letter / 64]) {
            continue;
        }
        match edges[letter] {
            None => edges[letter] = Some(place),
            Some(first) => {
                if targets[first] != targets[place] {
                    return false;
                }
            }
        }
    }
    true
}

/// For each letter, the entry of `places` for its edge, or 0 without one.
pub(crate) fn leaves_of(
    alloc: Global,
    edges: &[Option<usize>],
    places: &[u64],
) -> Result<Vec<u64>, AllocError>
    requires { All (λ edge. IfSome edge (λ first. first < length places.now)) edges.now }
    ensures { IfOk result (λ leaves. leaves.items ≡ map (entry_for places.now) edges.now) }
{
    let mut leaves = Vec::with_capacity(alloc, edges.len())?;
    for edge in edges {
        let leaf = match edge {
            Some(first) => places[*first],
            None => 0,
        };
        leaves.push(leaf)?;
    }
    Ok(leaves)
}
