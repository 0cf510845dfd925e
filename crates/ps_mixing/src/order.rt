//! The order in which the propositions of a mixed file stand.

ghost use Rattle.std.specs.Prelude.{◌≡◌, ℕ, ◌≢◌, ◌^◌, ◌<◌, ◌≤◌, ◌⊎◌, Bool, true, false, IfOk, length, slice_index_or};
ghost use Rattle.std.specs.List.{AllPairs};
ghost use Rattle.ps_hoa.specs.Files.{is_among};
ghost use Rattle.ps_mixing.specs.Mixings.{IsMixing};
ghost use Rattle.ps_mixing.specs.Inner.Merging.{AreMerged, ArePlaces, CanMerge, IsMergedOrder, is_by, owned_below};
ghost use Rattle.ps_mixing.specs.Orders.{mixing_of, place_in};

use std::alloc::{AllocError, Global};

/// A mixing of propositions, as two tables that are inverse to each other.
#[derive(Debug, Drop)]
pub struct Permutation {
    /// For each proposition, the one that it becomes.
    pub to: Vec<u32>,
    /// For each proposition, the one that becomes it.
    pub from: Vec<u32>,
}

/// Mixes the propositions less than `count`, so that the controllable ones are evenly spread among the others. Fails if
/// out of memory.
pub fn even_order(
    alloc: Global,
    count: u32,
    controllable: &[u32],
) -> Result<Permutation, AllocError>
    requires { count ≤ 64 }
    ensures { IfOk result (λ order. IsMixing count (λ p. is_among p controllable.now) (mixing_of order)) }
{
    let from = even_list(alloc, count, controllable)?;
    let to = places(alloc, &from)?;
    Ok(Permutation { to, from })
}

fn even_list(alloc: Global, count: u32, controllable: &[u32]) -> Result<Vec<u32>, AllocError>
    requires { count ≤ 64 }
    ensures { IfOk result (λ from. IsMergedOrder count (λ p. is_among p controllable.now) from.items) }
{
    let others = propositions(alloc, count, controllable, false)?;
    let own = propositions(alloc, count, controllable, true)?;
    merged(alloc, &others, &own)
}

/// The propositions less than `count` that are controllable, or those that are not, in ascending order.
fn propositions(
    alloc: Global,
    count: u32,
    controllable: &[u32],
    wanted: bool,
) -> Result<Vec<u32>, AllocError>
    ensures { IfOk result (λ list. list.items ≡ owned_below (λ p. is_by wanted (is_among p controllable.now)) count) }
{
    let mut list = Vec::new(alloc);
    for p in 0..count {
        if is_wanted(controllable, p, wanted) {
            list.push(p)?;
        }
    }
    Ok(list)
}

fn is_wanted(controllable: &[u32], p: u32, wanted: bool) -> bool
    ensures { result ≡ is_by wanted (is_among p controllable.now) }
{
    let own = controllable.contains(&p);
    if wanted { own } else { !own }
}

/// Both lists in one, evenly spread: each of them keeps its order.
fn merged(alloc: Global, others: &[u32], own: &[u32]) -> Result<Vec<u32>, AllocError>
    requires { (length others.now ≤ 64) × (length own.now ≤ 64) }
    ensures { IfOk result (λ from. (is_own : ℕ → Bool) → CanMerge is_own others.now own.now →
        AreMerged is_own others.now own.now (length others.now) (length own.now) from.items) }
{
    let mut from = Vec::new(alloc);
    let (mut i, mut j) = (0, 0);
    'more: while i < others.len() || j < own.len() {
        if is_others_turn(i, j, others.len(), own.len()) {
            from.push(others[i])?;
            i += 1;
        } else {
            from.push(own[j])?;
            j += 1;
        }
    }
    Ok(from)
}

/// Whether the next of the others comes, after `i` of them and `j` of the own. Its place among the others is then no
/// later than that of the next of the own.
fn is_others_turn(i: usize, j: usize, others: usize, own: usize) -> bool
    requires some { (i < others) ⊎ (j < own) }
    requires few { (others ≤ 64) × (own ≤ 64) }
    requires within { (i ≤ others) × (j ≤ own) }
    ensures others { result ≡ true → i < others }
    ensures own { result ≡ false → j < own }
{
    j == own || (i < others && i * own <= j * others)
}

/// The place of each proposition in the list, which has each number less than its length once.
fn places(alloc: Global, from: &[u32]) -> Result<Vec<u32>, AllocError>
    requires within { (k d : ℕ) → k < length from.now → slice_index_or from.now k d < length from.now }
    requires once { AllPairs (λ p q. p ≢ q) from.now }
    requires few { length from.now < 2 ^ 32 }
    ensures { IfOk result (λ to. ArePlaces from.now to.items) }
{
    let mut to = vec![in alloc; 0; from.len()]?;
    for (k, p) in from.iter().enumerate() {
        to[*p as usize] = k as u32;
    }
    Ok(to)
}

/// The table's entry for a proposition; the proposition itself, if the table has none.
pub(crate) fn entry(table: &[u32], proposition: u32) -> u32
    ensures { result ≡ place_in table.now proposition }
{
    match table.get(proposition as usize) {
        Some(other) => *other,
        None => proposition,
    }
}
