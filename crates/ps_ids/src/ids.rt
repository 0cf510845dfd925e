//! The list of ids.

ghost use Rattle.std.specs.Prelude.{◌≡◌, ◌==◌, ◌+◌, ◌<◌, ◌≤◌, ◌^◌, ◌++◌, ◌∷◌, ◌↔◌, ℕ, List, [], OnOk, OnErr, IfSome};
ghost use Rattle.std.specs.Prelude.{IsTrue, IfNone};
ghost use Rattle.std.specs.Prelude.{Contains, MatchOption};
ghost use Rattle.std.specs.Prelude.{is_some, length, position, slice_index, if◌then◌else◌};
ghost use Rattle.std.specs.Ordering.{nat_cmp};
ghost use Rattle.std.specs.List.{list_any};
ghost use Rattle.std.specs.BTreeMap.{get};
ghost use Rattle.ps_ids.specs.Ids.{AreDistinct, IsIdTable, KeepsPlace, own_place};

use std::alloc::{AllocError, Global};
use std::collections::BTreeMap;
use std::marker::Model;

/// `near` is at most this many times as long as the list.
const MOST_PER_ID: usize = 4;

/// Distinct ids in order. One whose index is its distance from `first` needs no entry; the table `near` has the indices
/// of others near `first`, and the tree `far` the rest.
#[derive(Drop)]
pub struct Ids {
    list: Vec<u64>,
    first: u64,
    /// At an id's distance from `first`, 1 more than its index, or 0 for none.
    near: Vec<u32>,
    far: BTreeMap<u64, usize>,
}

impl Model for Ids {
    ghost Value = { List ℕ };

    ghost view = { λ ids. ids.list.items };

    ghost invariant = { λ ids. IsIdTable ids.first ids.list.items ids.near.items (λ id. get nat_cmp ids.far id) };
}

impl Ids {
    /// No ids, with 0 as `first`.
    pub fn new(alloc: Global) -> Self
        ensures { result ≡ [] }
    {
        Ids::starting_at(alloc, 0)
    }

    /// No ids. Those that count up from `first` need no table.
    pub fn starting_at(alloc: Global, first: u64) -> Self
        ensures { result ≡ [] }
    {
        Ids {
            list: Vec::new(alloc),
            first,
            near: Vec::new(alloc),
            far: BTreeMap::new(alloc),
        }
    }

    /// The ids, in order.
    pub fn list(&self) -> &[u64]
        ensures list { result.now ≡ self.now }
        ensures distinct { AreDistinct self.now }
    {
        self.list.as_slice()
    }

    /// The same list.
    pub fn into_list(self) -> Vec<u64>
        ensures list { result.items ≡ self }
        ensures distinct { AreDistinct self }
    {
        let Ids { list, .. } = self;
        list
    }

    /// The index of an id, if the number is one.
    #[inline(always)]
    pub fn place(&self, id: u64) -> Option<usize>
        ensures place { result ≡ position (λ other. id == other) self.now }
        ensures member { is_some result ≡ list_any (λ other. id == other) self.now }
        ensures within { IfSome result (λ place. place < length self.now) }
    {
        if id > self.first && self.near.is_empty() && self.far.is_empty() {
            return place_below(own_place(self.first, id), self.list.len());
        }
        self.recorded_place(id)
    }

    /// Not inlined, since it is called only if an index is recorded or `id` is at most `first`.
    #[inline(never)]
    fn recorded_place(&self, id: u64) -> Option<usize>
        ensures place { result ≡ position (λ other. id == other) self.now }
        ensures member { is_some result ≡ list_any (λ other. id == other) self.now }
        ensures within { IfSome result (λ place. place < length self.now) }
    {
        if let Some(near) = near_place(&self.near, self.first, id) {
            return Some(near);
        }
        let own = own_place(self.first, id);
        if stands_at(&self.list, id, own) {
            return Some(own);
        }
        self.far.get(&id).copied()
    }

    /// Whether a number is an id.
    #[inline(always)]
    pub fn has(&self, id: u64) -> bool
        ensures { result ≡ list_any (λ other. id == other) self.now }
    {
        self.place(id).is_some()
    }

    /// Adds a new id at the end. Fails if out of memory; then nothing changes.
    #[inline(always)]
    pub fn push(&mut self, id: u64) -> Result<(), AllocError>
        requires { Contains self.old id → ⊥ }
        ensures ok { OnOk result (self.new ≡ self.old ++ id ∷ []) }
        ensures err { OnErr result (self.new ≡ self.old) }
    {
        let place = self.list.len();
        self.list.reserve(1)?;
        keep_place(&mut self.near, &mut self.far, self.first, id, place)?;
        self.list.push_reserved(id);
        Ok(())
    }
}

fn stands_at(list: &[u64], id: u64, place: usize) -> bool
    ensures { IsTrue result ↔ ((place < length list.now) × (slice_index list.now place ≡ id)) }
{
    place < list.len() && list[place] == id
}

fn place_below(place: usize, count: usize) -> Option<usize>
    ensures some { IfSome result (λ below. (below ≡ place) × (place < count)) }
    ensures none { IfNone result (count ≤ place) }
{
    if place < count { Some(place) } else { None }
}

fn near_place(near: &[u32], first: u64, id: u64) -> Option<usize>
    ensures { MatchOption result ((first ≤ id) → slice_index near.now (own_place first id) ≡ 0)
        (λ place. (first ≤ id) × (slice_index near.now (own_place first id) ≡ place + 1)) }
{
    if id < first {
        return None;
    }
    let entry = near.get(own_place(first, id)).copied().unwrap_or(0);
    if entry == 0 {
        return None;
    }
    Some(entry as usize - 1)
}

/// The distance from `first`, or 0 for less.
fn own_place(first: u64, id: u64) -> usize
    ensures { result ≡ own_place first id }
{
    id.saturating_sub(first) as usize
}

/// Records the index of a new id, unless `own_place` gives it.
#[inline(always)]
fn keep_place(
    near: &mut Vec<u32>,
    far: &mut BTreeMap<u64, usize>,
    first: u64,
    id: u64,
    place: usize,
) -> Result<(), AllocError>
    ensures ok { OnOk result (KeepsPlace first near.old.items near.new.items (λ q. get nat_cmp far.old q)
        (λ q. get nat_cmp far.new q) id place) }
    ensures err { OnErr result (near.new.items ≡ near.old.items) }
    ensures err_far { OnErr result ((q : ℕ) → get nat_cmp far.new q ≡ get nat_cmp far.old q) }
{
    let own = own_place(first, id);
    if own == place {
        return Ok(());
    }
    record_place(near, far, first, id, place)
}

/// Records the index in the table if the id is near `first` and 4 bytes hold the index plus 1, else in the tree.
#[inline(never)]
fn record_place(
    near: &mut Vec<u32>,
    far: &mut BTreeMap<u64, usize>,
    first: u64,
    id: u64,
    place: usize,
) -> Result<(), AllocError>
    ensures ok { OnOk result (KeepsPlace first near.old.items near.new.items (λ q. get nat_cmp far.old q)
        (λ q. get nat_cmp far.new q) id place) }
    ensures err { OnErr result (near.new.items ≡ near.old.items) }
    ensures err_far { OnErr result ((q : ℕ) → get nat_cmp far.new q ≡ get nat_cmp far.old q) }
{
    let own = own_place(first, id);
    if id >= first && own / MOST_PER_ID <= place && place < u32::MAX as usize {
        put_near(near, own, place as u32 + 1)
    } else {
        far.insert(id, place)?;
        Ok(())
    }
}

/// Writes an entry of the table, which is extended if it is too short.
fn put_near(near: &mut Vec<u32>, distance: usize, entry: u32) -> Result<(), AllocError>
    requires { distance < 2 ^ 62 }
    ensures ok { OnOk result ((k : ℕ) → slice_index near.new.items k ≡
        (if k == distance then entry else slice_index near.old.items k)) }
    ensures err { OnErr result (near.new.items ≡ near.old.items) }
{
    if near.len() <= distance {
        near.resize(distance + 1, 0)?;
    }
    near[distance] = entry;
    Ok(())
}
