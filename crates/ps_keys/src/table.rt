//! Finds keys by their hashes.

ghost use Rattle.std.specs.Prelude.{◌≡◌, ℕ, ◌+◌, ◌*◌, ◌^◌, ◌<◌, ◌≤◌, [], false, true, IfOk, IfSome, MatchOption, OnOk};
ghost use Rattle.std.specs.Prelude.{IsSome, length, slice_index_or};
ghost use Rattle.std.specs.Bool.{OnTrue};
ghost use Rattle.ps_keys.specs.Inner.Slots.{tag_of, nth_slot, Ends, HasEmpty};
ghost use Rattle.ps_keys.specs.Inner.Tables.{HasKeys, HasRoom, IsFree, IsSought};

use crate::hashed::{Hashed, MULTIPLIER};
use std::alloc::{AllocError, Global};

/// The number of slots for the first key.
const FEWEST: usize = 32;

/// The most slots; more are refused as if out of memory.
const MOST: usize = 1 << 32;

/// If a search for a new key passes more slots than this, the table grows and gets a new seed, unless it has at least
/// `SPARSE` slots for each key.
const LONG: usize = 256;

const SPARSE: usize = 32;

#[derive(Clone, Copy)]
pub(crate) enum Sought {
    /// The index of an equal key.
    Found(usize),
    /// No equal key; the empty slot at which the search ended, if it did.
    Missing(Option<Free>),
}

/// An empty slot.
#[derive(Clone, Copy)]
pub(crate) struct Free {
    /// The hash of the key that was sought.
    pub hash: u64,
    pub slot: usize,
    /// How many slots the search passed.
    pub passed: usize,
}

/// Finds the keys of a list, by open addressing with linear probing. The number of slots is a power of two, at most
/// five eighths of them used. A search begins where the low bits of the hash say, and goes round.
///
/// A slot holds 0 if it is empty, else the index of a key, from 1, and in the bits above it the key's tag, a part of
/// the hash, so that a search seldom reads another key.
#[derive(Debug, Drop)]
pub(crate) struct Table {
    slots: Vec<u32>,
    /// A search for any key of the table passes fewer slots.
    reach: usize,
    seed: u64,
}

impl Table {
    pub(crate) fn new(alloc: Global) -> Self
        ensures slots { result.slots.items ≡ [] }
        ensures reach { result.reach ≡ 0 }
    {
        Table {
            slots: Vec::new(alloc),
            reach: 0,
            seed: 0x243f_6a88_85a3_08d3,
        }
    }

    pub(crate) fn copy(&self) -> Result<Self, AllocError>
        ensures slots { IfOk result (λ table. table.slots.items ≡ self.now.slots.items) }
        ensures reach { IfOk result (λ table. table.reach ≡ self.now.reach) }
        ensures seed { IfOk result (λ table. table.seed ≡ self.now.seed) }
    {
        let slots = self.slots.clone()?;
        Ok(Table {
            slots,
            reach: self.reach,
            seed: self.seed,
        })
    }

    #[inline(always)]
    pub(crate) fn find<K: Hashed>(&self, list: &[K], key: K) -> Sought
        requires { HasKeys K.hash list.now (length list.now) self.now }
        ensures { IsSought K.hash K.eq list.now self.now key result }
    {
        let size = self.slots.len();
        if size == 0 {
            return Sought::Missing(None);
        }
        let hash = key.hash(self.seed);
        let tag = tag_of(hash, size);
        let mut passed = 0;
        while passed < self.reach {
            let slot = nth_slot(hash, passed, size);
            let entry = self.slots[slot];
            if entry == 0 {
                return Sought::Missing(Some(Free { hash, slot, passed }));
            }
            if let Some(place) = place_in(entry, tag, list, key) {
                return Sought::Found(place);
            }
            passed += 1;
        }
        Sought::Missing(None)
    }

    /// The first empty slot for this hash.
    #[inline(always)]
    fn free_slot(&self, hash: u64) -> Option<Free>
        ensures some { HasEmpty self.now.slots.items → IsSome result }
        ensures hash { IfSome result (λ free. free.hash ≡ hash) }
        ensures ends { IfSome result (λ free. Ends self.now.slots.items hash free.passed free.slot) }
    {
        let size = self.slots.len();
        let mut passed = 0;
        while passed < size {
            let slot = nth_slot(hash, passed, size);
            if self.slots[slot] == 0 {
                return Some(Free { hash, slot, passed });
            }
            passed += 1;
        }
        None
    }

    /// Puts a key into an empty slot; the table has all keys before it.
    #[inline(always)]
    pub(crate) fn fill<K: Hashed>(&mut self, list: &[K], place: usize, key: K, free: Free)
        requires keys { HasKeys K.hash list.now place self.old }
        requires room { HasRoom (place + 1) (length self.old.slots.items) }
        requires key { (d : K) → slice_index_or list.now place d ≡ key }
        requires free { IsFree K.hash self.old key free }
        ensures keys { HasKeys K.hash list.now (place + 1) self.new }
        ensures size { length self.new.slots.items ≡ length self.old.slots.items }
    {
        self.slots[free.slot] = tag_of(free.hash, self.slots.len()) + (place as u32 + 1);
        self.reach = self.reach.max(free.passed + 1);
    }

    /// An empty slot for a key that the list lacks: the given one, if it may be used.
    #[inline(always)]
    pub(crate) fn make_room<K: Hashed>(
        &mut self,
        list: &[K],
        key: K,
        free: Option<Free>,
    ) -> Result<Free, AllocError>
        requires keys { HasKeys K.hash list.now (length list.now) self.old }
        requires free { IfSome free (IsFree K.hash self.old key) }
        ensures keys { HasKeys K.hash list.now (length list.now) self.new }
        ensures room { OnOk result (HasRoom (length list.now + 1) (length self.new.slots.items)) }
        ensures free { IfOk result (IsFree K.hash self.new key) }
    {
        match free {
            Some(free) if self.takes(list.len(), free.passed) => Ok(free),
            _ => self.seek_room(list, key),
        }
    }

    /// Whether a new key may be put behind `passed` slots: at most five eighths are then used, and no search is too
    /// long.
    #[inline(always)]
    fn takes(&self, count: usize, passed: usize) -> bool
        ensures { OnTrue result (HasRoom (count + 1) (length self.now.slots.items)) }
    {
        let size = self.slots.len();
        count < size / 8 * 5 && (passed <= LONG || count <= size / SPARSE)
    }

    /// Finds an empty slot for a key that the list lacks, and grows if need be.
    #[inline(never)]
    fn seek_room<K: Hashed>(&mut self, list: &[K], key: K) -> Result<Free, AllocError>
        requires { HasKeys K.hash list.now (length list.now) self.old }
        ensures keys { HasKeys K.hash list.now (length list.now) self.new }
        ensures room { OnOk result (HasRoom (length list.now + 1) (length self.new.slots.items)) }
        ensures free { IfOk result (IsFree K.hash self.new key) }
    {
        if let Some(free) = self.free_slot(key.hash(self.seed))
            && self.takes(list.len(), free.passed)
        {
            return Ok(free);
        }
        self.grow(list)?;
        Ok(self.free_slot(key.hash(self.seed)).unwrap())
    }

    /// Doubles the number of slots, with a new seed. Fails if out of memory, or beyond `MOST` slots.
    fn grow<K: Hashed>(&mut self, list: &[K]) -> Result<(), AllocError>
        requires { HasKeys K.hash list.now (length list.now) self.old }
        ensures keys { HasKeys K.hash list.now (length list.now) self.new }
        ensures room { OnOk result (HasRoom (length list.now + 1) (length self.new.slots.items)) }
    {
        let size = self.slots.len().saturating_mul(2).max(FEWEST);
        if size > MOST {
            return Err(AllocError);
        }
        let mut slots = Vec::new(*self.slots.allocator());
        slots.resize(size, 0)?;
        let mut table = Table {
            slots,
            reach: 0,
            seed: self.seed.wrapping_mul(MULTIPLIER),
        };
        for place in 0..list.len() {
            let key = list[place];
            let free = table.free_slot(key.hash(table.seed)).unwrap();
            table.fill(list, place, key, free);
        }
        *self = table;
        Ok(())
    }
}

#[inline(always)]
fn tag_of(hash: u64, size: usize) -> u32
    requires some { 0 < size }
    requires few { size ≤ 2 ^ 32 }
    ensures value { result ≡ tag_of hash size }
    ensures few { result + size ≤ 2 ^ 32 }
{
    (hash >> 32) as u32 & (u32::MAX - (size - 1) as u32)
}

/// The slot that a search visits after `passed` others.
#[inline(always)]
fn nth_slot(hash: u64, passed: usize, size: usize) -> usize
    requires { 0 < size }
    ensures value { result ≡ nth_slot hash passed size }
    ensures within { result < size }
{
    (hash as usize).wrapping_add(passed) & (size - 1)
}

/// The key's index, if the slot's entry is of an equal key.
#[inline(always)]
fn place_in<K: Hashed>(entry: u32, tag: u32, list: &[K], key: K) -> Option<usize>
    ensures { MatchOption result
        ((j : ℕ) (d : K) → j < length list.now → entry ≡ tag + (j + 1) → K.eq (slice_index_or list.now j d) key ≡ false)
        (λ place. (place < length list.now) × ((d : K) → K.eq (slice_index_or list.now place d) key ≡ true)) }
{
    let place = entry.wrapping_sub(tag).wrapping_sub(1) as usize;
    if place < list.len() && list[place] == key {
        Some(place)
    } else {
        None
    }
}
