//! Lists of keys.

ghost use Rattle.std.specs.Prelude.{◌≡◌, ◌^◌, ◌<◌, [], IfOk, length};
ghost use Rattle.ps_keys.specs.Keys.{IsLastEqual, PlacesKey};

use crate::hashed::Hashed;
use crate::table::{Sought, Table};
use std::alloc::{AllocError, Global};
use std::marker::Model;

/// A list of keys, each found by its hash. `place_of` appends only keys that the list lacks.
#[derive(Debug, Drop)]
pub struct KeyList<K: Hashed> {
    list: Vec<K>,
    table: Table,
}

impl<K: Hashed> Model for KeyList<K> {
    ghost use Rattle.std.specs.Prelude.{List};
    ghost use Rattle.ps_keys.specs.Inner.Tables.{IsTableOf};

    ghost Value = { List K };

    ghost view = { λ k. k.list.items };

    ghost invariant = { λ k. IsTableOf K.hash K.eq k.list.items k.table };
}

impl<K: Hashed> KeyList<K> {
    /// No keys.
    pub fn new(alloc: Global) -> Self
        ensures { result ≡ [] }
    {
        KeyList {
            list: Vec::new(alloc),
            table: Table::new(alloc),
        }
    }

    /// The same keys.
    pub fn copy(&self) -> Result<Self, AllocError>
        ensures { IfOk result (λ keys. keys ≡ self.now) }
    {
        let mut list = Vec::new(*self.list.allocator());
        list.extend_from_slice(&self.list)?;
        let table = self.table.copy()?;
        Ok(KeyList { list, table })
    }

    /// The keys.
    #[inline(always)]
    pub fn as_slice(&self) -> &[K]
        ensures { result.now ≡ self.now }
    {
        &self.list
    }

    /// The number of keys.
    #[inline(always)]
    pub fn len(&self) -> usize
        ensures value { result ≡ length self.now }
        ensures few { result < 2 ^ 32 }
    {
        self.keys_are_few();
        self.list.len()
    }

    /// There are fewer than 2^32 keys: the prover learns it here.
    #[inline(always)]
    pub fn keys_are_few(&self)
        ensures { length self.now < 2 ^ 32 }
    {
        // the table has more slots than keys
        let _ = &self.table;
    }

    /// The last index of a key that equals this one.
    #[inline(always)]
    pub fn find(&self, key: K) -> Option<usize>
        ensures { IsLastEqual K.eq self.now key result }
    {
        match self.table.find(&self.list, key) {
            Sought::Found(place) => Some(place),
            Sought::Missing(_) => None,
        }
    }

    /// The index of a key, which is appended if it is new. Fails if out of memory, or if the table would need more than
    /// 2^32 slots: with 5 * 2^29 keys, or 2^27 if searches get long.
    #[inline(always)]
    pub fn place_of(&mut self, key: K) -> Result<usize, AllocError>
        ensures { PlacesKey K.eq self.old self.new key result }
    {
        let free = match self.table.find(&self.list, key) {
            Sought::Found(place) => return Ok(place),
            Sought::Missing(free) => free,
        };
        let free = self.table.make_room(&self.list, key, free)?;
        let place = self.list.len();
        self.list.push(key)?;
        self.table.fill(&self.list, place, key, free);
        Ok(place)
    }
}
