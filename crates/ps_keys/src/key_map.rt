//! Maps of keys.

ghost use Rattle.std.specs.Prelude.{◌≡◌, [], OnErr, OnOk};
ghost use Rattle.ps_keys.specs.Keys.{GivesValue, value_for};

use crate::hashed::Hashed;
use crate::key_list::KeyList;
use std::alloc::{AllocError, Global};
use std::marker::Model;

/// A map in which a key is found by its hash.
#[derive(Drop)]
pub struct KeyMap<K: Hashed, V: Copy> {
    keys: KeyList<K>,
    values: Vec<V>,
}

impl<K: Hashed, V: Copy> Model for KeyMap<K, V> {
    ghost use Rattle.std.specs.Prelude.{◌≡◌, length};
    ghost use Rattle.ps_keys.specs.Keys.{Mapped};

    ghost Value = { Mapped K V };

    ghost view = { λ m. record { keys = m.keys; values = m.values.items } };

    ghost invariant = { λ m. length m.keys ≡ length m.values.items };
}

impl<K: Hashed + Drop, V: Copy + Drop> KeyMap<K, V> {
    /// No keys.
    pub fn new(alloc: Global) -> Self
        ensures { result.keys ≡ [] }
    {
        KeyMap {
            keys: KeyList::new(alloc),
            values: Vec::new(alloc),
        }
    }

    /// The value of a key, if it has one.
    #[inline(always)]
    pub fn get(&self, key: K) -> Option<V>
        ensures { result ≡ value_for K.eq self.now key }
    {
        match self.keys.find(key) {
            Some(place) => Some(self.values[place]),
            None => None,
        }
    }

    /// Gives a value to a key that has none. Fails if out of memory.
    pub fn put(&mut self, key: K, value: V) -> Result<(), AllocError>
        ensures put { OnOk result (GivesValue K.eq self.old key value self.new) }
        ensures err { OnErr result (self.new ≡ self.old) }
    {
        self.values.reserve(1)?;
        let place = self.keys.place_of(key)?;
        if place == self.values.len() {
            self.values.push_reserved(value);
        }
        Ok(())
    }
}
