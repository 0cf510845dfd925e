//! Lists and maps in which a key is found by its hash, for keys that a text can choose.
//!
//! The toolchain's hash tables hash a key byte by byte with a fixed seed, so a text could choose keys that make them
//! slow. These hash it by a few multiplications, and find it by open addressing with linear probing. If a search gets
//! long, the seed is changed.
//!
//! | Call | What it gives |
//! |---|---|
//! | `Hashed::hash(seed)` | the hash of a key for a seed; equal keys have equal hashes |
//! | `Word::word()` | the number that a key is; pairs and triples of such keys have hashes |
//! | `mixed(seed, first, second)` | a hash of two numbers, from which a key's hash can be made |
//! | `KeyList::place_of(key)` | the index of a key in the list, to which it is appended if it is new |
//! | `KeyList::find(key)` | the index of a key in the list, or none |
//! | `KeyList::as_slice`, `len` | the keys in the order in which they were appended, and their number |
//! | `KeyList::keys_are_few` | a fact: there are fewer than 2^32 keys |
//! | `KeyMap::get(key)`, `put(key, value)` | the value of a key, if it has one; gives a value to a key that has none |
#![tactic(auto)]

mod hashed;
mod key_list;
mod key_map;
mod table;

pub use hashed::{Hashed, Word, mixed};
pub use key_list::KeyList;
pub use key_map::KeyMap;
