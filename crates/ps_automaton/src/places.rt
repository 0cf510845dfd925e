//! A list of different targets of edges.

ghost use Rattle.std.specs.Prelude.{◌≡◌, List, [], IfOk, OnOk};
ghost use Rattle.std.specs.BTreeMap.{get};
ghost use Rattle.ps_automaton.specs.Inner.Places.{AreDistinct, IsPlaced, IsTableOf, pair_cmp};
ghost use Rattle.ps_automaton.specs.declared.targets.Target.{Target};

use crate::targets::Target;
use std::alloc::{AllocError, Global};
use std::collections::BTreeMap;
use std::marker::Model;

/// Different targets, with their indices in a tree, so that a search takes logarithmic time whatever they are.
#[derive(Drop)]
pub(crate) struct Places {
    list: Vec<Target>,
    places: BTreeMap<(u32, u64), usize>,
}

impl Model for Places {
    ghost Value = { List Target };

    ghost view = { λ p. p.list.items };

    ghost invariant = { λ p. IsTableOf p.list.items (λ state sets. get pair_cmp p.places (state, sets)) };
}

impl Places {
    pub(crate) fn new(alloc: Global) -> Self
        ensures { result ≡ [] }
    {
        Places {
            list: Vec::new(alloc),
            places: BTreeMap::new(alloc),
        }
    }

    /// The targets, in the order in which they were added.
    pub(crate) fn list(&self) -> &[Target]
        ensures { result.now ≡ self.now }
    {
        self.list.as_slice()
    }

    /// The index of a target, which is appended if it is new.
    pub(crate) fn place_of(&mut self, target: Target) -> Result<usize, AllocError>
        ensures placed { IfOk result (IsPlaced self.old self.new target) }
        ensures distinct { OnOk result (AreDistinct self.new) }
    {
        let key = (target.state, target.sets);
        if let Some(place) = self.places.get(&key).copied() {
            return Ok(place);
        }
        let place = self.list.len();
        self.list.reserve(1)?;
        self.places.insert(key, place)?;
        self.list.push(target).unwrap();
        Ok(place)
    }
}
