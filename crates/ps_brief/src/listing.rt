//! The first player's keys in the order of the game.

ghost use Rattle.std.specs.Prelude.{◌≡◌, ◌≢◌, ◌∷◌, ◌+◌, ◌<◌, ◌≤◌, ℕ, [], AllPairs, IfOk, IfSome, IsSome, None, OnOk};
ghost use Rattle.std.specs.Prelude.{Some, nat_eq};
ghost use Rattle.std.specs.Prelude.{option_map, slice_get};
ghost use Rattle.std.specs.List.{Contains};
ghost use Rattle.indexmap.specs.IndexMap.{get};
ghost use Rattle.ps_automaton.specs.declared.step.Step.{Step};
ghost use Rattle.ps_diagram.specs.Table.{Keeps};
ghost use Rattle.ps_machine.specs.Numbering.{StandsAt};
ghost use Rattle.ps_machine.specs.declared.key.Key.TheVariants.{First};
ghost use Rattle.ps_brief.specs.Listings.{IsListing, listed_keys};
ghost use Rattle.ps_brief.specs.Settings.{Fits};
ghost use Rattle.ps_brief.specs.Targets.{target_keys};
ghost use Rattle.ps_brief.specs.Inner.Visiting.{Adding, IsVisiting};

use crate::setting::Setting;
use crate::steps::{Targets, targets_of};
use indexmap::{IndexMap, IndexSet};
use ps_automaton::Step;
use ps_diagram::Store;
use ps_machine::Key;
use std::alloc::{AllocError, Global};

/// The first player's keys in the order of the game, and the targets of their states.
#[derive(Drop)]
pub struct Listing {
    /// The state of each key, and the priority by which it is entered.
    pub entered: IndexSet<Step>,
    /// The targets of the states.
    pub targets: IndexMap<u32, Targets>,
}

/// Lists the first player's keys of an automaton's game, without the game: each key is visited, which adds the targets
/// of its state. Fails if out of memory.
pub fn listing_of(
    alloc: Global,
    setting: &Setting<'_>,
    store: &mut Store,
) -> Result<Listing, AllocError>
    requires { Fits setting.now store.old }
    ensures keeps { Keeps store.old store.new }
    ensures listing { IfOk result (IsListing setting.now store.new) }
{
    let mut listing = Listing::new(alloc, setting)?;
    let mut place = 0;
    while let Some(state) = listing.state(place) {
        listing.visit(alloc, setting, store, state)?;
        place += 1;
    }
    Ok(listing)
}

impl Listing {
    /// Only the start is listed.
    fn new(alloc: Global, setting: &Setting<'_>) -> Result<Listing, AllocError>
        ensures entered { IfOk result (λ listing. listing.entered.keys ≡ record {
          state = setting.now.automaton.now.start;
          priority = 0;
        } ∷ []) }
        ensures targets { IfOk result (λ listing. (q : ℕ) → get nat_eq listing.targets q ≡ None) }
    {
        let mut entered = IndexSet::new(alloc);
        entered.insert(Step {
            state: setting.automaton.start(),
            priority: 0,
        })?;
        Ok(Listing {
            entered,
            targets: IndexMap::new(alloc),
        })
    }

    /// The state of the key at this place, if there is one.
    fn state(&self, place: usize) -> Option<u32>
        ensures state { result ≡ option_map (λ (step : Step). step.state) (slice_get self.now.entered.keys place) }
        ensures within { IfSome result (λ _. place < usize.MAX) }
    {
        let entered = self.entered.as_slice();
        match entered.get(place) {
            Some(step) => Some(step.state),
            None => None,
        }
    }

    /// The targets of a listed state.
    pub fn of(&self, state: u32) -> &Targets
        requires { IsSome (get nat_eq self.now.targets state) }
        ensures { get nat_eq self.now.targets state ≡ Some result.now }
    {
        self.targets.get(&state).unwrap()
    }

    /// The listed keys, in their order.
    pub(crate) fn keys(&self, alloc: Global) -> Result<Vec<Key>, AllocError>
        ensures { IfOk result (λ keys. keys.items ≡ listed_keys self.now) }
    {
        let mut keys = Vec::new(alloc);
        for step in self.entered.as_slice() {
            keys.push(Key::First {
                state: step.state,
                priority: step.priority,
            })?;
        }
        Ok(keys)
    }

    /// The place of the key to which a step leads.
    pub(crate) fn place(&self, step: Step) -> usize
        requires { Contains (listed_keys self.now) (First step.state step.priority) }
        ensures { StandsAt (listed_keys self.now) result (First step.state step.priority) }
    {
        self.entered.get_index_of(&step).unwrap()
    }

    /// Visits a key with this state: adds the state's targets, unless an earlier key has the same state.
    fn visit(
        &mut self,
        alloc: Global,
        setting: &Setting<'_>,
        store: &mut Store,
        state: u32,
    ) -> Result<(), AllocError>
        requires fits { Fits setting.now store.old }
        requires state { state ≤ setting.now.automaton.now.states }
        ensures keeps { Keeps store.old store.new }
        ensures visited { OnOk result ((n p : ℕ) → IsVisiting setting.now store.old self.old n →
            StandsAt (listed_keys self.old) n (First state p) → IsVisiting setting.now store.new self.new (n + 1)) }
    {
        let is_known = self.targets.contains_key(&state);
        if is_known {
            return Ok(());
        }
        let targets = targets_of(alloc, setting, store, state)?;
        self.add(&targets)?;
        self.targets.insert(state, targets)?;
        Ok(())
    }

    /// Appends the targets' keys that are new.
    fn add(&mut self, targets: &Targets) -> Result<(), AllocError>
        requires { AllPairs (λ x y. x ≢ y) (target_keys targets.now.list.items) }
        ensures entered { OnOk result (Adding self.old.entered.keys (target_keys targets.now.list.items)
            self.new.entered.keys) }
        ensures targets { self.new.targets ≡ self.old.targets }
    {
        for place in 0..targets.list.len() {
            let target = targets.list[place];
            self.entered.insert(Step {
                state: target.state,
                priority: target.priority,
            })?;
        }
        Ok(())
    }
}
