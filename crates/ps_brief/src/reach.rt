//! The keys that the winner's moves can reach.

ghost use Rattle.std.specs.Prelude.{◌≡◌, ◌∷◌, [], ◌+◌, ◌<◌, ℕ, IfOk, None, OnOk, Some, length, nat_eq, slice_get};
ghost use Rattle.std.specs.List.{All};
ghost use Rattle.indexmap.specs.IndexMap.{get};
ghost use Rattle.indexmap.specs.IndexSet.{IsUnique};
ghost use Rattle.ps_automaton.specs.Automata.{pair_of};
ghost use Rattle.ps_diagram.specs.Table.{Keeps, Table};
ghost use Rattle.ps_machine.specs.Inner.Drawing.{anchor_of};
ghost use Rattle.ps_brief.specs.Inner.Drafts.{IsDraft, IsReady, play_of};
ghost use Rattle.ps_brief.specs.Inner.Playable.{Comes};
ghost use Rattle.ps_brief.specs.Inner.Reaching.{GrowsTo, Inserts, IsEntered, IsFound, IsReached, IsReachedUpTo};
ghost use Rattle.ps_brief.specs.Inner.Reaching.{LeadsTo, Reaches};

use crate::drafts::{Draft, Plan};
use indexmap::{IndexMap, IndexSet};
use ps_diagram::Store;
use std::alloc::{AllocError, Global};

/// What the winner's moves can reach.
#[derive(Drop)]
pub(crate) struct Reached {
    /// The places of keys in the listing, in the order in which they were found.
    pub places: IndexSet<usize>,
    /// The winner's moves, by anchors.
    pub drafts: IndexMap<usize, Draft>,
}

/// What the machine remembers at a key: its place in the listing if the winner moves first, and else its state.
pub(crate) fn anchor(moves_first: bool, place: usize, state: u32) -> usize
    ensures { result ≡ anchor_of moves_first place state }
{
    if moves_first { place } else { state as usize }
}

/// Finds the keys that the winner's moves can reach, and the moves at them. Fails if out of memory.
pub(crate) fn reached_by(
    alloc: Global,
    plan: &Plan<'_>,
    store: &mut Store,
) -> Result<Reached, AllocError>
    requires { IsReady plan.now store.old }
    ensures keeps { Keeps store.old store.new }
    ensures reached { IfOk result (IsReached plan.now store.new) }
{
    let mut reached = Reached::new(alloc)?;
    for turn in 0..plan.listing.count() {
        let Some(&place) = reached.places.get_index(turn) else {
            break;
        };
        reached.visit(plan, store, place)?;
    }
    reached.places_differ();
    Ok(reached)
}

impl Reached {
    /// Only the start is found.
    fn new(alloc: Global) -> Result<Reached, AllocError>
        ensures places { IfOk result (λ reached. reached.places.keys ≡ 0 ∷ []) }
        ensures drafts { IfOk result (λ reached. (anchor : ℕ) → get nat_eq reached.drafts anchor ≡ None) }
    {
        let mut places = IndexSet::new(alloc);
        places.insert(0)?;
        Ok(Reached {
            places,
            drafts: IndexMap::new(alloc),
        })
    }

    /// No place was found twice: the prover learns it here.
    fn places_differ(&self)
        ensures { IsUnique nat_eq self.now.places }
    {
        self.places.as_slice();
    }

    /// Drafts the moves at a key, and adds the keys to which they lead.
    fn visit(&mut self, plan: &Plan<'_>, store: &mut Store, place: usize) -> Result<(), AllocError>
        requires ready { IsReady plan.now store.old }
        requires found { IsFound plan.now place }
        requires below { place < length (play_of plan.now).keys }
        ensures keeps { Keeps store.old store.new }
        ensures visits { OnOk result ((n : ℕ) → slice_get self.old.places.keys n ≡ Some place →
            IsReachedUpTo plan.now store.old self.old n → IsReachedUpTo plan.now store.new self.new (n + 1)) }
    {
        let step = plan.listing.step_at(place);
        let anchor = anchor(plan.moves_first, place, step.state);
        if self.drafts.contains_key(&anchor) {
            return Ok(());
        }
        let draft = plan.draft(store, place, step)?;
        self.enter(plan, store, &draft)?;
        self.drafts.insert(anchor, draft)?;
        Ok(())
    }

    /// Adds the keys to which the moves lead.
    fn enter(&mut self, plan: &Plan<'_>, store: &Store, draft: &Draft) -> Result<(), AllocError>
        requires ready { IsReady plan.now store.now }
        requires draft { (v : ℕ) × (q : ℕ) × (p : ℕ) × Reaches plan.now v q p ×
            IsDraft plan.now store.now q p draft.now }
        ensures drafts { OnOk result (self.new.drafts ≡ self.old.drafts) }
        ensures stays { OnOk result (GrowsTo self.old.places.keys self.new.places.keys) }
        ensures each { OnOk result (All (IsFound plan.now) self.old.places.keys →
            All (IsFound plan.now) self.new.places.keys) }
        ensures entered { OnOk result (IsEntered plan.now store.now draft.now self.new.places.keys) }
    {
        let leaves = store.leaves(draft.steps)?;
        for (leaf, _) in &leaves {
            self.enter_leaf(plan, *leaf)?;
        }
        Ok(())
    }

    /// Adds the key to which the step of a leaf leads.
    fn enter_leaf(&mut self, plan: &Plan<'_>, leaf: u64) -> Result<(), AllocError>
        requires ready { (t : Table) × IsReady plan.now t }
        requires leaf { leaf < length plan.now.setting.now.automaton.now.steps }
        requires comes { Comes (play_of plan.now) plan.now.moves_first
            (pair_of plan.now.setting.now.automaton.now leaf).state
            (pair_of plan.now.setting.now.automaton.now leaf).priority }
        ensures drafts { OnOk result (self.new.drafts ≡ self.old.drafts) }
        ensures inserts { OnOk result ((place : ℕ) × LeadsTo plan.now leaf place ×
            Inserts (IsFound plan.now) self.old.places.keys self.new.places.keys place) }
    {
        let step = plan.setting.automaton.pair(leaf);
        let Some(place) = plan.listing.place_of(step) else {
            unreachable!();
        };
        self.places.insert(place)?;
        Ok(())
    }
}
