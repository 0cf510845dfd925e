//! Builds the arena of an automaton's game, without the game.

ghost use Rattle.std.specs.Prelude.{◌≡◌, ◌≢◌, ◌+◌, ◌++◌, ℕ, IfOk, List, OnOk, Some, length, map, nat_eq};
ghost use Rattle.std.specs.List.{AllPairs, AllZip, Contains};
ghost use Rattle.indexmap.specs.IndexMap.{Updates};
ghost use Rattle.ps_diagram.specs.Letters.{IsBefore};
ghost use Rattle.ps_diagram.specs.Table.{Keeps};
ghost use Rattle.ps_machine.specs.Boards.{IsFirstLetter, LeadsTo};
ghost use Rattle.ps_machine.specs.Keys.{mover_of};
ghost use Rattle.ps_machine.specs.Numbering.{StandsAt};
ghost use Rattle.ps_machine.specs.declared.key.Key.{Key};
ghost use Rattle.ps_machine.specs.declared.key.Key.TheVariants.{First, Second};
ghost use Rattle.ps_brief.specs.ArenaGames.{AreBases, IsArenaFor, letters_at};
ghost use Rattle.ps_brief.specs.Listings.{IsListing, listed_keys};
ghost use Rattle.ps_brief.specs.Settings.{board_in};
ghost use Rattle.ps_brief.specs.Inner.Arranging.{AreArenaKeys, AreArenaVertices, HasSuccessors};
ghost use Rattle.ps_brief.specs.declared.listing.Listing.{Listing};

use crate::bases::Bases;
use crate::listing::Listing;
use crate::setting::Setting;
use indexmap::IndexMap;
use ps_diagram::Store;
use ps_game::{Game, Vertices};
use ps_machine::Key;
use std::alloc::{AllocError, Global};

/// An arena, and what its vertices stand for.
#[derive(Drop)]
pub struct ArenaGame {
    /// The arena.
    pub game: Game,
    /// The key of each vertex: first the keys of the listing, in their order.
    pub keys: Vec<Key>,
}

/// Builds the arena of an automaton's game for bases of its states.
///
/// Fails if out of memory. The number of vertices has no other bound: `Vertices` keeps 17 bytes for each of them and 8
/// for each successor, and a list that would grow past all memory fails like any other allocation.
pub fn arena_of(
    alloc: Global,
    setting: &Setting<'_>,
    store: &mut Store,
    listing: &Listing,
    bases: &Bases,
) -> Result<ArenaGame, AllocError>
    requires listing { IsListing setting.now store.old listing.now }
    requires bases { AreBases setting.now listing.now bases.now }
    ensures keeps { Keeps store.old store.new }
    ensures arena { IfOk result (IsArenaFor setting.now bases.now) }
    ensures listed { IfOk result (λ arena. (v : ℕ) (key : Key) → StandsAt (listed_keys listing.now) v key →
        StandsAt arena.keys.items v key) }
{
    let keys = ArenaKeys::new(alloc, listing, bases)?;
    let vertices = vertices_of(alloc, setting, store, listing, bases, &keys)?;
    let game = vertices.into_game(alloc)?;
    Ok(ArenaGame {
        game,
        keys: keys.list,
    })
}

/// The vertices of an arena with these keys.
fn vertices_of(
    alloc: Global,
    setting: &Setting<'_>,
    store: &mut Store,
    listing: &Listing,
    bases: &Bases,
    keys: &ArenaKeys,
) -> Result<Vertices, AllocError>
    requires listing { IsListing setting.now store.old listing.now }
    requires bases { AreBases setting.now listing.now bases.now }
    requires keys { AreArenaKeys listing.now bases.now keys.now (length (listed_keys listing.now)) }
    ensures keeps { Keeps store.old store.new }
    ensures vertices { IfOk result (λ vertices. AreArenaVertices (board_in setting.now) bases.now
        (mover_of setting.now.order) keys.now.list.items vertices (length keys.now.list.items)) }
{
    let mut vertices = Vertices::new(alloc)?;
    let mut successors = Vec::new(alloc);
    for key in &keys.list {
        keys.find_successors(setting, store, listing, bases, *key, &mut successors)?;
        vertices.push(key.owner(setting.order), key.priority(), &successors)?;
    }
    Ok(vertices)
}

/// The keys of an arena's vertices.
#[derive(Drop)]
struct ArenaKeys {
    /// The key of each vertex.
    list: Vec<Key>,
    /// The first vertex of each state's basis. The others follow it.
    firsts: IndexMap<u32, usize>,
}

impl ArenaKeys {
    /// The keys of the listing, and then those of the bases.
    fn new(alloc: Global, listing: &Listing, bases: &Bases) -> Result<ArenaKeys, AllocError>
        requires different { AllPairs (λ x y. x ≢ y) (listed_keys listing.now) }
        requires rising { (q p : ℕ) → Contains (listed_keys listing.now) (First q p) →
            AllPairs IsBefore (letters_at bases.now q) }
        ensures { IfOk result
            (λ made. AreArenaKeys listing.now bases.now made (length (listed_keys listing.now))) }
    {
        let mut made = ArenaKeys {
            list: listing.keys(alloc)?,
            firsts: IndexMap::new(alloc),
        };
        for step in listing.entered.as_slice() {
            made.add_state(step.state, bases)?;
        }
        Ok(made)
    }

    /// Adds the keys of a state's basis, unless they are there.
    fn add_state(&mut self, state: u32, bases: &Bases) -> Result<(), AllocError>
        requires { AllPairs IsBefore (letters_at bases.now state) }
        ensures { OnOk result ((listing : Listing) (n p : ℕ) → AreArenaKeys listing bases.now self.old n →
            StandsAt (listed_keys listing) n (First state p) → AreArenaKeys listing bases.now self.new (n + 1)) }
    {
        let is_known = self.firsts.contains_key(&state);
        if is_known {
            return Ok(());
        }
        self.add_letters(state, bases.letters(state))?;
        Ok(())
    }

    fn add_letters(&mut self, state: u32, letters: &[u64]) -> Result<(), AllocError>
        ensures list { OnOk result
            (self.new.list.items ≡ self.old.list.items ++ map (λ x. Second state x) letters.now) }
        ensures firsts { OnOk result
            (Updates nat_eq self.old.firsts self.new.firsts state (Some (length self.old.list.items))) }
    {
        self.firsts.insert(state, self.list.len())?;
        for letter in letters {
            self.list.push(Key::Second {
                state,
                letter: *letter,
            })?;
        }
        Ok(())
    }

    /// Replaces a list by the successors of the vertex with this key.
    fn find_successors(
        &self,
        setting: &Setting<'_>,
        store: &mut Store,
        listing: &Listing,
        bases: &Bases,
        key: Key,
        successors: &mut Vec<usize>,
    ) -> Result<(), AllocError>
        requires listing { IsListing setting.now store.old listing.now }
        requires bases { AreBases setting.now listing.now bases.now }
        requires keys { AreArenaKeys listing.now bases.now self.now (length (listed_keys listing.now)) }
        requires key { Contains self.now.list.items key }
        ensures keeps { Keeps store.old store.new }
        ensures found { OnOk result
            (HasSuccessors (board_in setting.now) bases.now self.now.list.items key successors.new.items) }
    {
        match key {
            Key::First { state, .. } => self.find_basis(bases, state, successors),
            Key::Second { state, letter } => {
                find_moves(setting, store, listing, state, letter, successors)
            }
        }
    }

    /// Replaces a list by the vertices of a state's basis.
    fn find_basis(
        &self,
        bases: &Bases,
        state: u32,
        successors: &mut Vec<usize>,
    ) -> Result<(), AllocError>
        requires { (listing : Listing) × AreArenaKeys listing bases.now self.now (length (listed_keys listing))
            × (p : ℕ) × Contains (listed_keys listing) (First state p) }
        ensures { OnOk result (AllZip (StandsAt self.now.list.items) successors.new.items
            (map (λ x. Second state x) (letters_at bases.now state))) }
    {
        successors.clear();
        let first = *self.firsts.get(&state).unwrap();
        for place in 0..bases.letters(state).len() {
            successors.push(first + place)?;
        }
        Ok(())
    }
}

/// Replaces a list by the vertices to which the second player can move behind a letter, in the order of the least
/// letters that lead there.
fn find_moves(
    setting: &Setting<'_>,
    store: &mut Store,
    listing: &Listing,
    state: u32,
    letter: u64,
    successors: &mut Vec<usize>,
) -> Result<(), AllocError>
    requires listing { IsListing setting.now store.old listing.now }
    requires state { (p : ℕ) × Contains (listed_keys listing.now) (First state p) }
    requires letter { IsFirstLetter (board_in setting.now) letter }
    ensures keeps { Keeps store.old store.new }
    ensures found { OnOk result ((next : List Key) × LeadsTo (board_in setting.now) (Second state letter) next
        × AllZip (StandsAt (listed_keys listing.now)) successors.new.items next) }
{
    successors.clear();
    let node = setting.automaton.node(state);
    let rest = store.behind(node, setting.first, letter)?;
    let leaves = store.leaves(rest)?;
    for (leaf, _) in &leaves {
        let step = setting.automaton.pair(*leaf);
        successors.push(listing.place(step))?;
    }
    Ok(())
}
