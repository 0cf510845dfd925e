//! The machine of an automaton's game, without the game.

ghost use Rattle.std.specs.Prelude.{IfNone, IfOk, IfSome};
ghost use Rattle.ps_certificate.specs.Certificates.{Fits as FitsGame, IsValid};
ghost use Rattle.ps_diagram.specs.Table.{Keeps};
ghost use Rattle.ps_machine.specs.BitMachines.{bit_behaviour};
ghost use Rattle.ps_solver.specs.LeastCertificates.{IsLeastCertificate};
ghost use Rattle.ps_brief.specs.ArenaGames.{AreBases};
ghost use Rattle.ps_brief.specs.Briefs.{IsArenaOfBoard, IsBriefMachine};
ghost use Rattle.ps_brief.specs.Drawing.{BeginsWith};
ghost use Rattle.ps_brief.specs.Listings.{IsListing};
ghost use Rattle.ps_brief.specs.MinimalLetters.{HasRichState, IsRichGame};

use crate::arena::arena_of;
use crate::bases::{Bases, bases_of};
use crate::drawing::machine_of_arena;
use crate::listing::{Listing, listing_of};
use crate::setting::Setting;
use ps_automaton::Automaton;
use ps_basis::least_counts_are_there;
use ps_certificate::Certificate;
use ps_diagram::Store;
use ps_game::Game;
use ps_machine::{BitMachine, Key, Order, least_certificate};
use std::alloc::{AllocError, Global};

/// A state with so many minimal letters is better left to the game, whose vertices are then no more.
pub const MOST_LETTERS: usize = 1024;

/// The machine of the winner at the start, from a valid certificate of the automaton's game with the least counts,
/// without the game. `None` if a state of the game has at least `MOST_LETTERS` minimal letters. Fails if out of memory.
pub fn machine_without_game(
    alloc: Global,
    automaton: &Automaton,
    order: Order,
) -> Result<Option<BitMachine>, AllocError>
    ensures machine { IfOk result
        (λ found. IfSome found (λ m. IsBriefMachine order automaton.now (bit_behaviour m))) }
    ensures none_only { IfOk result (λ found. IfNone found (IsRichGame order automaton.now MOST_LETTERS)) }
{
    let setting = Setting::new(automaton, order);
    let mut store = automaton.store().copy()?;
    let listing = listing_of(alloc, &setting, &mut store)?;
    machine_by_listing(alloc, &setting, &mut store, &listing)
}

/// The same, given the first player's keys.
fn machine_by_listing(
    alloc: Global,
    setting: &Setting<'_>,
    store: &mut Store,
    listing: &Listing,
) -> Result<Option<BitMachine>, AllocError>
    requires { IsListing setting.now store.old listing.now }
    ensures machine { IfOk result (λ found. IfSome found
        (λ m. IsBriefMachine setting.now.order setting.now.automaton.now (bit_behaviour m))) }
    ensures none_only { IfOk result (λ found. IfNone found (HasRichState setting.now listing.now MOST_LETTERS)) }
{
    match bases_of(alloc, setting, store, listing, MOST_LETTERS)? {
        Some(bases) => Ok(Some(machine_by_bases(alloc, setting, store, listing, &bases)?)),
        None => Ok(None),
    }
}

/// The same, given a basis of each state.
fn machine_by_bases(
    alloc: Global,
    setting: &Setting<'_>,
    store: &mut Store,
    listing: &Listing,
    bases: &Bases,
) -> Result<BitMachine, AllocError>
    requires listing { IsListing setting.now store.old listing.now }
    requires bases { AreBases setting.now listing.now bases.now }
    ensures { IfOk result (λ m. IsBriefMachine setting.now.order setting.now.automaton.now
        (bit_behaviour m)) }
{
    let arena = arena_of(alloc, setting, store, listing, bases)?;
    let certificate = certificate_of(alloc, &arena.game)?;
    brief_machine(
        alloc,
        setting,
        store,
        listing,
        &arena.game,
        &arena.keys,
        &certificate,
    )
}

fn certificate_of(alloc: Global, game: &Game) -> Result<Certificate, AllocError>
    ensures { IfOk result (IsLeastCertificate game.now) }
{
    match least_certificate(alloc, game) {
        Ok(certificate) => Ok(certificate),
        Err(_) => Err(AllocError),
    }
}

/// Draws the machine of the player who wins an automaton's game, by a valid certificate of an arena of this game. It is
/// the machine of a valid certificate of the game, with the least counts. Fails if out of memory.
pub fn brief_machine(
    alloc: Global,
    setting: &Setting<'_>,
    store: &mut Store,
    listing: &Listing,
    arena: &Game,
    others: &[Key],
    certificate: &Certificate,
) -> Result<BitMachine, AllocError>
    requires listing { IsListing setting.now store.old listing.now }
    requires arena { IsArenaOfBoard setting.now others.now arena.now }
    requires begins { BeginsWith others.now listing.now }
    requires certificate_fits { FitsGame arena.now certificate.now }
    requires certificate_valid { IsValid arena.now certificate.now }
    ensures keeps { Keeps store.old store.new }
    ensures machine { IfOk result (λ m. IsBriefMachine setting.now.order setting.now.automaton.now
        (bit_behaviour m)) }
{
    least_counts_are_there();
    machine_of_arena(alloc, setting, store, listing, arena, others, certificate)
}
