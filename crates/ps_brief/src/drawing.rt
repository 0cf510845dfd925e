//! Draws the machine of an arena's certificate.

ghost use Rattle.std.specs.Prelude.{◌≡◌, ◌+◌, ℕ, List, IfOk, length};
ghost use Rattle.ps_diagram.specs.Table.{Keeps, Table};
ghost use Rattle.ps_basis.specs.Arenas.{AreOrders};
ghost use Rattle.ps_basis.specs.Memories.{IsMachineByRounds};
ghost use Rattle.ps_machine.specs.BitMachines.{bit_behaviour};
ghost use Rattle.ps_machine.specs.Extracting.{HasPropositions};
ghost use Rattle.ps_machine.specs.Numbering.{StandsAt};
ghost use Rattle.ps_machine.specs.declared.key.Key.TheVariants.{First};
ghost use Rattle.ps_brief.specs.Drawing.{BeginsWith, IsCertifiedArena, order_by, play_in};
ghost use Rattle.ps_brief.specs.Listings.{IsListing, listed_keys};
ghost use Rattle.ps_brief.specs.Settings.{board_in};
ghost use Rattle.ps_brief.specs.Inner.Drafts.{AreLeavesOf, IsReady};
ghost use Rattle.ps_brief.specs.Inner.Parts.{AreNotedUpTo, AreStepsBy, IsDrawable, IsDrawing};
ghost use Rattle.ps_brief.specs.declared.setting.Setting.{Setting};

use crate::drafts::Plan;
use crate::listing::Listing;
use crate::memories::{Memories, memories_of};
use crate::parts::{copied_bits, paired_nodes, relabelled};
use crate::reach::{Reached, reached_by};
use crate::setting::Setting;
use indexmap::IndexSet;
use ps_automaton::Step;
use ps_certificate::Certificate;
use ps_diagram::{Node, Store};
use ps_game::{Game, Player};
use ps_machine::{BitMachine, BitParts, Key, machine_of_bits};
use std::alloc::{AllocError, Global};

/// Draws the machine of the player who wins an arena's start, by the moves of a valid certificate of the arena. Fails
/// if out of memory.
pub fn machine_of_arena(
    alloc: Global,
    setting: &Setting<'_>,
    store: &mut Store,
    listing: &Listing,
    arena: &Game,
    others: &[Key],
    certificate: &Certificate,
) -> Result<BitMachine, AllocError>
    requires listing { IsListing setting.now store.old listing.now }
    requires certified { IsCertifiedArena setting.now arena.now others.now certificate.now }
    requires begins { BeginsWith others.now listing.now }
    ensures keeps { Keeps store.old store.new }
    ensures orders { AreOrders others.now (order_by (listed_keys listing.now) arena.now) }
    ensures machine { IfOk result
        (λ m. IsMachineByRounds (play_in setting.now listing.now arena.now others.now certificate.now)
        (bit_behaviour m)) }
    ensures propositions { IfOk result (λ m. HasPropositions setting.now.automaton.now.names (board_in setting.now)
        (bit_behaviour m)) }
{
    let winner = certificate.winner(0);
    let plan = Plan {
        setting,
        listing,
        arena,
        others,
        certificate,
        moves_first: setting.order.mover().number() == winner,
        leaves: leaves_of(alloc, listing)?,
    };
    let parts = parts_of(alloc, &plan, store)?;
    machine_of_bits(
        alloc,
        setting.automaton,
        setting.order,
        Player::of_number(winner),
        plan.moves_first,
        parts,
    )
}

/// For each listed key, the leaf of the steps to it in the automaton's diagrams, if a step leads there.
fn leaves_of(alloc: Global, listing: &Listing) -> Result<Vec<Option<u64>>, AllocError>
    ensures { IfOk result (λ leaves. (setting : Setting) (t : Table) → IsListing setting t listing.now →
        AreLeavesOf setting (listed_keys listing.now) leaves.items) }
{
    let mut leaves = vec![in alloc; None; listing.count()]?;
    for place in 0..listing.count() {
        note_targets(listing, listing.step_at(place).state, &mut leaves);
    }
    Ok(leaves)
}

/// Notes the leaves of the steps from a state.
fn note_targets(listing: &Listing, state: u32, leaves: &mut Vec<Option<u64>>)
    requires { length leaves.old.items ≡ length (listed_keys listing.now) }
    ensures many { length leaves.new.items ≡ length leaves.old.items }
    ensures noted { (setting : Setting) (t : Table) (n p : ℕ) → IsListing setting t listing.now →
        StandsAt (listed_keys listing.now) n (First state p) →
        AreNotedUpTo setting (listed_keys listing.now) leaves.old.items n →
        AreNotedUpTo setting (listed_keys listing.now) leaves.new.items (n + 1) }
{
    let Some(targets) = listing.targets.get(&state) else {
        return;
    };
    for target in &targets.list {
        let step = Step {
            state: target.state,
            priority: target.priority,
        };
        if let Some(place) = listing.place_of(step) {
            leaves[place] = Some(target.leaf);
        }
    }
}

/// The parts of the machine.
fn parts_of(alloc: Global, plan: &Plan<'_>, store: &mut Store) -> Result<BitParts, AllocError>
    requires { IsReady plan.now store.old }
    ensures keeps { Keeps store.old store.new }
    ensures drawn { IfOk result (λ d. (kept : List ℕ) × IsDrawing plan.now kept d) }
{
    let reached = reached_by(alloc, plan, store)?;
    let memories = memories_of(alloc, plan, &reached)?;
    parts_by(alloc, plan, store, &reached, &memories)
}

/// The same, given what the moves can reach and the memory states.
fn parts_by(
    alloc: Global,
    plan: &Plan<'_>,
    store: &mut Store,
    reached: &Reached,
    memories: &Memories,
) -> Result<BitParts, AllocError>
    requires { IsDrawable plan.now store.old reached.now memories.now }
    ensures keeps { Keeps store.old store.new }
    ensures drawn { IfOk result (IsDrawing plan.now memories.now.kept.items) }
{
    let mut pairs = IndexSet::new(alloc);
    let nodes = paired_nodes(alloc, plan, store, reached, memories, &mut pairs)?;
    let values = memories.values(alloc, plan, pairs.as_slice())?;
    copied(alloc, plan, store, reached, memories, &nodes, &values)
}

/// The same, given the diagrams of the steps, and the memory states for their leaves.
fn copied(
    alloc: Global,
    plan: &Plan<'_>,
    store: &Store,
    reached: &Reached,
    memories: &Memories,
    nodes: &[Node],
    values: &[u64],
) -> Result<BitParts, AllocError>
    requires drawable { IsDrawable plan.now store.now reached.now memories.now }
    requires paired { (pairs : List (ℕ × ℕ)) × AreStepsBy plan.now store.now reached.now memories.now.kept.items pairs
        nodes.now values.now }
    ensures { IfOk result (IsDrawing plan.now memories.now.kept.items) }
{
    let mut own = Store::new(alloc, store.propositions());
    let nodes = relabelled(alloc, &mut own, store, nodes, values)?;
    let bits = copied_bits(alloc, plan, &mut own, store, reached, memories)?;
    Ok(BitParts {
        store: own,
        nodes,
        bits,
    })
}
