//! The steps from a state, without classes of letters.

ghost use Rattle.std.specs.Prelude.{◌≡◌, ◌≤◌, ℕ, IfOk};
ghost use Rattle.ps_diagram.specs.Letters.{IsLeastLetter};
ghost use Rattle.ps_diagram.specs.Reached.{LeadsToLeaf};
ghost use Rattle.ps_diagram.specs.Table.{IsNode, Keeps};
ghost use Rattle.ps_brief.specs.Settings.{Fits, board_in};
ghost use Rattle.ps_brief.specs.Targets.{AreTargetsOf, IsTarget};
ghost use Rattle.ps_brief.specs.Inner.Placing.{IsAnswered, IsLeastPair, IsPlaced, MakesStep, letter_pair_place};

use crate::setting::Setting;
use ps_diagram::{Node, Store};
use std::alloc::{AllocError, Global};

/// A key to which a state has a step.
#[derive(Debug, Clone, Copy)]
pub struct Target {
    /// The leaf of the step in the automaton's diagrams.
    pub leaf: u64,
    /// The state to which the step leads.
    pub state: u32,
    /// The priority of its edge.
    pub priority: u64,
    /// A diagram with a leaf at the first player's letters behind which the second player can make the step.
    pub behind: Node,
    /// The place of the least letters that make the step, among all pairs of letters.
    place: u128,
}

/// The targets of a state, in the order of the least letters that lead there.
#[derive(Drop)]
pub struct Targets {
    /// The state.
    pub state: u32,
    /// Its targets.
    pub list: Vec<Target>,
}

/// Finds the targets of a state, or of the sink. Fails if out of memory.
pub fn targets_of(
    alloc: Global,
    setting: &Setting<'_>,
    store: &mut Store,
    state: u32,
) -> Result<Targets, AllocError>
    requires fits { Fits setting.now store.old }
    requires state { state ≤ setting.now.automaton.now.states }
    ensures keeps { Keeps store.old store.new }
    ensures state { IfOk result (λ targets. targets.state ≡ state) }
    ensures targets { IfOk result (AreTargetsOf setting.now store.new) }
{
    let leaves = store.leaves(setting.automaton.node(state))?;
    let mut list = Vec::new(alloc);
    for (leaf, _) in &leaves {
        let target = target_of(setting, store, state, *leaf)?;
        list.push(target)?;
    }
    list.sort_unstable_by_key(|target| target.place);
    Ok(Targets { state, list })
}

/// The target of a leaf of a state's diagram.
fn target_of(
    setting: &Setting<'_>,
    store: &mut Store,
    state: u32,
    leaf: u64,
) -> Result<Target, AllocError>
    requires fits { Fits setting.now store.old }
    requires state { state ≤ setting.now.automaton.now.states }
    requires leaf { (z : ℕ) × MakesStep setting.now state leaf z }
    ensures keeps { Keeps store.old store.new }
    ensures target { IfOk result (IsTarget setting.now store.new state) }
    ensures placed { IfOk result (IsPlaced (board_in setting.now) state) }
    ensures leaf { IfOk result (λ target. target.leaf ≡ leaf) }
{
    let node = setting.automaton.node(state);
    let step = setting.automaton.pair(leaf);
    let making = store.selected(node, leaf)?;
    let behind = store.projected(making, setting.second)?;
    let place = least_place(setting, store, making, behind)?;
    Ok(Target {
        leaf,
        state: step.state,
        priority: step.priority,
        behind,
        place,
    })
}

/// The place of the least letter at which `behind` has the leaf 1, and of the least letter of the second player that,
/// together with it, leads from `making` to the leaf 1.
fn least_place(
    setting: &Setting<'_>,
    store: &mut Store,
    making: Node,
    behind: Node,
) -> Result<u128, AllocError>
    requires fits { Fits setting.now store.old }
    requires making { IsNode store.old making }
    requires behind { IsNode store.old behind }
    requires some { (x : ℕ) × LeadsToLeaf store.old behind 1 x }
    requires answered { (x : ℕ) → IsLeastLetter (LeadsToLeaf store.old behind 1) x →
        IsAnswered (board_in setting.now) store.old making x }
    ensures keeps { Keeps store.old store.new }
    ensures place { IfOk result (IsLeastPair (board_in setting.now) store.old making behind) }
{
    let Some(first) = store.path_to(behind, 1)? else {
        unreachable!();
    };
    let answers = store.behind(making, setting.first, first)?;
    match store.path_to(answers, 1)? {
        Some(second) => Ok(place_of(first, second)),
        None => unreachable!(),
    }
}

/// The place of two letters in the order of pairs, by the first of them and then by the second.
fn place_of(first: u64, second: u64) -> u128
    ensures { result ≡ letter_pair_place first second }
{
    (u128::from(first.reverse_bits()) << 64) + u128::from(second.reverse_bits())
}
