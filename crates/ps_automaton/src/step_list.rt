//! Different steps, numbered in the order in which they were added.

ghost use Rattle.std.specs.Prelude.{◌≡◌, ◌<◌, ℕ, List, [], IfNone, IfOk, IfSome, OnOk, length, slice_get, slice_index};
ghost use Rattle.ps_automaton.specs.Inner.Places.{AreDistinct, IsPlaced};
ghost use Rattle.ps_automaton.specs.Inner.StepTables.{ArePrevious, IsCount, IsStepTable};
ghost use Rattle.ps_automaton.specs.declared.step.Step.{Step};

use crate::step::Step;
use std::alloc::{AllocError, Global};
use std::marker::Model;

/// Different steps. Those that lead to one state are chained, from the last to the first. A chain has at most 65, as
/// many as an edge may have priorities, so a search is short.
#[derive(Drop)]
pub(crate) struct StepList {
    list: Vec<Step>,
    /// For each state, the number of steps up to the last one that leads to it, or 0. States after the end have no
    /// steps.
    last: Vec<usize>,
    /// For each step, the number of steps up to the previous one that leads to the same state, or 0.
    previous: Vec<usize>,
}

impl Model for StepList {
    ghost Value = { List Step };

    ghost view = { λ s. s.list.items };

    ghost invariant = { λ s. IsStepTable s.list.items s.last.items s.previous.items };
}

impl StepList {
    pub(crate) fn new(alloc: Global) -> Self
        ensures { result ≡ [] }
    {
        StepList {
            list: Vec::new(alloc),
            last: Vec::new(alloc),
            previous: Vec::new(alloc),
        }
    }

    /// The index of a step, which is appended if it is new.
    pub(crate) fn place_of(&mut self, step: Step) -> Result<usize, AllocError>
        ensures { IfOk result (IsPlaced self.old self.new step) }
    {
        let count = count_at(&self.last, step.state);
        if let Some(place) = place_among(&self.list, &self.previous, count, step) {
            return Ok(place);
        }
        let place = self.list.len();
        self.list.reserve(1)?;
        self.previous.reserve(1)?;
        cover(&mut self.last, step.state)?;
        self.list.push(step).unwrap();
        self.previous.push(count).unwrap();
        self.last[step.state as usize] = place + 1;
        Ok(place)
    }

    /// The steps, in the order in which they were added.
    pub(crate) fn into_list(self) -> Vec<Step>
        ensures list { result.items ≡ self }
        ensures distinct { AreDistinct self }
    {
        let StepList { list, .. } = self;
        list
    }
}

#[inline]
fn count_at(last: &[usize], state: u32) -> usize
    ensures { result ≡ slice_index last.now state }
{
    match last.get(state as usize) {
        Some(count) => *count,
        None => 0,
    }
}

/// Appends zeros until the list has an entry for the state.
fn cover(last: &mut Vec<usize>, state: u32) -> Result<(), AllocError>
    ensures within { OnOk result (state < length last.new.items) }
    ensures same { (k : ℕ) → slice_index last.new.items k ≡ slice_index last.old.items k }
{
    if (state as usize) < last.len() {
        return Ok(());
    }
    last.resize(state as usize + 1, 0)
}

/// The index of a step among the first `count`, of which the last leads to the same state, as no later step does.
fn place_among(list: &[Step], previous: &[usize], count: usize, step: Step) -> Option<usize>
    requires previous { ArePrevious list.now previous.now }
    requires count { IsCount list.now step.state (length list.now) count }
    ensures found { IfSome result (λ place. slice_get list.now place ≡ Some step) }
    ensures none { IfNone result ((place : ℕ) → slice_get list.now place ≡ Some step → ⊥) }
{
    let mut count = count;
    while count > 0 {
        let place = count - 1;
        if list[place] == step {
            return Some(place);
        }
        count = previous[place];
    }
    None
}
