//! Conditions that are harder for the winner, and easier to play.
//!
//! A part whose truth can only harm the winner is taken as true: so no circuit leans on an assumption that it does not
//! need, and an environment breaks few guarantees. A part that can only be of use must not fail, though the other
//! player could be at fault later. If nothing else helps, parts that can only be of use are taken as false, so that the
//! other player has to be at fault. A part that can only be of use, and waits for something, forgets what it waits for:
//! `G (r -> F g)` becomes `G F g` (`aims`). All this is kept where the winner still wins. Such parts are tried all at
//! once, then by halves.
//!
//! A part that holds in each play that does well by the other parts, whoever plays how, is left out.
//!
//! What wins so wins by the whole condition: each word that the winner then meets is one of those that it wins.
//! All tries together take their steps from one budget, each a part of what is left; there are at most 400.

use crate::automata::{Automata, Changes, End};
use crate::synthesis::{Player, game_of};
use ps_parts::diagrams::{self, Diagram};
use ps_parts::stop::{Stop, index};
use ps_simulate::Role;
use ps_tlsf::{Side, Specification};
use std::alloc::Global;

/// The most tries.
const TRIES: u32 = 400;

/// How deep lists are halved.
const HALVES: u32 = 10;

/// The least budget of a try.
const FEWEST: u32 = 100_000;

/// The parts of the budget of which a try has one.
const SHARE: u32 = 4;

/// The same of a short try.
const SMALL_SHARE: u32 = 40;

/// What is done to a part.
#[derive(Clone, Copy, PartialEq, Eq)]
enum Change {
    /// It is taken as true.
    Assume,
    /// It must not fail.
    Forbid,
    /// It is taken as false.
    Deny,
    /// It forgets its states.
    Forget,
}

/// Some places of a list.
#[derive(Clone, Copy)]
struct Range {
    start: usize,
    stop: usize,
}

/// The search for a condition.
#[derive(Drop)]
pub(crate) struct Strengthening {
    alloc: Global,
    pub(crate) automata: Automata,
    /// The winner, as far as it is known.
    role: Role,
    /// The steps that are left.
    pub(crate) steps: u32,
    /// Those of them that are not for further tries.
    reserve: u32,
    /// The steps of a try are one of so many parts of those that are left.
    share: u32,
    /// Whether a try passed its budget.
    is_cut: bool,
    /// The tries that are left.
    tries: u32,
    /// The parts that may be changed.
    places: Vec<usize>,
}

impl Strengthening {
    /// The search for a condition on automata.
    pub(crate) fn new(alloc: Global, automata: Automata, steps: u32) -> Self {
        Strengthening {
            alloc,
            automata,
            role: Role::Controller,
            steps,
            reserve: 0,
            share: SHARE,
            is_cut: false,
            tries: TRIES,
            places: Vec::new(alloc),
        }
    }

    /// Finds the winner of a specification, and changes the automata.
    pub(crate) fn run(&mut self, specification: &Specification) -> Result<Role, Stop> {
        self.automata.prepare()?;
        if !self.is_decided(specification)? {
            self.decide(specification)?;
        }
        self.share = SHARE;
        self.reserve = self.steps / 3 * 2;
        self.automata.prepare()?;
        self.list(Change::Assume)?;
        self.change_halves(specification, Change::Assume)?;
        for change in [Change::Forbid, Change::Forget] {
            self.automata.prepare()?;
            self.list(change)?;
            if change == Change::Forget {
                self.find_aims(specification)?;
            }
            self.sort_by_shape()?;
            self.change_shapes(specification, change)?;
        }
        self.leave_out(specification)?;
        self.automata.prepare()?;
        Ok(self.role)
    }

    /// Whether the winner is found by a condition that is easier to play: in short tries, or else in longer ones.
    fn is_decided(&mut self, specification: &Specification) -> Result<bool, Stop> {
        for share in [SMALL_SHARE, SHARE] {
            self.share = share;
            self.is_cut = false;
            if self.wins_by_less(specification)? || self.wins_by_all(specification)? {
                return Ok(true);
            }
            if !self.is_cut {
                break;
            }
        }
        Ok(false)
    }

    /// Whether the controller wins without assumptions, or else without those that are recurrences if nothing fails.
    fn wins_by_less(&mut self, specification: &Specification) -> Result<bool, Stop> {
        self.role = Role::Controller;
        self.automata.prepare()?;
        self.list(Change::Assume)?;
        if self.try_listed(specification, Change::Assume)? {
            return Ok(true);
        }
        self.keep_recurrences();
        if self.places.is_empty() {
            return Ok(false);
        }
        self.set(Change::Assume, self.all_listed(), true);
        if self.wins_by(specification, Role::Controller, Change::Forbid)? {
            return Ok(true);
        }
        self.list_assumed()?;
        self.set(Change::Assume, self.all_listed(), false);
        Ok(false)
    }

    /// Whether a player wins where nothing fails, or the controller by the fault of the environment.
    fn wins_by_all(&mut self, specification: &Specification) -> Result<bool, Stop> {
        for (role, change) in [
            (Role::Controller, Change::Forbid),
            (Role::Controller, Change::Deny),
            (Role::Environment, Change::Forbid),
        ] {
            if self.wins_by(specification, role, change)? {
                return Ok(true);
            }
        }
        Ok(false)
    }

    /// Finds who wins by the whole condition.
    fn decide(&mut self, specification: &Specification) -> Result<(), Stop> {
        self.role = Role::Controller;
        self.share = SHARE;
        if self.forget_all(specification)? {
            if self.try_play_or_cut(specification)? {
                return Ok(());
            }
            self.remember_all();
        }
        if !self.play(specification, self.steps / 2)? {
            self.role = Role::Environment;
        }
        Ok(())
    }

    /// Whether a player wins if all parts are changed that may be.
    fn wins_by(
        &mut self,
        specification: &Specification,
        role: Role,
        change: Change,
    ) -> Result<bool, Stop> {
        self.role = role;
        self.automata.prepare()?;
        self.list(change)?;
        if change == Change::Deny {
            self.keep_like_first()?;
        }
        self.try_listed(specification, change)
    }

    /// Changes the parts that are listed, if there are some and the winner still wins: where states are forgotten, or
    /// else as they are.
    fn try_listed(&mut self, specification: &Specification, change: Change) -> Result<bool, Stop> {
        if self.places.is_empty() {
            return Ok(false);
        }
        self.set(change, self.all_listed(), true);
        if self.forget_all(specification)? {
            if self.try_play_or_cut(specification)? {
                return Ok(true);
            }
            self.remember_all();
        }
        let is_won = self.try_play_or_cut(specification)?;
        if !is_won {
            self.set(change, self.all_listed(), false);
        }
        Ok(is_won)
    }

    /// Lets all parts forget their states that may; gives whether there are some.
    fn forget_all(&mut self, specification: &Specification) -> Result<bool, Stop> {
        self.automata.prepare()?;
        let other = self.others(specification)?;
        let is_harm = self.role == Role::Environment;
        let mut is_any = false;
        for place in 0..self.automata.list.len() {
            if self.automata.is_only(place, is_harm)? {
                is_any |= self.automata.forget(place, other)?;
            }
        }
        Ok(is_any)
    }

    /// Lets no part forget its states.
    fn remember_all(&mut self) {
        for automaton in self.automata.list.iter_mut() {
            automaton.remember();
        }
    }

    /// Whether the player who is to win does, in a try.
    fn try_play_or_cut(&mut self, specification: &Specification) -> Result<bool, Stop> {
        let steps = (self.steps / self.share.max(1)).max(FEWEST);
        match self.play(specification, steps) {
            Err(Stop::Limit) => {
                self.is_cut = true;
                Ok(false)
            }
            other => other,
        }
    }

    /// Leaves out recurrences that the other parts imply.
    fn leave_out(&mut self, specification: &Specification) -> Result<(), Stop> {
        for place in 0..self.automata.list.len() {
            self.automata.prepare()?;
            let is_harm = self.role == Role::Environment;
            if !self.automata.is_only(place, is_harm)? {
                continue;
            }
            let Some(automaton) = self.automata.list.get_mut(place) else {
                break;
            };
            if automaton.is_recurrence() {
                let changes = automaton.changes();
                automaton.change(Changes::NONE);
                let is_assumed = self.is_implied(specification, place)?;
                self.settle(
                    place,
                    Changes {
                        is_assumed,
                        ..changes
                    },
                );
            }
        }
        Ok(())
    }

    /// Changes a part.
    fn settle(&mut self, place: usize, changes: Changes) {
        if let Some(automaton) = self.automata.list.get_mut(place) {
            automaton.change(changes);
        }
    }

    /// Whether a part holds in each play that does well by the other parts.
    fn is_implied(&mut self, specification: &Specification, place: usize) -> Result<bool, Stop> {
        if self.steps <= self.reserve {
            return Ok(false);
        }
        let is_controller = self.role == Role::Controller;
        self.automata.deny(place, is_controller)?;
        let steps = (self.steps / 8).max(FEWEST);
        match self.try_play(specification, Player::Both, steps) {
            Err(Stop::Limit) => Ok(false),
            other => Ok(!other?),
        }
    }

    /// Lists the parts that are taken as true.
    fn list_assumed(&mut self) -> Result<(), Stop> {
        self.places.clear();
        for (place, automaton) in self.automata.list.iter().enumerate() {
            if automaton.changes().is_assumed {
                self.places.push(place)?;
            }
        }
        Ok(())
    }

    /// Lists the parts that may be changed.
    fn list(&mut self, change: Change) -> Result<(), Stop> {
        self.places.clear();
        let is_harm = (change == Change::Assume) == (self.role == Role::Controller);
        for place in 0..self.automata.list.len() {
            let can_be = match self.automata.list.get(place) {
                Some(automaton) => match change {
                    Change::Assume => true,
                    Change::Deny => automaton.can_be_denied(),
                    Change::Forbid => automaton.can_be_forbidden(),
                    Change::Forget => automaton.can_be_forgotten(),
                },
                None => false,
            };
            if can_be && self.automata.is_only(place, is_harm)? {
                self.places.push(place)?;
            }
        }
        Ok(())
    }

    /// Finds aims of the parts that are listed.
    fn find_aims(&mut self, specification: &Specification) -> Result<(), Stop> {
        let other = self.others(specification)?;
        for place in &self.places {
            if let Some(automaton) = self.automata.list.get_mut(*place) {
                automaton.find_aim(&mut self.automata.world, other)?;
            }
        }
        Ok(())
    }

    /// The propositions that the other player sets, in the store of the automata.
    fn others(&mut self, specification: &Specification) -> Result<Diagram, Stop> {
        let side = match self.role {
            Role::Controller => Side::Inputs,
            Role::Environment => Side::Outputs,
        };
        let mut cube = diagrams::TRUE;
        for (place, proposition) in specification.propositions.iter().enumerate() {
            if proposition.side == side {
                let variable = index(place)?;
                let one = self.automata.world.diagrams.variable(variable)?;
                cube = self.automata.world.diagrams.both(cube, one)?;
            }
        }
        Ok(cube)
    }

    /// Lists only those that are recurrences.
    fn keep_recurrences(&mut self) {
        let automata = &self.automata;
        self.places.retain(|place| {
            automata
                .list
                .get(*place)
                .is_some_and(|automaton| automaton.is_recurrence())
        });
    }

    /// Lists only those whose falsehood leaves the same as that of the first.
    fn keep_like_first(&mut self) -> Result<(), Stop> {
        let first = match self.places.first().copied() {
            Some(place) => self.automata.fixed(place, false)?,
            None => return Ok(()),
        };
        let mut kept = 0;
        for listed in 0..self.places.len() {
            let place = self.places.get(listed).copied().unwrap_or(0);
            if self.automata.fixed(place, false)? == first {
                if let Some(entry) = self.places.get_mut(kept) {
                    *entry = place;
                }
                kept = kept.saturating_add(1);
            }
        }
        self.places.truncate(kept);
        Ok(())
    }

    /// All parts that are listed.
    fn all_listed(&self) -> Range {
        Range {
            start: 0,
            stop: self.places.len(),
        }
    }

    /// Sorts the parts that are listed by the forms of their automata.
    fn sort_by_shape(&mut self) -> Result<(), Stop> {
        let mut keys: Vec<(u64, usize)> = Vec::new(self.alloc);
        for place in &self.places {
            if let Some(automaton) = self.automata.list.get_mut(*place) {
                let shape = automaton.shape(&mut self.automata.world)?;
                keys.push((shape, *place))?;
            }
        }
        keys.sort_unstable();
        self.places.clear();
        for (_, place) in &keys {
            self.places.push(*place)?;
        }
        Ok(())
    }

    /// Changes parts as far as the winner wins: all, or else those of each form.
    fn change_shapes(&mut self, specification: &Specification, change: Change) -> Result<(), Stop> {
        if self.try_change(specification, change, self.all_listed())? {
            return Ok(());
        }
        let mut start = 0;
        for place in 0..self.places.len() {
            if !self.is_last_of_shape(place)? {
                continue;
            }
            let stop = place.saturating_add(1);
            self.change_some(HALVES, specification, change, Range { start, stop })?;
            start = stop;
        }
        Ok(())
    }

    /// Whether the next part that is listed has another form.
    fn is_last_of_shape(&mut self, place: usize) -> Result<bool, Stop> {
        let here = self.shape_of(place)?;
        let next = self.shape_of(place.saturating_add(1))?;
        Ok(here != next)
    }

    /// The form of a part that is listed.
    fn shape_of(&mut self, place: usize) -> Result<Option<u64>, Stop> {
        let Some(part) = self.places.get(place).copied() else {
            return Ok(None);
        };
        match self.automata.list.get_mut(part) {
            Some(automaton) => Ok(Some(automaton.shape(&mut self.automata.world)?)),
            None => Ok(None),
        }
    }

    /// Changes both halves of the parts that are listed, as far as the winner wins.
    fn change_halves(&mut self, specification: &Specification, change: Change) -> Result<(), Stop> {
        let middle = self.places.len() / 2;
        let (start, stop) = (0, self.places.len());
        let low = Range {
            start,
            stop: middle,
        };
        let high = Range {
            start: middle,
            stop,
        };
        self.change_some(HALVES, specification, change, low)?;
        self.change_some(HALVES, specification, change, high)
    }

    /// Changes parts as far as the winner wins: all, or else each half likewise.
    fn change_some(
        &mut self,
        depth: u32,
        specification: &Specification,
        change: Change,
        range: Range,
    ) -> Result<(), Stop> {
        let Range { start, stop } = range;
        let count = stop.saturating_sub(start);
        if count == 0
            || depth == 0
            || self.try_change(specification, change, range)?
            || count == 1
        {
            return Ok(());
        }
        let middle = start.saturating_add(count / 2);
        let low = Range {
            start,
            stop: middle,
        };
        let high = Range {
            start: middle,
            stop,
        };
        self.change_some(depth - 1, specification, change, low)?;
        self.change_some(depth - 1, specification, change, high)
    }

    /// Changes parts, if the winner still wins.
    fn try_change(
        &mut self,
        specification: &Specification,
        change: Change,
        range: Range,
    ) -> Result<bool, Stop> {
        if self.steps <= self.reserve {
            return Ok(false);
        }
        self.set(change, range, true);
        let is_won = self.try_play_or_cut(specification)?;
        if !is_won {
            self.set(change, range, false);
        }
        Ok(is_won)
    }

    /// Sets whether parts are changed.
    fn set(&mut self, change: Change, range: Range, value: bool) {
        for listed in range.start..range.stop {
            let Some(place) = self.places.get(listed).copied() else {
                break;
            };
            let forbidden = self.forbidden(value);
            if let Some(automaton) = self.automata.list.get_mut(place) {
                let changes = automaton.changes();
                automaton.change(match change {
                    Change::Assume => Changes {
                        is_assumed: value,
                        ..changes
                    },
                    Change::Forbid => Changes {
                        forbidden,
                        ..changes
                    },
                    Change::Deny => Changes {
                        is_denied: value,
                        ..changes
                    },
                    Change::Forget => Changes {
                        is_forgotten: value,
                        ..changes
                    },
                });
            }
        }
    }

    /// What a failure decides that must not be, or may.
    fn forbidden(&self, must_not: bool) -> End {
        match self.role {
            _ if !must_not => End::Open,
            Role::Controller => End::Lost,
            Role::Environment => End::Won,
        }
    }

    /// Whether the player who is to win does, with a budget.
    fn play(&mut self, specification: &Specification, steps: u32) -> Result<bool, Stop> {
        self.automata.prepare()?;
        self.try_play(specification, Player::from(self.role), steps)
    }

    /// Whether a player wins by the automata as they are, with a budget.
    fn try_play(
        &mut self,
        specification: &Specification,
        player: Player,
        steps: u32,
    ) -> Result<bool, Stop> {
        self.tries = self.tries.checked_sub(1).ok_or(Stop::Limit)?;
        let steps = steps.min(self.steps);
        let mut game = game_of(self.alloc, specification, &mut self.automata, player, steps)?;
        let is_won = game.is_won_from_start();
        let spent = steps.saturating_sub(game.arena.diagrams.steps());
        drop(game);
        self.steps = self.steps.saturating_sub(spent);
        is_won
    }
}
