//! An environment is judged by a core: some sentences that together none of its lasso traces may satisfy.
//!
//! If some trace satisfies the core, sentences that it violates join; if it violates none, its stimulus is a
//! counterexample of the whole formula.

ghost use Rattle.std.specs.Prelude.{◌≡◌, ◌≤◌, ◌<◌, ◌↔◌, All, IfOk, IsTrue, length, slice_get};
ghost use Rattle.std.specs.List.{filter_map};
ghost use Rattle.ps_formula.specs.Formulas.{Formula};
ghost use Rattle.ps_sentences.specs.Sentences.{AreSentencesOf, IsConjunction};
ghost use Rattle.ps_sentences.specs.Tables.{AreIn, listed_formulas};
ghost use Rattle.ps_simulate.specs.declared.role.Role.TheVariants.{Environment};
ghost use Rattle.ps_models.specs.Inner.Claims.{AreAmong, HasSentences, sentences_of};
ghost use Rattle.ps_models.specs.Inner.Trying.{IsTrial, IsTrialOf};

use crate::claims::longer_claim;
use crate::trial::Trial;
use ps_formula::Formulas;
use ps_sentences::{Parting, conjunction, implications};
use ps_verify::Judgement;
use std::alloc::{AllocError, Global};

/// Whether a core names none of so many sentences.
pub(crate) fn names_none(core: &[u32], count: usize) -> bool
    ensures { IsTrue result ↔ All (λ place. count ≤ place) core.now }
{
    core.iter().all(|place| count <= *place as usize)
}

/// The verdict on an environment, first by the sentences that the core names.
pub(crate) fn environment_verdict(
    trial: Trial,
    parting: &mut Parting,
    core: &[u32],
) -> Result<Judgement, AllocError>
    requires symbols { IsTrial trial }
    requires role { trial.role ≡ Environment }
    requires parting { HasSentences parting.old }
    ensures { (f : Formula) → AreSentencesOf f (sentences_of parting.old) → IfOk result (IsTrialOf trial.entry f) }
{
    let table = &mut parting.table;
    let goals = implications(trial.alloc, table, &parting.lists, &parting.sentences)?;
    let named = named_in(trial.alloc, &goals, core)?;
    goals_verdict(trial, table, &goals, &named)
}

/// The goals that a core names.
fn named_in(alloc: Global, goals: &[u32], core: &[u32]) -> Result<Vec<u32>, AllocError>
    ensures { IfOk result (λ named. named.items ≡ filter_map (slice_get goals.now) core.now) }
{
    core.iter()
        .filter_map(|place| goal_at(goals, *place))
        .collect(alloc)
}

fn goal_at(goals: &[u32], place: u32) -> Option<u32>
    ensures { result ≡ slice_get goals.now place }
{
    goals.get(place as usize).copied()
}

/// The verdict by the conjunction of goals, first by those that are named.
fn goals_verdict(
    trial: Trial,
    table: &mut Formulas,
    goals: &[u32],
    named: &[u32],
) -> Result<Judgement, AllocError>
    requires symbols { IsTrial trial }
    requires role { trial.role ≡ Environment }
    requires goals { AreIn table.old goals.now }
    requires named { AreAmong goals.now named.now }
    ensures { (f : Formula) → IsConjunction f (listed_formulas table.old goals.now) →
        IfOk result (IsTrialOf trial.entry f) }
{
    let mut claim = conjunction(table, named)?;
    let mut most = 1usize;
    let mut joined = 0usize;
    for _round in 0..goals.len() {
        let judgement = trial.verdict(table, claim)?;
        let Some(more) = longer_claim(trial, table, goals, claim, &judgement, most)? else {
            return Ok(judgement);
        };
        claim = more;
        joined = joined.saturating_add(most);
        most = joined;
    }
    let all = conjunction(table, goals)?;
    trial.verdict(table, all)
}
