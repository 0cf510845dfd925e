//! A controller is judged by one sentence of a formula after another, and an environment by the whole formula, or by a
//! core.
//!
//! A sentence is first tried without its antecedents. Those join that the circuit violates on a counterexample, a few at
//! a time; if it violates none, the counterexample is one of the whole formula.

ghost use Rattle.std.specs.Prelude.{◌≡◌, ◌<◌, Contains, IfNone, IfOk, IfSome, List, OnOk, length, vec_len};
ghost use Rattle.ps_formula.specs.Formulas.{Formula, formula_at, implies};
ghost use Rattle.ps_formula.specs.declared.node.Node.{Node};
ghost use Rattle.ps_sentences.specs.Sentences.{AreSentencesOf};
ghost use Rattle.ps_sentences.specs.Tables.{AreIn, IsGrownTable, listed_formulas};
ghost use Rattle.ps_simulate.specs.declared.role.Role.TheVariants.{Controller, Environment};
ghost use Rattle.ps_models.specs.Inner.Claims.{HasSentences, IsClaim, IsKept, sentence_at, sentences_of};
ghost use Rattle.ps_models.specs.Inner.Trying.{IsSentenceTrial, IsTrial, IsTrialOf};

use crate::by_core::{environment_verdict, names_none};
use crate::by_groups::known_by_groups;
use crate::claims::longer_claim;
use crate::trial::Trial;
use ps_formula::{Formulas, Node};
use ps_sentences::{Parting, conjunction, parted};
use ps_simulate::Role;
use ps_verify::Judgement;
use std::alloc::AllocError;

/// The verdict by a formula, which is taken apart into sentences. An environment is judged by the whole formula if the
/// core names none of them. Fails if out of memory.
pub(crate) fn verdict_by_sentences(
    trial: Trial,
    formulas: &Formulas,
    root: u32,
    core: &[u32],
) -> Result<Judgement, AllocError>
    requires symbols { IsTrial trial }
    requires root { root < length formulas.now }
    ensures { IfOk result (IsTrialOf trial.entry (formula_at formulas.now root)) }
{
    let mut parting = parted(trial.alloc, formulas, root)?;
    match trial.role {
        Role::Controller => controller_verdict(trial, &mut parting),
        Role::Environment => {
            if names_none(core, parting.sentences.len()) {
                trial.verdict(formulas, root)
            } else {
                environment_verdict(trial, &mut parting, core)
            }
        }
    }
}

/// The verdict on a controller: one sentence after another.
fn controller_verdict(trial: Trial, parting: &mut Parting) -> Result<Judgement, AllocError>
    requires symbols { IsTrial trial }
    requires role { trial.role ≡ Controller }
    requires parting { HasSentences parting.old }
    ensures { (f : Formula) → AreSentencesOf f (sentences_of parting.old) → IfOk result (IsTrialOf trial.entry f) }
{
    let known = known_by_groups(trial, parting)?;
    for place in 0..parting.sentences.len() {
        if known[place] {
            continue;
        }
        let judgement = verdict_at(trial, parting, place)?;
        if let Judgement::Loses(_) = judgement {
            return Ok(judgement);
        }
    }
    Ok(Judgement::Wins)
}

/// The verdict by the sentence at a place.
fn verdict_at(trial: Trial, parting: &mut Parting, place: usize) -> Result<Judgement, AllocError>
    requires symbols { IsTrial trial }
    requires role { trial.role ≡ Controller }
    requires parting { HasSentences parting.old }
    requires place { place < vec_len parting.old.sentences }
    ensures kept { OnOk result (IsKept parting.old parting.new) }
    ensures verdict { IfOk result (IsSentenceTrial trial.entry (sentence_at parting.old place)) }
{
    let sentence = parting.sentences[place];
    let antecedents = parting.lists[sentence.antecedents as usize].as_slice();
    sentence_verdict(trial, &mut parting.table, antecedents, sentence.consequent)
}

/// The verdict by a sentence.
fn sentence_verdict(
    trial: Trial,
    table: &mut Formulas,
    antecedents: &[u32],
    consequent: u32,
) -> Result<Judgement, AllocError>
    requires symbols { IsTrial trial }
    requires role { trial.role ≡ Controller }
    requires antecedents { AreIn table.old antecedents.now }
    requires consequent { consequent < length table.old }
    ensures grows { OnOk result (IsGrownTable table.old table.new) }
    ensures verdict { IfOk result (IsSentenceTrial trial.entry (record {
      antecedents = listed_formulas table.old antecedents.now;
      consequent = formula_at table.old consequent;
    })) }
{
    let assumed = table.add(Node::Constant(true))?;
    let rounds = antecedents.len();
    let attempt = early_verdict(trial, table, antecedents, assumed, consequent, rounds)?;
    let Attempt {
        assumed: _,
        verdict,
    } = attempt;
    if let Some(judgement) = verdict {
        return Ok(judgement);
    }
    let all = conjunction(table, antecedents)?;
    verdict_given(trial, table, all, consequent)
}

/// What some antecedents of a sentence tell.
#[derive(Drop)]
pub(crate) struct Attempt {
    /// Their conjunction.
    pub assumed: u32,
    /// The verdict by the sentence, if they give it.
    pub verdict: Option<Judgement>,
}

/// Tries the antecedents that are assumed, and then more, so many times: those that a counterexample violates join, one
/// at first, and later as many as have joined before.
pub(crate) fn early_verdict(
    trial: Trial,
    table: &mut Formulas,
    antecedents: &[u32],
    mut assumed: u32,
    consequent: u32,
    rounds: usize,
) -> Result<Attempt, AllocError>
    requires symbols { IsTrial trial }
    requires role { trial.role ≡ Controller }
    requires antecedents { AreIn table.old antecedents.now }
    requires assumed { IsClaim table.old antecedents.now table.old assumed }
    requires consequent { consequent < length table.old }
    ensures assumed { IfOk result (λ attempt. IsClaim table.old antecedents.now table.new attempt.assumed) }
    ensures verdict { IfOk result (λ attempt. IfSome attempt.verdict (IsSentenceTrial trial.entry (record {
      antecedents = listed_formulas table.old antecedents.now;
      consequent = formula_at table.old consequent;
    }))) }
{
    let mut most = 1usize;
    let mut joined = 0usize;
    for _round in 0..rounds {
        let judgement = verdict_given(trial, table, assumed, consequent)?;
        let Some(more) = longer_claim(trial, table, antecedents, assumed, &judgement, most)? else {
            return Ok(Attempt {
                assumed,
                verdict: Some(judgement),
            });
        };
        assumed = more;
        joined = joined.saturating_add(most);
        most = joined;
    }
    Ok(Attempt {
        assumed,
        verdict: None,
    })
}

/// The verdict by an implication.
fn verdict_given(
    trial: Trial,
    table: &mut Formulas,
    antecedent: u32,
    consequent: u32,
) -> Result<Judgement, AllocError>
    requires symbols { IsTrial trial }
    requires antecedent { antecedent < length table.old }
    requires consequent { consequent < length table.old }
    ensures grows { OnOk result (IsGrownTable table.old table.new) }
    ensures verdict { IfOk result (IsTrialOf trial.entry
        (implies (formula_at table.old antecedent) (formula_at table.old consequent))) }
{
    let root = table.add(Node::Implies(antecedent, consequent))?;
    trial.verdict(table, root)
}
