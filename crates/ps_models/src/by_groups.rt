//! Sentences that few antecedents show to be obeyed are found by groups: their consequents are judged together.

ghost use Rattle.std.specs.Prelude.{◌≡◌, ◌<◌, ◌⊎◌, ℕ, Contains, IfOk, IfSome, IsTrue, OnOk, Some, length, slice_get};
ghost use Rattle.std.specs.Prelude.{true};
ghost use Rattle.ps_simulate.specs.declared.role.Role.TheVariants.{Controller};
ghost use Rattle.ps_formula.specs.Formulas.{formula_at};
ghost use Rattle.ps_sentences.specs.Tables.{AreIn, IsGrownTable, listed_formulas};
ghost use Rattle.ps_verify.specs.declared.judgement.Judgement.TheVariants.{Wins};
ghost use Rattle.ps_models.specs.Inner.Claims.{HasSentences, IsClaim, IsKept, sentence_at};
ghost use Rattle.ps_models.specs.Inner.Grouping.{AreKnown, IsGroupOf, IsUnder, consequent_at, consequents_at};
ghost use Rattle.ps_models.specs.Inner.Trying.{IsObeyedByAll, IsTrial};

use crate::by_sentences::early_verdict;
use crate::grouping::groups_of;
use crate::trial::Trial;
use ps_formula::{Formulas, Node};
use ps_sentences::{Parting, Sentence, merged};
use ps_verify::Judgement;
use std::alloc::{AllocError, Global};

/// How many products are made for a group, and for its last sentence.
const ROUNDS: usize = 4;

/// Sentences with the same antecedents, by their places, that are worth judging together.
#[derive(Drop)]
pub(crate) struct Group {
    /// The antecedents, as the index of a list.
    pub list: u32,
    pub places: Vec<u32>,
}

/// For each sentence, whether it is known to be obeyed on all words of the circuit's lasso traces.
pub(crate) fn known_by_groups(trial: Trial, parting: &mut Parting) -> Result<Vec<bool>, AllocError>
    requires symbols { IsTrial trial }
    requires role { trial.role ≡ Controller }
    requires parting { HasSentences parting.old }
    ensures kept { OnOk result (IsKept parting.old parting.new) }
    ensures known { IfOk result (λ known. AreKnown trial.entry parting.new known.items) }
{
    let groups = groups_of(trial, parting)?;
    let mut known = vec![in trial.alloc; false; parting.sentences.len()]?;
    for group in &groups {
        try_group(trial, parting, group, &mut known)?;
    }
    Ok(known)
}

/// Judges a group of sentences with the same antecedents. If they are obeyed, they become known.
fn try_group(
    trial: Trial,
    parting: &mut Parting,
    group: &Group,
    known: &mut [bool],
) -> Result<(), AllocError>
    requires symbols { IsTrial trial }
    requires role { trial.role ≡ Controller }
    requires parting { HasSentences parting.old }
    requires known { AreKnown trial parting.old known.old }
    ensures kept { OnOk result (IsKept parting.old parting.new) }
    ensures known { OnOk result (AreKnown trial.entry parting.new known.new) }
{
    if !are_under(&parting.sentences, group) {
        return Ok(());
    }
    if judged_together(trial, parting, group)? {
        mark(known, &group.places);
    }
    Ok(())
}

/// Whether a group has places, each of which is that of a sentence with its antecedents.
fn are_under(sentences: &[Sentence], group: &Group) -> bool
    ensures { IsTrue result → IsGroupOf sentences.now group.now }
{
    for place in &group.places {
        if !is_under(sentences, group.list, *place) {
            return false;
        }
    }
    !group.places.is_empty()
}

fn is_under(sentences: &[Sentence], list: u32, place: u32) -> bool
    ensures { IsTrue result → IsUnder sentences.now list place }
{
    match sentences.get(place as usize) {
        Some(sentence) => sentence.antecedents == list,
        None => false,
    }
}

/// Whether few antecedents show that the sentences of a group are obeyed: their consequents are judged together.
fn judged_together(trial: Trial, parting: &mut Parting, group: &Group) -> Result<bool, AllocError>
    requires symbols { IsTrial trial }
    requires role { trial.role ≡ Controller }
    requires parting { HasSentences parting.old }
    requires group { IsGroupOf parting.old.sentences.items group.now }
    ensures kept { OnOk result (IsKept parting.old parting.new) }
    ensures obeyed { IfOk result (λ obeyed. IsTrue obeyed → (k : ℕ) → Contains group.now.places.items k →
        IsObeyedByAll trial.entry (sentence_at parting.old k)) }
{
    let consequents = consequents_at(trial.alloc, &parting.sentences, &group.places)?;
    let antecedents = parting.lists[group.list as usize].as_slice();
    all_obeyed(trial, &mut parting.table, antecedents, &consequents)
}

/// Whether few antecedents show that the circuit obeys them all: first those that the last consequent needs.
fn all_obeyed(
    trial: Trial,
    table: &mut Formulas,
    antecedents: &[u32],
    consequents: &[u32],
) -> Result<bool, AllocError>
    requires symbols { IsTrial trial }
    requires role { trial.role ≡ Controller }
    requires antecedents { AreIn table.old antecedents.now }
    requires consequents { AreIn table.old consequents.now }
    ensures grows { OnOk result (IsGrownTable table.old table.new) }
    ensures obeyed { IfOk result (λ obeyed. IsTrue obeyed → (consequent : ℕ) → Contains consequents.now consequent →
        IsObeyedByAll trial.entry (record {
          antecedents = listed_formulas table.old antecedents.now;
          consequent = formula_at table.old consequent;
        })) }
{
    let Some(assumed) = needed_by_last(trial, table, antecedents, consequents)? else {
        return Ok(false);
    };
    let all = merged(table, consequents)?;
    let attempt = early_verdict(trial, table, antecedents, assumed, all, ROUNDS)?;
    Ok(is_won(&attempt.verdict))
}

/// The conjunction of the antecedents by which the circuit obeys the last consequent; `None` if they are not few.
fn needed_by_last(
    trial: Trial,
    table: &mut Formulas,
    antecedents: &[u32],
    consequents: &[u32],
) -> Result<Option<u32>, AllocError>
    requires symbols { IsTrial trial }
    requires role { trial.role ≡ Controller }
    requires antecedents { AreIn table.old antecedents.now }
    requires consequents { AreIn table.old consequents.now }
    ensures grows { OnOk result (IsGrownTable table.old table.new) }
    ensures assumed { IfOk result (λ found. IfSome found (IsClaim table.old antecedents.now table.new)) }
{
    let Some(last) = consequents.last() else {
        return Ok(None);
    };
    let none = table.add(Node::Constant(true))?;
    let attempt = early_verdict(trial, table, antecedents, none, *last, ROUNDS)?;
    if is_won(&attempt.verdict) {
        Ok(Some(attempt.assumed))
    } else {
        Ok(None)
    }
}

fn is_won(verdict: &Option<Judgement>) -> bool
    ensures { IsTrue result → verdict.now ≡ Some Wins }
{
    match verdict {
        Some(Judgement::Wins) => true,
        _ => false,
    }
}

/// The consequents of the sentences at these places.
fn consequents_at(
    alloc: Global,
    sentences: &[Sentence],
    places: &[u32],
) -> Result<Vec<u32>, AllocError>
    ensures { IfOk result (λ consequents. consequents.items ≡ consequents_at sentences.now places.now) }
{
    places
        .iter()
        .filter_map(|place| consequent_at(sentences, *place))
        .collect(alloc)
}

fn consequent_at(sentences: &[Sentence], place: u32) -> Option<u32>
    ensures { result ≡ consequent_at sentences.now place }
{
    match sentences.get(place as usize) {
        Some(sentence) => Some(sentence.consequent),
        None => None,
    }
}

/// Makes the flags at these places true.
fn mark(flags: &mut [bool], places: &[u32])
    ensures { (k : ℕ) → slice_get flags.new k ≡ Some true →
        (slice_get flags.old k ≡ Some true) ⊎ Contains places.now k }
{
    for &place in places {
        let place = place as usize;
        if place < flags.len() {
            flags[place] = true;
        }
    }
}
