//! Claims: conjunctions of some goals, which grow while counterexamples violate others.

ghost use Rattle.std.specs.Prelude.{◌≡◌, ◌<◌, [], IfNone, IfOk, IfSome, List, OnOk, length};
ghost use Rattle.ps_formula.specs.declared.node.Node.{Node};
ghost use Rattle.ps_label.specs.Words.{lasso_word};
ghost use Rattle.ps_sentences.specs.Sentences.{AllHold};
ghost use Rattle.ps_sentences.specs.Tables.{AreIn, IsGrownTable, listed_formulas};
ghost use Rattle.ps_models.specs.Inner.Claims.{AreAmong, HasStimulus, HoldOn, IsClaim, NoneHolds};
ghost use Rattle.ps_models.specs.Inner.Trying.{IsTrial};

use crate::trial::Trial;
use ps_formula::Formulas;
use ps_sentences::conjunction;
use ps_simulate::{TraceWord, circuit_has_one_values};
use ps_verify::Judgement;
use std::alloc::{AllocError, Global};

/// A claim that some goals join, at most so many: the first that the circuit violates on the stimulus of a judgement.
/// `None` if it violates none, or if there is no stimulus.
pub(crate) fn longer_claim(
    trial: Trial,
    table: &mut Formulas,
    goals: &[u32],
    claim: u32,
    judgement: &Judgement,
    most: usize,
) -> Result<Option<u32>, AllocError>
    requires symbols { IsTrial trial }
    requires goals { AreIn table.old goals.now }
    requires claim { claim < length table.old }
    requires judgement { HasStimulus trial judgement.now }
    requires some { 0 < most }
    ensures grows { OnOk result (IsGrownTable table.old table.new) }
    ensures longer { IfOk result (λ longer. IfSome longer (λ more. (nodes : List Node) → AreIn nodes goals.now →
        IsClaim nodes goals.now table.old claim → IsClaim nodes goals.now table.new more)) }
    ensures none { IfOk result (λ longer. IfNone longer
        (HoldOn trial.entry judgement.now (listed_formulas table.old goals.now))) }
{
    let mut parts = violated_on(trial, table, goals, judgement, most)?;
    if parts.is_empty() {
        return Ok(None);
    }
    parts.push(claim)?;
    let longer = conjunction(table, &parts)?;
    Ok(Some(longer))
}

/// Some formulas that the circuit violates on the stimulus of a judgement, the first ones; none if it violates none, or
/// if there is no stimulus.
fn violated_on(
    trial: Trial,
    table: &Formulas,
    formulas: &[u32],
    judgement: &Judgement,
    most: usize,
) -> Result<Vec<u32>, AllocError>
    requires symbols { IsTrial trial }
    requires there { AreIn table.now formulas.now }
    requires judgement { HasStimulus trial judgement.now }
    requires some { 0 < most }
    ensures found { IfOk result (λ found. AreAmong formulas.now found.items) }
    ensures none { IfOk result (λ found. found.items ≡ [] →
        HoldOn trial.entry judgement.now (listed_formulas table.now formulas.now)) }
{
    trial.circuit.parts_fit();
    circuit_has_one_values();
    match judgement {
        Judgement::Wins => Ok(Vec::new(trial.alloc)),
        Judgement::Loses(stimulus) => {
            let word = trial.word(stimulus)?;
            first_violated(trial.alloc, table, formulas, &word, most)
        }
    }
}

/// The first of the formulas that the word violates, at most so many. Fails if out of memory.
fn first_violated(
    alloc: Global,
    table: &Formulas,
    formulas: &[u32],
    word: &TraceWord,
    most: usize,
) -> Result<Vec<u32>, AllocError>
    requires there { AreIn table.now formulas.now }
    requires some_letter { 0 < length word.now.lap }
    requires some { 0 < most }
    ensures found { IfOk result (λ found. AreAmong formulas.now found.items) }
    ensures violated { IfOk result (λ found.
        NoneHolds (lasso_word word.now.stem word.now.lap) 0 (listed_formulas table.now found.items)) }
    ensures none { IfOk result (λ found. found.items ≡ [] →
        AllHold (lasso_word word.now.stem word.now.lap) 0 (listed_formulas table.now formulas.now)) }
{
    let mut found = Vec::new(alloc);
    for &formula in formulas {
        if found.len() >= most {
            return Ok(found);
        }
        if table.holds(formula, word.stem(), word.lap())? {
            continue;
        }
        found.push(formula)?;
    }
    Ok(found)
}
