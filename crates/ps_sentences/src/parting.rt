//! A formula as a conjunction of sentences.

ghost use Rattle.std.specs.Prelude.{◌≡◌, ◌++◌, ◌+◌, ◌*◌, ◌<◌, ◌≤◌, ◌∷◌, [], IfNone, IfOk, IfSome, List, OnOk, length};
ghost use Rattle.std.specs.Prelude.{map, vec_len};
ghost use Rattle.ps_formula.specs.Formulas.{formula_at};
ghost use Rattle.ps_sentences.specs.Inner.Owing.{IsUnparted, sentence_with};
ghost use Rattle.ps_sentences.specs.Partings.{IsPartingOf};

use crate::conjuncts::conjuncts;
use crate::copying::copied;
use crate::layers::Layer;
use crate::shapes::Shape;
use crate::splitting::next_shape;
use ps_formula::Formulas;
use std::alloc::{AllocError, Global};

/// The number of steps for each formula of a table, by which the work on one formula is bounded.
const STEPS: usize = 8;

/// Some antecedents imply a consequent.
#[derive(Clone, Copy, Debug)]
pub struct Sentence {
    /// The antecedents, as the index of a list.
    pub antecedents: u32,
    /// The index of the consequent in the table.
    pub consequent: u32,
}

/// A formula as a conjunction of sentences.
#[derive(Debug, Drop)]
pub struct Parting {
    /// The formulas of the given table, at their indices, and perhaps others.
    pub table: Formulas,
    /// Lists of antecedents, which are given by their indices in the table.
    pub lists: Vec<Vec<u32>>,
    /// The sentences.
    pub sentences: Vec<Sentence>,
}

/// The sentences whose conjunction a formula is equivalent to. Each list of antecedents is kept once. Fails if out of
/// memory.
pub fn parted(alloc: Global, formulas: &Formulas, root: u32) -> Result<Parting, AllocError>
    requires { root < length formulas.now }
    ensures { IfOk result (IsPartingOf formulas.now root) }
{
    let mut parting = unparted(alloc, formulas)?;
    parting.add_sentences(alloc, root)?;
    Ok(parting)
}

/// No sentences, and one list, without antecedents.
fn unparted(alloc: Global, formulas: &Formulas) -> Result<Parting, AllocError>
    ensures { IfOk result (IsUnparted formulas.now) }
{
    let mut lists = Vec::new(alloc);
    lists.push(Vec::new(alloc))?;
    let table = copied(alloc, formulas)?;
    Ok(Parting {
        table,
        lists,
        sentences: Vec::new(alloc),
    })
}

/// Adds both consequents with the same antecedents.
fn add_both(
    pending: &mut Vec<Sentence>,
    antecedents: u32,
    first: u32,
    second: u32,
) -> Result<(), AllocError>
    ensures { OnOk result (pending.new.items ≡ pending.old.items
        ++ sentence_with antecedents second ∷ sentence_with antecedents first ∷ []) }
{
    pending.push(Sentence {
        antecedents,
        consequent: second,
    })?;
    pending.push(Sentence {
        antecedents,
        consequent: first,
    })?;
    Ok(())
}

/// Adds a sentence for each consequent, with the same antecedents.
fn add_each(
    sentences: &mut Vec<Sentence>,
    antecedents: u32,
    consequents: &[u32],
) -> Result<(), AllocError>
    ensures { OnOk result
        (sentences.new.items ≡ sentences.old.items ++ map (sentence_with antecedents) consequents.now) }
{
    for consequent in consequents {
        sentences.push(Sentence {
            antecedents,
            consequent: *consequent,
        })?;
    }
    Ok(())
}

/// The index of a new list; `None` if it does not fit.
fn add_list(lists: &mut Vec<Vec<u32>>, list: Vec<u32>) -> Result<Option<u32>, AllocError>
    ensures added { IfOk result (λ added. IfSome added (λ index.
        (index ≡ vec_len lists.old) × (lists.new.items ≡ lists.old.items ++ list ∷ []))) }
    ensures none { IfOk result (λ added. IfNone added (lists.new.items ≡ lists.old.items)) }
{
    let Ok(index) = u32::try_from(lists.len()) else {
        return Ok(None);
    };
    lists.push(list)?;
    Ok(Some(index))
}

fn joined(alloc: Global, first: &[u32], second: &[u32]) -> Result<Vec<u32>, AllocError>
    ensures { IfOk result (λ all. all.items ≡ first.now ++ second.now) }
{
    let mut all = first.to_vec(alloc)?;
    all.extend_from_slice(second)?;
    Ok(all)
}

impl Parting {
    ghost use Rattle.ps_sentences.specs.Inner.Owing.{AddsList, TakesOne};
    ghost use Rattle.ps_sentences.specs.Partings.{IsSentenceOf};

    /// Adds the sentences of a formula.
    fn add_sentences(&mut self, alloc: Global, root: u32) -> Result<(), AllocError>
        requires root { root < length self.old.table }
        requires none { IsUnparted self.old.table self.old }
        ensures { OnOk result (IsPartingOf self.old.table root self.new) }
    {
        let mut steps = STEPS * self.table.len();
        let mut pending = Vec::new(alloc);
        pending.push(Sentence {
            antecedents: 0,
            consequent: root,
        })?;
        while let Some(sentence) = pending.pop() {
            self.take_apart(alloc, &mut pending, sentence, &mut steps)?;
        }
        Ok(())
    }

    /// Adds a sentence, its consequent taken apart; or else those to the pending ones whose conjunction it is.
    fn take_apart(
        &mut self,
        alloc: Global,
        pending: &mut Vec<Sentence>,
        sentence: Sentence,
        steps: &mut usize,
    ) -> Result<(), AllocError>
        requires { IsSentenceOf self.old sentence }
        ensures apart { OnOk result (TakesOne self.old (pending.old.items ++ sentence ∷ []) self.new pending.new.items) }
        ensures steps { OnOk result
            (2 * steps.new + length pending.new.items ≤ 2 * steps.old + length pending.old.items) }
    {
        let antecedents = sentence.antecedents;
        match next_shape(&mut self.table, sentence.consequent, steps)? {
            Shape::True => Ok(()),
            Shape::Both(f, g) => add_both(pending, antecedents, f, g),
            Shape::Within(Layer::Given(f), g) => match self.list_with(
                alloc,
                antecedents,
                f,
                steps,
            )? {
                Some(list) => {
                    pending.push(Sentence {
                        antecedents: list,
                        consequent: g,
                    })?;
                    Ok(())
                }
                None => self.conclude(alloc, sentence, steps),
            },
            Shape::Within(_, _) | Shape::Whole => self.conclude(alloc, sentence, steps),
        }
    }

    /// Adds a sentence for each conjunct of the consequent.
    fn conclude(
        &mut self,
        alloc: Global,
        sentence: Sentence,
        steps: &mut usize,
    ) -> Result<(), AllocError>
        requires { IsSentenceOf self.old sentence }
        ensures apart { OnOk result ((pending : List Sentence) →
            TakesOne self.old (pending ++ sentence ∷ []) self.new pending) }
        ensures steps { OnOk result (steps.new ≤ steps.old) }
    {
        let parts = conjuncts(alloc, &mut self.table, sentence.consequent, steps)?;
        add_each(&mut self.sentences, sentence.antecedents, &parts)
    }

    /// The index of a new list, of those of a list and the conjuncts of a formula; `None` if too few steps are left.
    fn list_with(
        &mut self,
        alloc: Global,
        list: u32,
        formula: u32,
        steps: &mut usize,
    ) -> Result<Option<u32>, AllocError>
        requires list { list < vec_len self.old.lists }
        requires formula { formula < length self.old.table }
        ensures list { IfOk result (AddsList self.old list formula self.new) }
        ensures steps { OnOk result (steps.new ≤ steps.old) }
    {
        let parts = conjuncts(alloc, &mut self.table, formula, steps)?;
        let known = self.lists[list as usize].as_slice();
        if parts.len() > *steps || known.len() > *steps - parts.len() {
            return Ok(None);
        }
        *steps -= parts.len() + known.len();
        let longer = joined(alloc, known, &parts)?;
        add_list(&mut self.lists, longer)
    }
}
