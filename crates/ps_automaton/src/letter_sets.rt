//! The letters at which labels are true, as lists of bit masks: bit k of the mask with the index w is 1 if the letter
//! 64 * w + k is in the set.

ghost use Rattle.std.specs.Prelude.{◌≡◌, ℕ, ◌+◌, ◌*◌, ◌^◌, ◌<◌, ◌≤◌, Bool, IfOk, IfSome, List, length};
ghost use Rattle.ps_label.specs.Expression.{AreOver, AreOverFrom, IsOver, expression, literal_expression};
ghost use Rattle.ps_label.specs.Expression.{literal_expressions, operands_in};
ghost use Rattle.ps_label.specs.Truth.{all_true, expressions, is_in, truth};
ghost use Rattle.ps_hoa.specs.Sound.{IsLabelOf};
ghost use Rattle.ps_automaton.specs.Inner.LetterSets.{AreAliasSets, AreLetterSets, ArePropositionSets, AreWordSets};
ghost use Rattle.ps_automaton.specs.Inner.LetterSets.{IsSetOf, membership};

use crate::numbers::is_in;
use ps_hoa::HoaFile;
use ps_label::{Label, Labels, Literal};
use std::alloc::{AllocError, Global};

/// The most propositions for which sets of letters are used.
const MOST: usize = 10;

/// The masks of one block of 64 letters.
#[derive(Drop)]
pub(crate) struct WordSets {
    /// A mask for each proposition.
    pub propositions: Vec<u64>,
    /// A mask for each alias.
    pub aliases: Vec<u64>,
}

/// The sets of letters at which propositions and aliases are true.
#[derive(Drop)]
pub(crate) struct LetterSets {
    /// One for each block of 64 letters, in order.
    pub words: Vec<WordSets>,
}

impl LetterSets {
    /// The sets of a file's propositions and aliases, or None beyond 10 propositions. The contract allows None for
    /// every file (see `edges_by_letter`).
    pub(crate) fn of(alloc: Global, file: &HoaFile) -> Result<Option<LetterSets>, AllocError>
        ensures { IfOk result (λ made. IfSome made (AreLetterSets file.now)) }
    {
        let count = file.names().len();
        if count > MOST {
            return Ok(None);
        }
        let mut words = Vec::new(alloc);
        for word in 0..words_for(count) {
            words.push(WordSets::of(alloc, file, 64 * word)?)?;
        }
        Ok(Some(LetterSets { words }))
    }

    /// The set of letters at which a label is true.
    pub(crate) fn of_label(
        &self,
        alloc: Global,
        file: &HoaFile,
        label: &Label,
    ) -> Result<Vec<u64>, AllocError>
        requires sets { AreLetterSets file.now self.now }
        requires within { IsLabelOf file.now (expression label.now) }
        ensures { IfOk result (λ set. IsSetOf file.now (expression label.now) set.items) }
    {
        let mut set = Vec::with_capacity(alloc, self.words.len())?;
        for word in &self.words {
            set.push(set_of(&word.propositions, &word.aliases, label))?;
        }
        Ok(set)
    }
}

impl WordSets {
    /// The masks of the 64 letters from `first` on.
    fn of(alloc: Global, file: &HoaFile, first: u64) -> Result<WordSets, AllocError>
        requires letters { first < 2 ^ 32 }
        requires few { length file.now.names ≤ 10 }
        ensures { IfOk result (AreWordSets file.now first) }
    {
        let propositions = sets_of_propositions(alloc, file.names().len(), first)?;
        let aliases = sets_of_aliases(alloc, &propositions, file.aliases())?;
        Ok(WordSets {
            propositions,
            aliases,
        })
    }
}

/// The number of masks for all letters.
fn words_for(propositions: usize) -> u64
    requires few { propositions ≤ 10 }
    ensures enough { 2 ^ propositions ≤ 64 * result }
    ensures few { result ≤ 16 }
{
    if propositions <= 6 {
        1
    } else {
        1 << (propositions - 6)
    }
}

fn sets_of_propositions(alloc: Global, count: usize, first: u64) -> Result<Vec<u64>, AllocError>
    requires letters { first < 2 ^ 32 }
    requires few { count ≤ 10 }
    ensures one_each { IfOk result (λ sets. length sets.items ≡ count) }
    ensures sets { IfOk result (λ sets. ArePropositionSets first sets.items) }
{
    let mut sets = Vec::new(alloc);
    for proposition in 0..count {
        sets.push(set_of_proposition(proposition, first))?;
    }
    Ok(sets)
}

/// The mask of a proposition for the 64 letters from `first` on.
fn set_of_proposition(proposition: usize, first: u64) -> u64
    requires letters { first < 2 ^ 32 }
    requires few { proposition < 64 }
    ensures { (letter : ℕ) → letter < 64 → is_in letter result ≡ is_in proposition (first + letter) }
{
    let mut set: u64 = 0;
    for letter in 0..64u64 {
        if is_in(proposition, first + letter) {
            set |= 1 << letter;
        }
    }
    set
}

fn sets_of_aliases(
    alloc: Global,
    propositions: &[u64],
    labels: &Labels,
) -> Result<Vec<u64>, AllocError>
    requires within { AreOverFrom 0 (length propositions.now) (expressions labels.now) }
    ensures one_each { IfOk result (λ sets. length sets.items ≡ length (expressions labels.now)) }
    ensures sets { IfOk result (λ sets. (first : ℕ) → ArePropositionSets first propositions.now →
        AreAliasSets first (expressions labels.now) sets.items) }
{
    let mut sets = Vec::new(alloc);
    for alias in labels.as_slice() {
        let set = set_of(propositions, &sets, alias);
        sets.push(set)?;
    }
    Ok(sets)
}

/// The mask of a label, given those of propositions and aliases.
fn set_of(propositions: &[u64], aliases: &[u64], label: &Label) -> u64
    requires { IsOver (length aliases.now) (length propositions.now) (expression label.now) }
    ensures { (first letter : ℕ) → ArePropositionSets first propositions.now → letter < 64 →
        is_in letter result ≡ truth (membership letter aliases.now) (first + letter) (expression label.now) }
{
    match label {
        Label::Truth(value) => { if *value { u64::MAX } else { 0 } }
        Label::Atom(proposition) => propositions[*proposition as usize],
        Label::Negated(proposition) => !propositions[*proposition as usize],
        Label::Named(alias) => aliases[*alias],
        Label::Literals(literals) => set_of_literals(propositions, literals.as_slice()),
        Label::Neg(operand) => !set_of(propositions, aliases, operand),
        Label::Both(operands) => {
            let mut set = u64::MAX;
            for operand in operands {
                set &= set_of(propositions, aliases, operand);
            }
            set
        }
        Label::Either(operands) => {
            let mut set = 0;
            for operand in operands {
                set |= set_of(propositions, aliases, operand);
            }
            set
        }
    }
}

fn set_of_literals(propositions: &[u64], literals: &[Literal]) -> u64
    requires { (aliases : ℕ) ×
        AreOver aliases (length propositions.now) (operands_in (literal_expressions literals.now)) }
    ensures { (first letter : ℕ) → ArePropositionSets first propositions.now → letter < 64 → (known : List Bool) →
        is_in letter result ≡ all_true known (first + letter) (operands_in (literal_expressions literals.now)) }
{
    let mut set = u64::MAX;
    for literal in literals {
        set &= set_of_literal(propositions, *literal);
    }
    set
}

fn set_of_literal(propositions: &[u64], literal: Literal) -> u64
    requires { (aliases : ℕ) × IsOver aliases (length propositions.now) (literal_expression literal) }
    ensures { (first letter : ℕ) → ArePropositionSets first propositions.now → letter < 64 → (known : List Bool) →
        is_in letter result ≡ truth known (first + letter) (literal_expression literal) }
{
    let set = propositions[literal.proposition() as usize];
    if literal.is_negated() { !set } else { set }
}
