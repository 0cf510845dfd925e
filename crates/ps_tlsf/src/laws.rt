//! Laws about specifications.

ghost use Rattle.std.specs.Prelude.{◌≡◌, ◌≢◌, ℕ, ◌+◌, ◌≤◌, AllPairs, List, ◌∷◌, ◌++◌, Result, Ok, Err, length};
ghost use Rattle.std.specs.Prelude.{true, false};
ghost use Rattle.std.specs.List.{AllByRecursion};
ghost use Rattle.ps_text.specs.Answers.{Found};
ghost use Rattle.ps_formula.specs.Formulas.{Formula};
ghost use Rattle.ps_tlsf.specs.Derivations.{IsDerivedFrom, ReadsFormula, closes};
ghost use Rattle.ps_tlsf.specs.Grammar.{Derives, formula, nesting, used_by};
ghost use Rattle.ps_tlsf.specs.Lexicon.{Token, lex};
ghost use Rattle.ps_tlsf.specs.Machines.{nesting_limit, use_limit};
ghost use Rattle.ps_tlsf.specs.Meanings.{whole_of};
ghost use Rattle.ps_tlsf.specs.Names.{Name, names_in};
ghost use Rattle.ps_tlsf.specs.Outline.{Matches, is_in_formula, signs_of, specification};
ghost use Rattle.ps_tlsf.specs.Reading.{answer_of, is_end};
ghost use Rattle.ps_tlsf.specs.Specifications.{Specification};
ghost use Rattle.ps_tlsf.specs.Steps.{State, fresh, run, step};
ghost use Rattle.ps_tlsf.specs.declared.fault.TlsfCause.{TlsfCause};
ghost use Rattle.ps_tlsf.specs.declared.fault.TlsfCause.TheVariants as causes;
ghost use Rattle.ps_tlsf.specs.declared.phases.Phase.TheVariants as phases;
ghost use Rattle.ps_tlsf.specs.declared.words.Section.{Section};

/// A text has at most one answer.
pub fn one_answer()
    ensures { (text : List ℕ) (a b : Result Specification (Found TlsfCause)) → a ≡ answer_of text → b ≡ answer_of text →
        a ≡ b }
{}

/// Each text has an answer: its specification, or its first error.
pub fn some_answer()
    ensures { (text : List ℕ) → (answer : Result Specification (Found TlsfCause)) × (answer ≡ answer_of text) }
{}

/// The formula of a specification is made from those of its sections as TLSF defines it.
pub fn whole_is_of_sections()
    ensures { (text : List ℕ) (s : Specification) → answer_of text ≡ Ok s → s.whole ≡ whole_of s.is_strict s.formulas }
{}

/// The tokens of a text are in the order of the grammar around formulas.
pub fn texts_have_the_outline()
    ensures { (text : List ℕ) (s : Specification) → answer_of text ≡ Ok s →
        Matches specification (signs_of (lex 0 text)) }
{}

/// Outside formulas, a token is refused as a syntax error only where no text of the grammar goes on with it; a text
/// ends too early only where no such text ends.
pub fn refused_texts_lack_the_outline()
    ensures refused { (before rest : List Token) (t : Token) (s : State) → run fresh before ≡ Ok s →
        is_in_formula s.phase ≡ false → step s t ≡ Err causes.Syntax →
        Matches specification (signs_of (before ++ t ∷ rest)) → ⊥ }
    ensures unfinished { (text : List Token) (s : State) → run fresh text ≡ Ok s →
        Matches specification (signs_of text) → is_end s.phase ≡ true }
{}

/// The grammar derives each formula from the tokens of its span.
pub fn formulas_are_derived()
    ensures { (text : List ℕ) (s : Specification) → answer_of text ≡ Ok s →
        AllByRecursion (IsDerivedFrom (lex 0 text) s.names) s.formulas }
{}

/// Where a formula may begin, tokens that the grammar derives are read as their formula, up to `;` or `}`, unless there
/// are too many operators and operands, or they are nested too deep.
pub fn derived_formulas_are_read()
    ensures { (before ts : List Token) (s : State) (section : Section) (f : Formula) (d : Derives s.names formula ts f)
        (end : Token) → run fresh before ≡ Ok s → s.phase ≡ phases.Formulas section → nesting d ≤ nesting_limit →
        s.work.used + used_by ts ≤ use_limit → closes end.sign ≡ true → ReadsFormula s section ts f end }
{}

/// The grammar is unambiguous: tokens have at most one formula.
pub fn one_formula()
    ensures { (names : List Name) (ts : List Token) (f g : Formula) → Derives names formula ts f →
        Derives names formula ts g → f ≡ g }
{}

/// No two propositions of a specification have the same name, and there are at most 64.
pub fn names_differ()
    ensures distinct { (text : List ℕ) (s : Specification) → answer_of text ≡ Ok s →
        AllPairs ◌≢◌ (names_in s.names) }
    ensures few { (text : List ℕ) (s : Specification) → answer_of text ≡ Ok s → length s.names ≤ 64 }
{}
