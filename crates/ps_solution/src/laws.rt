//! Laws about texts of solutions.

ghost use Rattle.std.specs.Prelude.{◌≡◌, ℕ, List, Result, Ok};
ghost use Rattle.ps_text.specs.Answers.{Found};
ghost use Rattle.ps_certificate.specs.declared.fault.CertCause.{CertCause};
ghost use Rattle.ps_solution.specs.Entries.{HasEntries};
ghost use Rattle.ps_solution.specs.Reading.{ReadsSolution};
ghost use Rattle.ps_solution.specs.Solved.{SolutionData};

/// A text has at most one answer for a game: the solution, or the first error with its offset.
pub fn one_answer()
    ensures { (ids text : List ℕ) (a b : Result SolutionData (Found CertCause)) →
        ReadsSolution ids text a → ReadsSolution ids text b → a ≡ b }
{}

/// A text has an answer. This is about texts: a call may also run out of memory.
pub fn some_answer()
    ensures { (ids text : List ℕ) → (answer : Result SolutionData (Found CertCause)) ×
        ReadsSolution ids text answer }
{}

/// The entries are exactly the winners and moves of the solution: `n W m;` if player W wins the vertex with the id n,
/// and moves from there to that with the id m; `n W;` if there is no move.
pub fn solution_has_entries()
    ensures { (ids text : List ℕ) (solution : SolutionData) → ReadsSolution ids text (Ok solution) →
        HasEntries ids text solution }
{}
