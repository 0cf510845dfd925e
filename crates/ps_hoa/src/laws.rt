//! Laws: an HOA text has exactly one answer, and every parsed file is sound.

ghost use Rattle.std.specs.Prelude.{◌≡◌, ℕ, List, Result, Ok, Some, length, slice_get};
ghost use Rattle.ps_label.specs.Expression.{Expression, IsOver, AreOrdered};
ghost use Rattle.ps_text.specs.Answers.{Found};
ghost use Rattle.ps_hoa.specs.Edges.{row_of};
ghost use Rattle.ps_hoa.specs.Files.{EdgeData, FileData, RowData, stated};
ghost use Rattle.ps_hoa.specs.Sound.{IsSoundFile, IsSoundEdge, IsSoundRow};
ghost use Rattle.ps_hoa.specs.Texts.{ReadsFile};
ghost use Rattle.ps_hoa.specs.declared.fault.HoaCause.{HoaCause};

/// An HOA text has at most one answer: its meaning, or its first error with its offset.
pub fn one_answer()
    ensures { (text : List ℕ) (a b : Result FileData (Found HoaCause)) → ReadsFile text a → ReadsFile text b → a ≡ b }
{}

/// Every HOA text has an answer. This is about texts, not calls, which may also be out of memory.
pub fn some_answer()
    ensures { (text : List ℕ) → (answer : Result FileData (Found HoaCause)) × ReadsFile text answer }
{}

/// In a parsed file, every number refers to a state, a proposition, a set or an earlier alias; no two propositions have
/// the same name, and no state two rows. The edges of a state are labelled by the state's label, by labels of their
/// own, or implicitly, with one edge for each letter.
pub fn sound_files()
    ensures { (text : List ℕ) (file : FileData) → ReadsFile text (Ok file) → IsSoundFile file }
{}

/// In a sound file (`IsSoundFile`), each row is sound (`IsSoundRow`), and what `row_of` gives is a row of the requested
/// state. Each edge of a sound row is sound (`IsSoundEdge`).
pub fn sound_parts()
    ensures row { (file : FileData) → IsSoundFile file → (k : ℕ) (row : RowData) → slice_get file.rows k ≡ Some row →
        IsSoundRow file row }
    ensures state { (file : FileData) → IsSoundFile file → (q : ℕ) (row : RowData) → row_of file q ≡ Some row →
        IsSoundRow file row × (row.state ≡ q) }
    ensures edge { (file : FileData) (row : RowData) → IsSoundRow file row → (k : ℕ) (edge : EdgeData) →
        slice_get row.edges k ≡ Some edge → IsSoundEdge file edge }
{}

/// The truth of each label of a sound file is defined: aliases use only earlier ones, and labels only aliases, and
/// propositions less than 64.
pub fn sound_labels()
    ensures aliases { (file : FileData) → IsSoundFile file → AreOrdered file.aliases }
    ensures row { (file : FileData) → IsSoundFile file → (row : RowData) → IsSoundRow file row → (e : Expression) →
        row.label ≡ Some e → IsOver (length file.aliases) 64 e }
    ensures edge { (file : FileData) → IsSoundFile file → (edge : EdgeData) → IsSoundEdge file edge → (e : Expression) →
        edge.guard ≡ stated e → IsOver (length file.aliases) 64 e }
{}
