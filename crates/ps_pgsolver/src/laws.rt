//! Laws: a game text has exactly one list of tokens, and one answer.

ghost use Rattle.std.specs.Prelude.{◌≡◌, ℕ, List, Result, Ok, length};
ghost use Rattle.ps_text.specs.Answers.{Stream, Found};
ghost use Rattle.ps_game.specs.Games.{NamedGameData, IsGame, vertex_count};
ghost use Rattle.ps_pgsolver.specs.Reading.{Answer};
ghost use Rattle.ps_pgsolver.specs.declared.fault.PgCause.{PgCause};
ghost use Rattle.ps_pgsolver.specs.GameTokens.{AreGameTokens};
ghost use Rattle.ps_pgsolver.specs.Signs.{Sign};

/// A text has exactly one list of tokens.
pub fn one_list_of_tokens()
    ensures { (text : List ℕ) → (tokens : Stream Sign) × AreGameTokens text tokens ×
        ((others : Stream Sign) → AreGameTokens text others → others ≡ tokens) }
{}

/// A text has at most one answer: its game, or its first error with the offset.
pub fn one_answer()
    ensures { (text : List ℕ) (a b : Result NamedGameData (Found PgCause)) → Answer text a → Answer text b → a ≡ b }
{}

/// A text has an answer. This is about texts: a call may also run out of memory.
pub fn some_answer()
    ensures { (text : List ℕ) → (answer : Result NamedGameData (Found PgCause)) × Answer text answer }
{}

/// A text without errors describes a well-formed game, with an id for each vertex.
pub fn read_game_is_game()
    ensures { (text : List ℕ) (named : NamedGameData) → Answer text (Ok named) →
        IsGame named.game × (length named.ids ≡ vertex_count named.game) }
{}
