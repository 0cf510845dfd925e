//! A law: a text has at most one list of tokens.

ghost use Rattle.std.specs.Prelude.{ℕ, List};
ghost use Rattle.ps_text.specs.Tokens.{TokensDiffer, HasOneTokenisation};

/// The tokens of a format, and the bytes that may separate them.
pub trait Lexicon {
    /// A token, as a symbol of the grammar.
    type Sign;

    /// A byte that may occur between two tokens.
    ghost is_blank: { ℕ → Type 0 };

    /// Which token a list of bytes forms, between the bytes before and after it.
    ghost is_token: { List ℕ → Self.Sign → List ℕ → List ℕ → Type 0 };
}

/// A text has at most one list of tokens, if at most one begins at each position, and none with a blank.
pub fn one_tokenisation<L: Lexicon>()
    ensures { TokensDiffer L.is_blank L.is_token → HasOneTokenisation L.is_blank L.is_token }
{}
