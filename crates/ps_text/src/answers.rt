//! Laws: a text has at most one answer, and it has at least one.

ghost use Rattle.std.specs.Prelude.{ℕ, List, Option};
ghost use Rattle.ps_text.specs.Answers.{HasOneMeaning, AreNumbered, HasOneAnswer};
ghost use Rattle.ps_text.specs.Outcomes.{HasOutcomes, IsOrderly, HasSomeAnswer};
ghost use Rattle.ps_text.specs.Parts.{Part, Causes, IsWrong};

/// A format of texts: what they mean, and why a text is rejected.
pub trait Format {
    /// What texts consist of.
    type Sign;

    /// What texts mean.
    type Value;

    /// Why a text is rejected.
    type Cause;

    /// Which lists of symbols are texts, and with which meaning.
    ghost is_text: { List Self.Sign → Self.Value → Type 0 };

    /// Which errors follow a list of symbols, at the symbol given or, for `None`, at the end of the text.
    ghost is_cause: { List Self.Sign → Option Self.Sign → Self.Cause → Type 0 };

    /// The number of a cause; of two errors of one symbol, the answer is that with the smaller number.
    ghost number: { Self.Cause → ℕ };
}

/// A text has at most one answer, if it has at most one meaning, and different causes have different numbers.
pub fn one_answer<M: Format>()
    ensures { HasOneMeaning M.is_text → AreNumbered M.number → HasOneAnswer M.is_text M.is_cause M.number }
{}

/// A format that is given by a `Part`, a grammar with its errors.
pub trait Grammar {
    type Sign;

    type Value;

    type Cause;

    /// The grammar of a whole text.
    ghost part: { Part Self.Sign Self.Value Self.Cause };

    /// The causes' numbers, the errors of symbols that are wrong everywhere, and the error of others that are not
    /// allowed.
    ghost causes: { Causes Self.Sign Self.Cause };
}

/// A text has an answer if the grammar has an outcome (a text or a first fault) for each list of symbols, gives a text
/// one meaning, and satisfies `IsOrderly`: what comes before an error begins a text, and a symbol that is wrong
/// everywhere is in no text and has no other error.
pub fn some_answer<G: Grammar>()
    ensures { HasOneMeaning G.part.IsText → IsOrderly G.causes G.part → HasOutcomes G.causes G.part →
        HasSomeAnswer G.part.IsText (IsWrong G.causes G.part) G.causes.number }
{}
