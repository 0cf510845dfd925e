//! The command `translate`.

ghost use Rattle.ps_program.specs.Outcomes.{Gives};
ghost use Rattle.ps_program.specs.Replies.{reply_of};
ghost use Rattle.ps_program.specs.Commands.TranslationTexts.{AnswersTranslate};

use crate::answer::{Answer, Refusal};
use ps_specification::{Translator, translate_specification};
use std::alloc::Global;

/// The HOA text of an automaton for the specification of a text, judged by it. Fails with the fault of the translation.
pub fn translate<T: Translator>(
    alloc: Global,
    text: &[u8],
    translator: &T,
) -> Result<Answer, Refusal>
    ensures { Gives reply_of (AnswersTranslate (T.may_give translator.now) text.now) result }
{
    Ok(Answer::text(translate_specification(alloc, text, translator)?))
}
