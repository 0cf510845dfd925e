//! The answer to an input.

ghost use Rattle.std.specs.Prelude.{◌≡◌, IfOk};
ghost use Rattle.ps_program.specs.Program.{AnswersInput};
ghost use Rattle.ps_program.specs.Replies.{reply_of};
ghost use Rattle.ps_program.specs.Finders.{finders_of};

use crate::answer::{Answer, settle};
use crate::command_line::read_line;
use crate::commands::answer_line;
use crate::cut::first_line;
use ps_machine::Solver;
use ps_specification::{Proposer, Translator};
use std::alloc::{AllocError, Global};

/// The answer to an input, which is a command line with texts. Fails only if memory runs out; any other fault is
/// reported in the answer.
pub fn answer_to<S: Solver, T: Solver, P: Proposer, U: Translator>(
    alloc: Global,
    input: &[u8],
    built_in: &mut S,
    replay: &mut T,
    proposer: &P,
    translator: &U,
) -> Result<Answer, AllocError>
    ensures answer { IfOk result (λ answer. AnswersInput (finders_of (S.known built_in.old) (T.known replay.old)
        (P.known proposer.now) (U.may_give translator.now)) input.now (reply_of answer)) }
    ensures built_in_kept { (S.known built_in.new).is_sure ≡ (S.known built_in.old).is_sure }
    ensures replay_kept { (T.known replay.new).is_sure ≡ (T.known replay.old).is_sure }
{
    let (line, texts) = first_line(input);
    let line = read_line(alloc, line)?;
    let answer = answer_line(alloc, line, texts, built_in, replay, proposer, translator);
    settle(alloc, answer)
}
