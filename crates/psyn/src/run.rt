//! The program.

ghost use Rattle.std.specs.Prelude.{◌≡◌, ◌+◌, false};
ghost use Rattle.ps_specification.specs.Proposing.{own_proposer};
ghost use Rattle.ps_specification.specs.Translating.{own_translator};
ghost use Rattle.ps_program.specs.Input.{ConsumesAtMost, input_limit};
ghost use Rattle.ps_program.specs.Finders.{finders_of};
ghost use Rattle.ps_program.specs.Streams.{sink_state};
ghost use Rattle.ps_program.specs.Replies.{Reply};
ghost use Rattle.ps_program.specs.Program.{Replies, Writes};

use ps_machine::Solver;
use ps_program::{
    FAULT, InputFault, OUT_OF_MEMORY, READ_FAULT, Sink, Source, answer_to, read_input, send,
};
use ps_proposer::{OwnProposer, OwnTranslator};
use ps_specification::{Proposer, Translator};
use std::alloc::Global;

/// Reads the whole input, writes its answer, and returns the exit status. `built_in` solves games, unless the input has
/// a certificate, which `replay` takes. Circuits and automata for specifications are psyn's own.
///
/// Reading stops at the first read that fails, or at the first byte past `INPUT_LIMIT`; writing, at the first write or
/// flush that fails, or write that accepts no bytes. Then the exit status is 1, and the output is a prefix of the
/// answer.
pub fn run<R: Source, W: Sink>(
    alloc: Global,
    reader: &mut R,
    writer: &mut W,
    mut built_in: Box<dyn Solver>,
    mut replay: Box<dyn Solver>,
) -> u8
    requires reader { R.has_failed reader.old ≡ false }
    requires writer { W.has_failed writer.old ≡ false }
    requires moving { W.has_stalled writer.old ≡ false }
    ensures consumed { ConsumesAtMost (R.remaining reader.old) (R.remaining reader.new)
        (input_limit + 1) }
    ensures answered { (reply : Reply)
        × Replies (finders_of (known built_in) (known replay) (own_proposer 1) own_translator)
        (R.remaining reader.old) (R.has_failed reader.new) reply
        × Writes (sink_state W.contents W.has_failed W.has_stalled W.is_flushed writer.old)
        (sink_state W.contents W.has_failed W.has_stalled W.is_flushed writer.new)
        reply result }
{
    run_by(
        alloc,
        reader,
        writer,
        &mut built_in,
        &mut replay,
        &OwnProposer,
        &OwnTranslator,
    )
}

/// As `run`, with solvers, a proposer and a translator whose types are known at compile time.
pub fn run_by<R: Source, W: Sink, S: Solver, T: Solver, P: Proposer, U: Translator>(
    alloc: Global,
    reader: &mut R,
    writer: &mut W,
    built_in: &mut S,
    replay: &mut T,
    proposer: &P,
    translator: &U,
) -> u8
    requires reader { R.has_failed reader.old ≡ false }
    requires writer { W.has_failed writer.old ≡ false }
    requires moving { W.has_stalled writer.old ≡ false }
    ensures consumed { ConsumesAtMost (R.remaining reader.old) (R.remaining reader.new)
        (input_limit + 1) }
    ensures answered { (reply : Reply)
        × Replies (finders_of (S.known built_in.old) (T.known replay.old) (P.known proposer.now)
        (U.may_give translator.now)) (R.remaining reader.old) (R.has_failed reader.new) reply
        × Writes (sink_state W.contents W.has_failed W.has_stalled W.is_flushed writer.old)
        (sink_state W.contents W.has_failed W.has_stalled W.is_flushed writer.new)
        reply result }
    ensures built_in_kept { (S.known built_in.new).is_sure ≡ (S.known built_in.old).is_sure }
    ensures replay_kept { (T.known replay.new).is_sure ≡ (T.known replay.old).is_sure }
{
    match read_input(alloc, reader) {
        Ok(input) => match answer_to(
            alloc,
            input.as_slice(),
            built_in,
            replay,
            proposer,
            translator,
        ) {
            Ok(answer) => write_reply(writer, answer.text.as_slice(), answer.status),
            Err(_) => write_reply(writer, OUT_OF_MEMORY, FAULT),
        },
        Err(InputFault::Unreadable) => write_reply(writer, READ_FAULT, FAULT),
        Err(InputFault::OutOfMemory) => write_reply(writer, OUT_OF_MEMORY, FAULT),
    }
}

/// Writes an answer, and returns the exit status.
fn write_reply<W: Sink>(writer: &mut W, text: &[u8], status: u8) -> u8
    requires sound { W.has_failed writer.old ≡ false }
    requires moving { W.has_stalled writer.old ≡ false }
    ensures { Writes
        (sink_state W.contents W.has_failed W.has_stalled W.is_flushed writer.old)
        (sink_state W.contents W.has_failed W.has_stalled W.is_flushed writer.new)
        (record { text = text.now; status = status }) result }
{
    match send(writer, text) {
        Ok(()) => status,
        Err(_) => FAULT,
    }
}
