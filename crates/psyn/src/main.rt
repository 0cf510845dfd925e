//! psyn: reads a command and its texts from standard input, and writes the answer.
//!
//! | Call | What it gives |
//! |---|---|
//! | `run::run` | reads the whole input, writes its answer to the output, and returns the exit status |
//! | `run::run_by` | as `run`, with solvers, a proposer and a translator that are known at compile time |
//! | `synthesis::synthesise` | the report on an HOA text, with a solver chosen at run time (docs/PROMISE.md) |
#![tactic(auto)]

ghost use Rattle.std.specs.Prelude.{◌≡◌, ◌+◌, false, []};
ghost use Rattle.ps_solver.specs.Solving.{own_solver, replay_of};
ghost use Rattle.ps_specification.specs.Proposing.{own_proposer};
ghost use Rattle.ps_specification.specs.Translating.{own_translator};
ghost use Rattle.ps_program.specs.Input.{ConsumesAtMost, input_limit};
ghost use Rattle.ps_program.specs.Program.{Replies, Writes};
ghost use Rattle.ps_program.specs.Replies.{Reply};
ghost use Rattle.ps_program.specs.Finders.{finders_of};
ghost use Rattle.ps_program.specs.Streams.{sink_state};

pub mod run;
pub mod synthesis;

use ps_machine::{BuiltIn, Replay};
pub use ps_program::{Reader, Sink, Source, Watched, Writer};
use ps_proposer::{OwnProposer, OwnTranslator};
use run::run_by;
use std::alloc::Global;
use std::process::ExitCode;

fn main(rt: HostRuntime) -> ExitCode {
    ExitCode::from(answered(
        rt.alloc(),
        &mut Watched::new(rt.stdin()),
        &mut Watched::new(rt.stdout()),
    ))
}

/// Answers the input with psyn's own solver, proposer and translator, and the solver that replays a given certificate.
fn answered<R: Source, W: Sink>(alloc: Global, reader: &mut R, writer: &mut W) -> u8
    requires reader { R.has_failed reader.old ≡ false }
    requires writer { W.has_failed writer.old ≡ false }
    requires moving { W.has_stalled writer.old ≡ false }
    ensures consumed { ConsumesAtMost (R.remaining reader.old) (R.remaining reader.new)
        (input_limit + 1) }
    ensures answered { (reply : Reply)
        × Replies (finders_of own_solver (replay_of []) (own_proposer 1) own_translator) (R.remaining reader.old)
        (R.has_failed reader.new) reply
        × Writes (sink_state W.contents W.has_failed W.has_stalled W.is_flushed writer.old)
        (sink_state W.contents W.has_failed W.has_stalled W.is_flushed writer.new)
        reply result }
{
    let mut built_in = BuiltIn::new(alloc);
    let mut replay = Replay::new(alloc);
    run_by(
        alloc,
        reader,
        writer,
        &mut built_in,
        &mut replay,
        &OwnProposer,
        &OwnTranslator,
    )
}
