//! The program's answers.

ghost use Rattle.std.specs.Prelude.{◌≡◌, IfOk};
ghost use Rattle.ps_program.specs.Outcomes.{Settles};

use crate::fault::{FaultLine, Place};
use crate::help::help_text;
use ps_text::faults::{Cause, Fault};
use std::alloc::{AllocError, Global};

/// The exit status of an answer that is neither a circuit nor a fault.
const DONE: u8 = 0;

/// The exit status of a fault.
pub const FAULT: u8 = 1;

/// That of a controller.
pub const REALIZABLE: u8 = 10;

/// That of an environment.
pub const UNREALIZABLE: u8 = 20;

const REFUSED: u8 = 2;

const USAGE: &str = "fault usage\n";

/// The answer if the input can't be read.
pub const READ_FAULT: &[u8] = b"fault 25 ReadFault\n";

/// The answer if memory runs out.
pub const OUT_OF_MEMORY: &[u8] = b"fault 24 OutOfMemory\n";

/// What the program writes, and its exit status. All calls but `text` fail if memory runs out.
#[derive(Drop)]
pub struct Answer {
    /// What is written to standard output.
    pub text: Vec<u8>,
    /// One of those above.
    pub status: u8,
}

impl Answer {
    ghost use Rattle.ps_program.specs.Faults.{fault_text};
    ghost use Rattle.ps_program.specs.Replies.{reply_of, fault_reply, line_reply};
    ghost use Rattle.ps_program.specs.Replies as reply;

    /// An answer that is this text.
    pub fn text(text: Vec<u8>) -> Answer
        ensures { reply_of result ≡ reply.text_reply text.items }
    {
        Answer { text, status: DONE }
    }

    /// An answer that is this line.
    pub fn line(alloc: Global, line: &str) -> Result<Answer, AllocError>
        ensures { IfOk result (λ answer. reply_of answer ≡ line_reply line.now) }
    {
        let text = format!(in alloc; "{line}\n")?.into_bytes();
        Ok(Answer { text, status: DONE })
    }

    /// The answer that reports a fault.
    pub fn fault(alloc: Global, fault: &FaultLine) -> Result<Answer, AllocError>
        ensures { IfOk result (λ answer. reply_of answer ≡ fault_reply (fault_text fault.now)) }
    {
        let text = format!(in alloc; "{fault}\n")?.into_bytes();
        Ok(Answer {
            text,
            status: FAULT,
        })
    }

    /// If the command line is rejected.
    pub fn usage(alloc: Global) -> Result<Answer, AllocError>
        ensures { IfOk result (λ answer. reply_of answer ≡ reply.usage) }
    {
        let text = String::from_str(alloc, USAGE)?.into_bytes();
        Ok(Answer {
            text,
            status: REFUSED,
        })
    }

    /// The text of `help`.
    pub fn help(alloc: Global) -> Result<Answer, AllocError>
        ensures { IfOk result (λ answer. reply_of answer ≡ reply.help) }
    {
        let text = help_text(alloc)?.into_bytes();
        Ok(Answer { text, status: DONE })
    }
}

/// Why a command gives no result.
#[derive(Drop)]
pub enum Refusal {
    /// The program reports this line.
    Fault(FaultLine),
    /// Memory ran out.
    OutOfMemory,
}

impl From<AllocError> for Refusal {
    ghost use Rattle.ps_program.specs.declared.answer.Refusal.TheVariants as refusal;

    ghost from_gives = { λ _ given. given ≡ refusal.OutOfMemory };

    fn from(_: AllocError) -> Self {
        Refusal::OutOfMemory
    }
}

/// The number and the name of the cause, with the offset in the text.
impl<C: Cause> From<Fault<C>> for Refusal {
    ghost use Rattle.ps_program.specs.Refusals.{IsRefusalOf};

    ghost from_gives = { IsRefusalOf C.number C.name };

    fn from(fault: Fault<C>) -> Self {
        match fault {
            Fault::Text { cause, offset } => Refusal::Fault(FaultLine {
                number: cause.number(),
                name: cause.name(),
                place: Place::Byte(offset),
            }),
            Fault::OutOfMemory => Refusal::OutOfMemory,
        }
    }
}

/// A command's answer, or the line of its fault. Fails if memory runs out.
pub fn settle(alloc: Global, outcome: Result<Answer, Refusal>) -> Result<Answer, AllocError>
    ensures { IfOk result (Settles outcome) }
{
    match outcome {
        Ok(answer) => Ok(answer),
        Err(Refusal::Fault(fault)) => Answer::fault(alloc, &fault),
        Err(Refusal::OutOfMemory) => Err(AllocError),
    }
}
