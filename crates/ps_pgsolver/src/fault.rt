//! The errors of a game text.

ghost use Rattle.ps_pgsolver.specs.Causes.{cause_name, cause_number};

use ps_text::faults::{Cause, Fault};

/// Why a game text is rejected; the limit is psyn's own.
#[derive(Clone, Copy, Debug, PartialEq, Eq)]
pub enum PgCause {
    /// A token, or the end of the text, is not allowed here.
    Syntax,
    /// A node without a successor.
    NoSuccessor,
    /// A successor that is not the id of a node.
    UnknownSuccessor,
    /// An id that an earlier node has.
    NodeTwice,
    /// A number of 2^64 or more, or an owner other than 0 and 1.
    Number,
    /// A text of more than 16,777,216 bytes.
    Limit,
}

/// An error in the text, with its offset, or out of memory.
pub type PgFault = Fault<PgCause>;

impl Cause for PgCause {
    ghost number = { cause_number };

    ghost name = { cause_name };

    fn number(self) -> u8 {
        match self {
            PgCause::Syntax => 30,
            PgCause::NoSuccessor => 31,
            PgCause::UnknownSuccessor => 32,
            PgCause::NodeTwice => 33,
            PgCause::Number => 34,
            PgCause::Limit => 35,
        }
    }

    fn name(self) -> &'static str {
        match self {
            PgCause::Syntax => "Syntax",
            PgCause::NoSuccessor => "NoSuccessor",
            PgCause::UnknownSuccessor => "UnknownSuccessor",
            PgCause::NodeTwice => "NodeTwice",
            PgCause::Number => "Number",
            PgCause::Limit => "Limit",
        }
    }
}
