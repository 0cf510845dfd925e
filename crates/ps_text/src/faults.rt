//! The faults of texts, of all formats.

ghost use Rattle.std.specs.Prelude.{◌≡◌, ℕ, List};
ghost use Rattle.ps_text.specs.declared.faults.Fault.TheVariants.{OutOfMemory};

use std::alloc::{AllocError, AllocFailed};
use std::fmt;
use thiserror::Error;

/// Why a text is rejected.
pub trait Cause: Copy + Drop + fmt::Debug {
    ghost number: { Self → ℕ };

    ghost name: { Self → List ℕ };

    /// Its number in psyn's list of faults.
    fn number(self) -> u8
        ensures { result ≡ number self };

    /// Its name there.
    fn name(self) -> &'static str
        ensures { result.now ≡ name self };
}

/// Why a text was not parsed.
#[derive(Clone, Copy, Debug, PartialEq, Eq, Error)]
#[error_bound(C: Cause)]
pub enum Fault<C> {
    /// The text is rejected.
    #[error("{} at byte {offset}", .cause.name())]
    Text {
        cause: C,
        /// The offset of the byte with the error, from 0; at the end of the text, the text's length.
        offset: usize,
    },
    /// Out of memory.
    #[error("out of memory")]
    OutOfMemory,
}

impl<C: Cause> Fault<C> {
    ghost use Rattle.ps_text.specs.Faults.{fault_number, fault_name};

    /// Its number in psyn's list of faults.
    pub fn number(self) -> u8
        ensures { result ≡ fault_number C.number self }
    {
        match self {
            Fault::Text { cause, .. } => cause.number(),
            Fault::OutOfMemory => 24,
        }
    }

    /// Its name there.
    pub fn name(self) -> &'static str
        ensures { result.now ≡ fault_name C.name self }
    {
        match self {
            Fault::Text { cause, .. } => cause.name(),
            Fault::OutOfMemory => "OutOfMemory",
        }
    }
}

impl<C> From<AllocError> for Fault<C> {
    ghost from_gives = { λ _ fault. fault ≡ OutOfMemory };

    fn from(_error: AllocError) -> Fault<C> {
        Fault::OutOfMemory
    }
}

impl<C, T: Drop> From<AllocFailed<T>> for Fault<C> {
    ghost from_gives = { λ _ fault. fault ≡ OutOfMemory };

    fn from(_error: AllocFailed<T>) -> Fault<C> {
        Fault::OutOfMemory
    }
}
