//! What can go wrong when two diagrams are joined.

ghost use Rattle.ps_diagram.specs.declared.fault.OverlayError.TheVariants.{OutOfMemory};
ghost use Rattle.std.specs.Prelude.{◌≡◌};

use std::alloc::{AllocError, AllocFailed};
use thiserror::Error;

/// Why two diagrams can't be joined.
#[derive(Debug, Drop, Error)]
pub enum OverlayError {
    /// At some letter, the first and the second have these different leaves.
    #[error("two different leaves, {first} and {second}, at one letter")]
    Clash { first: u64, second: u64 },
    /// Memory ran out.
    #[error("out of memory")]
    OutOfMemory,
}

impl From<AllocError> for OverlayError {
    ghost from_gives = { λ _ fault. fault ≡ OutOfMemory };

    fn from(_error: AllocError) -> OverlayError {
        OverlayError::OutOfMemory
    }
}

impl<T: Drop> From<AllocFailed<T>> for OverlayError {
    ghost from_gives = { λ _ fault. fault ≡ OutOfMemory };

    fn from(_error: AllocFailed<T>) -> OverlayError {
        OverlayError::OutOfMemory
    }
}
