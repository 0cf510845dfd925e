//! Why there is no product.

ghost use Rattle.std.specs.Prelude.{◌≡◌};
ghost use Rattle.ps_product.specs.declared.fault.ProductFault.TheVariants.{OutOfMemory};

use ps_simulate::LassoFault;
use std::alloc::AllocError;
use thiserror::Error;

/// Why there is no product.
#[derive(Clone, Copy, Debug, PartialEq, Eq, Error)]
pub enum ProductFault {
    /// The circuit's input and output symbols are not the propositions that its role must read and set, each once.
    #[error("the symbols are not the names of the propositions")]
    Symbols,
    /// The circuit's player moves first, but at some latches that a trace reaches, an output depends on the inputs.
    #[error("an output depends on inputs that come later")]
    Timing,
    /// Memory ran out.
    #[error("out of memory")]
    OutOfMemory,
}

impl ProductFault {
    ghost use Rattle.ps_product.specs.ProductFaultNames.{fault_number, fault_name};

    /// Its number in psyn's list of faults.
    pub fn number(self) -> u8
        ensures { result ≡ fault_number self }
    {
        match self {
            ProductFault::Symbols => LassoFault::Symbols.number(),
            ProductFault::Timing => 74,
            ProductFault::OutOfMemory => LassoFault::OutOfMemory.number(),
        }
    }

    /// Its name there.
    pub fn name(self) -> &'static str
        ensures { result.now ≡ fault_name self }
    {
        match self {
            ProductFault::Symbols => LassoFault::Symbols.name(),
            ProductFault::Timing => "Timing",
            ProductFault::OutOfMemory => LassoFault::OutOfMemory.name(),
        }
    }
}

impl From<AllocError> for ProductFault {
    ghost from_gives = { λ _ e. e ≡ OutOfMemory };

    fn from(_error: AllocError) -> Self {
        ProductFault::OutOfMemory
    }
}
