//! Why the text of a certificate is rejected.

ghost use Rattle.ps_certificate.specs.Faults.{cause_number, cause_name};

use ps_text::faults::{Cause, Fault};

/// What is wrong with the text of a certificate, or of a solution, which the crate `ps_solution` parses.
#[derive(Clone, Copy, Debug, PartialEq, Eq)]
pub enum CertCause {
    /// The text does not have the form of a certificate, or a number does not fit in 64 bits. In a compact text, no
    /// count may be 0, and the priorities in a line must ascend.
    Syntax,
    /// The text disagrees with the given game at this offset; up to it, its form is right.
    OtherGame,
}

/// Why there is no certificate: an error in the text, with its offset, or out of memory.
pub type CertFault = Fault<CertCause>;

impl Cause for CertCause {
    ghost number = { cause_number };

    ghost name = { cause_name };

    fn number(self) -> u8 {
        match self {
            CertCause::Syntax => 53,
            CertCause::OtherGame => 54,
        }
    }

    fn name(self) -> &'static str {
        match self {
            CertCause::Syntax => "Syntax",
            CertCause::OtherGame => "OtherGame",
        }
    }
}
