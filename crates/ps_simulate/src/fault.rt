//! Why the text of a stimulus is rejected.

ghost use Rattle.std.specs.Prelude.{◌≡◌};
ghost use Rattle.ps_simulate.specs.Faults.{cause_number, cause_name};
ghost use Rattle.ps_text.specs.declared.faults.Fault.TheVariants.{Text};

use ps_text::faults::{Cause, Fault};

/// What is wrong with the text of a stimulus.
#[derive(Clone, Copy, Debug, PartialEq, Eq)]
pub enum StimulusCause {
    /// A line's length is not the number of inputs.
    Width,
    /// A byte is not a digit 0 or 1, or the line `-` is missing.
    Stimulus,
}

/// An error in the text of a stimulus, or out of memory.
pub type StimulusFault = Fault<StimulusCause>;

impl Cause for StimulusCause {
    ghost number = { cause_number };

    ghost name = { cause_name };

    fn number(self) -> u8 {
        match self {
            StimulusCause::Width => 70,
            StimulusCause::Stimulus => 73,
        }
    }

    fn name(self) -> &'static str {
        match self {
            StimulusCause::Width => "Width",
            StimulusCause::Stimulus => "Stimulus",
        }
    }
}

impl StimulusCause {
    pub(crate) fn at(self, offset: usize) -> StimulusFault
        ensures { result ≡ Text self offset }
    {
        StimulusFault::Text {
            cause: self,
            offset,
        }
    }
}
