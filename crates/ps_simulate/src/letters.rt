//! Letters in a single list, and their parser.

ghost use Rattle.std.specs.Prelude.{◌≡◌, ◌*◌, ◌<◌, ◌↔◌, IsTrue, Some, [], length, slice_get};
ghost use Rattle.ps_simulate.specs.StimulusTexts.{IsLettersAnswer};

use crate::fault::StimulusFault;
use crate::stimulus::{line_end, read_letter};
use std::alloc::Global;
use std::marker::Model;

/// Letters with a bit for each input, all in one list.
#[derive(Debug, Drop)]
pub struct Letters {
    bits: Vec<bool>,
    width: usize,
    count: usize,
}

impl Model for Letters {
    ghost use Rattle.std.specs.Prelude.{◌≡◌, ◌*◌, List, Bool, length};
    ghost use Rattle.ps_simulate.specs.Stimuli.{letters_in};

    ghost Value = { List (List Bool) };

    ghost view = { λ s. letters_in s.width s.count s.bits.items };

    ghost invariant = { λ s. length s.bits.items ≡ s.count * s.width };
}

impl Letters {
    /// The number of letters.
    pub fn len(&self) -> usize
        ensures { result ≡ length self.now }
    {
        self.count
    }

    /// Whether there are none.
    pub fn is_empty(&self) -> bool
        ensures { IsTrue result ↔ (self.now ≡ []) }
    {
        self.count == 0
    }

    /// The letter at an index.
    pub fn letter(&self, place: usize) -> &[bool]
        requires { place < length self.now }
        ensures { slice_get self.now place ≡ Some result.now }
    {
        let start = place * self.width;
        &self.bits[start..start + self.width]
    }
}

/// As `parse_stimulus` without `split`, with the same faults.
pub fn parse_letters(alloc: Global, text: &[u8], width: usize) -> Result<Letters, StimulusFault>
    ensures { IsLettersAnswer text.now width result }
{
    let mut bits = Vec::new(alloc);
    let mut count = 0;
    let mut start = 0;
    while start < text.len() {
        let end = line_end(text, start);
        let letter = read_letter(alloc, &text[start..end], start, width)?;
        bits.extend_from_slice(&letter)?;
        count += 1;
        start = end + 1;
    }
    Ok(Letters { bits, width, count })
}
