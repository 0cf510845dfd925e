//! Stimuli (the letters that a circuit reads), and their parser.

ghost use Rattle.std.specs.Prelude.{◌≡◌, ◌+◌, ◌-◌, ◌^◌, ◌<◌, ◌≤◌, ◌↔◌, ◌∷◌, ℕ, Bool, List, length, take, drop};
ghost use Rattle.std.specs.Prelude.{slice_index, All, IsTrue, IfOk, IfSome, IfNone};
ghost use Rattle.ps_simulate.specs.StimulusTexts.{IsDigit, lines_of, digits_of, divider, IsStimulusAnswer};
ghost use Rattle.ps_simulate.specs.StimulusTexts.{HasOneAnswer, HasSomeAnswer};
ghost use Rattle.ps_simulate.specs.Inner.StimulusReading.{IsLineEnd, ReadsLine};

use crate::fault::{StimulusCause, StimulusFault};
use ps_text::cursor::{Class, run_length};
use std::alloc::{AllocError, Global};
use std::marker::Model;

/// Letters with a bit for each input, in the circuit's order.
#[derive(Debug, Drop)]
pub struct Stimulus {
    /// Read once.
    pub stem: Vec<Vec<bool>>,
    /// Read again and again.
    pub lap: Vec<Vec<bool>>,
}

impl Model for Stimulus {
    ghost use Rattle.ps_simulate.specs.Stimuli.{StimulusData, letters_of};

    ghost Value = { StimulusData };

    ghost view = { λ s. record { stem = letters_of s.stem.items; lap = letters_of s.lap.items } };
}

/// Parses a stimulus, a line of digits for each letter. With `split`, a line `-` comes between stem and lap; else there
/// is no lap. Fails with the first error in the text and its offset, or if out of memory.
pub fn parse_stimulus(
    alloc: Global,
    text: &[u8],
    width: usize,
    split: bool,
) -> Result<Stimulus, StimulusFault>
    ensures { IsStimulusAnswer text.now width split result }
{
    let mut stem = Vec::new(alloc);
    let mut lap = Vec::new(alloc);
    let mut in_lap = false;
    let mut start = 0;
    while start < text.len() {
        let end = line_end(text, start);
        let line = &text[start..end];
        if split && !in_lap && is_divider(line) {
            in_lap = true;
        } else {
            let letter = read_letter(alloc, line, start, width)?;
            if in_lap {
                lap.push(letter)?;
            } else {
                stem.push(letter)?;
            }
        }
        start = end + 1;
    }
    if split && !in_lap {
        return Err(StimulusCause::Stimulus.at(text.len()));
    }
    Ok(Stimulus { stem, lap })
}

/// A text of a stimulus has at most one answer: its letters, or its first error.
pub fn stimulus_text_has_one_answer()
    ensures { (text : List ℕ) (width : ℕ) (split : Bool) → HasOneAnswer text width split }
{}

/// A text of a stimulus has an answer. This is about texts: a call may also run out of memory.
pub fn stimulus_text_has_some_answer()
    ensures { (text : List ℕ) (width : ℕ) (split : Bool) → HasSomeAnswer text width split }
{}

pub(crate) fn line_end(text: &[u8], start: usize) -> usize
    requires { start < length text.now }
    ensures { IsLineEnd text.now start result }
{
    start + run_length(&text[start..], Class::Inner)
}

fn is_divider(line: &[u8]) -> bool
    ensures { IsTrue result ↔ (line.now ≡ divider) }
{
    line.len() == 1 && line[0] == b'-'
}

fn first_wrong(line: &[u8]) -> Option<usize>
    ensures digits { IfNone result (All IsDigit line.now) }
    ensures wrong { IfSome result (λ j. (j < length line.now) × ¬ IsDigit (slice_index line.now j)) }
    ensures first { IfSome result (λ j. (i : ℕ) → i < j → IsDigit (slice_index line.now i)) }
{
    for (place, byte) in line.iter().enumerate() {
        if *byte != b'0' && *byte != b'1' {
            return Some(place);
        }
    }
    None
}

fn bits_of(alloc: Global, line: &[u8]) -> Result<Vec<bool>, AllocError>
    requires { All IsDigit line.now }
    ensures { IfOk result (λ bits. digits_of bits.items ≡ line.now) }
{
    let mut bits = Vec::with_capacity(alloc, line.len())?;
    for byte in line {
        bits.push_reserved(*byte == b'1');
    }
    Ok(bits)
}

/// Parses a letter's line, which begins at the offset `start`.
pub(crate) fn read_letter(
    alloc: Global,
    line: &[u8],
    start: usize,
    width: usize,
) -> Result<Vec<bool>, StimulusFault>
    requires { start + length line.now < 2 ^ 64 }
    ensures { ReadsLine line.now start width result }
{
    match first_wrong(line) {
        Some(0) => Err(StimulusCause::Stimulus.at(start)),
        _ if line.len() != width => Err(StimulusCause::Width.at(start)),
        Some(place) => Err(StimulusCause::Stimulus.at(start + place)),
        None => Ok(bits_of(alloc, line)?),
    }
}
