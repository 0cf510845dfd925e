//! Runs of sketches on stimuli on which circuits lost.

use crate::judging::{Alphabet, Judge};
use crate::lanes::{Lanes, mixed};
use crate::sketch::{Signal, Sketch};
use ps_circuit::Circuit;
use ps_simulate::{Stimulus, input_symbols, output_symbols, proposition_of};
use std::alloc::{AllocError, Global};

/// On how many stimuli a sketch runs before its circuit is judged.
const MOST_TRIED: usize = 8;

/// How often it reads a lap at most.
const LAPS: usize = 256;

/// The stimuli, and the propositions of a circuit's inputs and outputs.
#[derive(Drop)]
pub(crate) struct Trials {
    inputs: Vec<Option<usize>>,
    outputs: Vec<Option<usize>>,
    stimuli: Vec<Stimulus>,
}

impl Trials {
    /// No stimuli, for circuits with these names.
    pub fn new(alloc: Global, alphabet: Alphabet, named: &Circuit) -> Result<Self, AllocError> {
        let reads = alphabet.role.reads_controllable();
        let sets = alphabet.role.sets_controllable();
        let inputs = input_symbols(alloc, named)?;
        let outputs = output_symbols(alloc, named)?;
        Ok(Trials {
            inputs: propositions(alloc, alphabet, reads, &inputs)?,
            outputs: propositions(alloc, alphabet, sets, &outputs)?,
            stimuli: Vec::new(alloc),
        })
    }

    /// The stimuli.
    pub fn stimuli(&self) -> &[Stimulus] {
        &self.stimuli
    }

    /// Makes a stimulus the first one.
    pub fn put_first(&mut self, stimulus: Stimulus) -> Result<(), AllocError> {
        self.stimuli.push(stimulus)?;
        self.stimuli.rotate_right(1);
        Ok(())
    }

    /// Whether the circuit of a sketch loses on one of the first stimuli, which then comes first.
    pub fn refute<J: Judge>(
        &mut self,
        alloc: Global,
        judge: &J,
        sketch: &Sketch,
    ) -> Result<bool, AllocError>
        requires { J.may_judge judge.now }
    {
        let mut lanes = Lanes::new(alloc, sketch)?;
        for number in 0..self.stimuli.len().min(MOST_TRIED) {
            if self.loses_on(alloc, judge, sketch, &mut lanes, &self.stimuli[number])? {
                self.stimuli[..=number].rotate_right(1);
                return Ok(true);
            }
        }
        Ok(false)
    }

    /// Whether it loses on this stimulus; false if its run does not repeat in so many laps.
    fn loses_on<J: Judge>(
        &self,
        alloc: Global,
        judge: &J,
        sketch: &Sketch,
        lanes: &mut Lanes,
        stimulus: &Stimulus,
    ) -> Result<bool, AllocError>
        requires { J.may_judge judge.now }
    {
        let Some(word) = self.word(alloc, sketch, lanes, stimulus)? else {
            return Ok(false);
        };
        if word.start >= word.letters.len() {
            return Ok(false);
        }
        judge.refutes(
            alloc,
            &word.letters[..word.start],
            &word.letters[word.start..],
        )
    }

    /// The word of a run, until its latches are as they were before an earlier lap.
    fn word(
        &self,
        alloc: Global,
        sketch: &Sketch,
        lanes: &mut Lanes,
        stimulus: &Stimulus,
    ) -> Result<Option<Word>, AllocError> {
        lanes.start(sketch);
        let mut letters = Vec::new(alloc);
        self.read(sketch, lanes, &stimulus.stem, &mut letters)?;
        let mut laps = Vec::new(alloc);
        for _ in 0..LAPS {
            let key = key_of(sketch, lanes);
            if let Some(start) = start_of(&laps, key) {
                return Ok(Some(Word { letters, start }));
            }
            laps.push(Lap {
                key,
                start: letters.len(),
            })?;
            self.read(sketch, lanes, &stimulus.lap, &mut letters)?;
        }
        Ok(None)
    }

    /// Adds the letters of some steps.
    fn read(
        &self,
        sketch: &Sketch,
        lanes: &mut Lanes,
        inputs: &[Vec<bool>],
        letters: &mut Vec<u64>,
    ) -> Result<(), AllocError> {
        for input in inputs {
            lanes.read(input);
            lanes.evaluate(sketch);
            letters.push(self.letter(sketch, lanes, input))?;
            lanes.advance(sketch);
        }
        Ok(())
    }

    /// The letter of the current step.
    fn letter(&self, sketch: &Sketch, lanes: &Lanes, inputs: &[bool]) -> u64 {
        let mut letter = 0;
        for (proposition, bit) in self.inputs.iter().zip(inputs) {
            letter |= bit_at(*proposition, *bit);
        }
        for (proposition, output) in self.outputs.iter().zip(&sketch.outputs) {
            letter |= bit_at(*proposition, lanes.word(*output) & 1 == 1);
        }
        letter
    }
}

/// The letters of a run, which repeat for ever from `start` on.
#[derive(Drop)]
struct Word {
    letters: Vec<u64>,
    start: usize,
}

/// A lap: a hash of the latches before it, and how many letters come before it.
#[derive(Clone, Copy)]
struct Lap {
    key: u64,
    start: usize,
}

/// Where the first lap with this hash begins.
fn start_of(laps: &[Lap], key: u64) -> Option<usize> {
    for lap in laps {
        if lap.key == key {
            return Some(lap.start);
        }
    }
    None
}

/// A hash of the latch values.
fn key_of(sketch: &Sketch, lanes: &Lanes) -> u64 {
    let mut key = 0;
    for latch in &sketch.latches {
        key = mixed(key, lanes.word(Signal::positive(latch.place)));
    }
    key
}

/// The letter with this bit at a proposition.
fn bit_at(proposition: Option<usize>, bit: bool) -> u64 {
    match proposition {
        Some(number) if bit && number < 64 => 1 << number,
        _ => 0,
    }
}

/// The propositions of these names.
fn propositions(
    alloc: Global,
    alphabet: Alphabet,
    wanted: bool,
    symbols: &[Option<&[u8]>],
) -> Result<Vec<Option<usize>>, AllocError> {
    let mut propositions = Vec::new(alloc);
    for symbol in symbols {
        propositions.push(named(alphabet, wanted, *symbol))?;
    }
    Ok(propositions)
}

fn named(alphabet: Alphabet, wanted: bool, symbol: Option<&[u8]>) -> Option<usize> {
    proposition_of(alphabet.names, alphabet.controllable, wanted, symbol?)
}
