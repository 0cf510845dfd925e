//! What was seen of a sketch's variables in runs.

use crate::lanes::{Lanes, all, mixed};
use crate::sketch::Sketch;
use ps_simulate::Stimulus;
use std::alloc::{AllocError, Global};

/// How many letters a random run has.
const LETTERS: usize = 64;

/// A hash of a variable's words, or of their complements if the first has the bit 0: that of its negation is the same.
#[derive(Clone, Copy)]
pub(crate) struct Trail {
    pub hash: u64,
    /// Whether it is of the complements.
    pub is_turned: bool,
}

impl Trail {
    /// No words.
    const NOTHING: Trail = Trail {
        hash: 0,
        is_turned: false,
    };
}

/// The trails of a sketch's variables.
#[derive(Drop)]
pub(crate) struct Trails {
    lanes: Lanes,
    trails: Vec<Trail>,
    is_new: bool,
    drawn: u64,
}

impl Trails {
    /// The trails before the first run.
    pub fn new(alloc: Global, sketch: &Sketch) -> Result<Self, AllocError> {
        Ok(Trails {
            lanes: Lanes::new(alloc, sketch)?,
            trails: vec![in alloc; Trail::NOTHING; sketch.end]?,
            is_new: true,
            drawn: 1,
        })
    }

    /// The trail of a variable.
    pub fn trail(&self, place: usize) -> Trail {
        if place < self.trails.len() {
            self.trails[place]
        } else {
            Trail::NOTHING
        }
    }

    /// Takes 64 runs with random inputs, by a fixed rule.
    pub fn run_drawn(&mut self, sketch: &Sketch) {
        self.lanes.start(sketch);
        for _ in 0..LETTERS {
            for input in 0..sketch.inputs {
                let word = self.draw();
                self.lanes.put(input.saturating_add(1), word);
            }
            self.step(sketch);
        }
    }

    /// Takes a run on a stimulus, with its lap twice.
    pub fn run(&mut self, sketch: &Sketch, stimulus: &Stimulus) {
        self.lanes.start(sketch);
        self.read(sketch, &stimulus.stem);
        self.read(sketch, &stimulus.lap);
        self.read(sketch, &stimulus.lap);
    }

    fn read(&mut self, sketch: &Sketch, letters: &[Vec<bool>]) {
        for letter in letters {
            self.lanes.read(letter);
            self.step(sketch);
        }
    }

    /// Makes a step on the inputs that are set.
    fn step(&mut self, sketch: &Sketch) {
        self.lanes.evaluate(sketch);
        follow(&mut self.trails, self.lanes.words(), self.is_new);
        self.is_new = false;
        self.lanes.advance(sketch);
    }

    /// The next random word.
    fn draw(&mut self) -> u64 {
        self.drawn = self.drawn.wrapping_add(0x9e37_79b9_7f4a_7c15);
        let word = (self.drawn ^ (self.drawn >> 30)).wrapping_mul(0xbf58_476d_1ce4_e5b9);
        let word = (word ^ (word >> 27)).wrapping_mul(0x94d0_49bb_1331_11eb);
        word ^ (word >> 31)
    }
}

/// Adds the current words to the trails.
fn follow(trails: &mut [Trail], words: &[u64], is_new: bool) {
    for (place, word) in words.iter().enumerate() {
        if place < trails.len() {
            let is_turned = if is_new {
                *word & 1 == 1
            } else {
                trails[place].is_turned
            };
            trails[place] = Trail {
                hash: mixed(trails[place].hash, *word ^ all(is_turned)),
                is_turned,
            };
        }
    }
}
