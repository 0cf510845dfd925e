//! 64 runs of a sketch at once: bit b of a variable's word is its value in run b.

use crate::sketch::{Signal, Sketch};
use std::alloc::{AllocError, Global};

/// The words in the current step.
#[derive(Drop)]
pub(crate) struct Lanes {
    words: Vec<u64>,
    nexts: Vec<u64>,
}

impl Lanes {
    pub fn new(alloc: Global, sketch: &Sketch) -> Result<Self, AllocError> {
        Ok(Lanes {
            words: vec![in alloc; 0; sketch.end]?,
            nexts: vec![in alloc; 0; sketch.latches.len()]?,
        })
    }

    /// The words, by place.
    pub fn words(&self) -> &[u64] {
        &self.words
    }

    /// Sets the latches to their first values.
    pub fn start(&mut self, sketch: &Sketch) {
        for latch in &sketch.latches {
            self.put(latch.place, all(latch.reset));
        }
    }

    /// Sets the inputs to a letter, the same in each run.
    pub fn read(&mut self, letter: &[bool]) {
        for (input, bit) in letter.iter().enumerate() {
            self.put(input + 1, all(*bit));
        }
    }

    /// Evaluates the gates.
    pub fn evaluate(&mut self, sketch: &Sketch) {
        for gate in &sketch.gates {
            let word = self.word(gate.first) & self.word(gate.second);
            self.put(gate.place, word);
        }
    }

    /// Sets the latches to their next values, after `evaluate`.
    pub fn advance(&mut self, sketch: &Sketch) {
        for (number, latch) in sketch.latches.iter().enumerate() {
            let next = self.word(latch.next);
            if number < self.nexts.len() {
                self.nexts[number] = next;
            }
        }
        for (number, latch) in sketch.latches.iter().enumerate() {
            if number < self.nexts.len() {
                let next = self.nexts[number];
                self.put(latch.place, next);
            }
        }
    }

    /// The word of a signal.
    pub fn word(&self, signal: Signal) -> u64 {
        if signal.place < self.words.len() {
            self.words[signal.place] ^ all(signal.is_negated)
        } else {
            0
        }
    }

    /// Sets the word of a variable.
    pub fn put(&mut self, place: usize, word: u64) {
        if place < self.words.len() {
            self.words[place] = word;
        }
    }
}

/// The word of a value that is the same in each run.
pub(crate) fn all(bit: bool) -> u64 {
    if bit { u64::MAX } else { 0 }
}

/// A hash, after one more word.
pub(crate) fn mixed(hash: u64, word: u64) -> u64 {
    let product = (hash ^ word).wrapping_mul(0x9e37_79b9_7f4a_7c15);
    product ^ (product >> 29)
}
