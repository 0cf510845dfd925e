//! A text that is written.

use ps_parts::stop::Stop;
use std::alloc::Global;
use std::mem;

/// The most bytes of a text.
const BYTES: usize = 16_777_216;

/// A text, as far as it is written.
#[derive(Drop)]
pub(crate) struct Output {
    pub(crate) bytes: Vec<u8>,
}

impl Output {
    /// No text.
    pub(crate) fn new(alloc: Global) -> Self {
        Output {
            bytes: Vec::new(alloc),
        }
    }

    /// Takes the text, so that none is left.
    pub(crate) fn taken(&mut self, alloc: Global) -> Vec<u8> {
        mem::replace(&mut self.bytes, Vec::new(alloc))
    }

    /// Adds bytes.
    pub(crate) fn add(&mut self, bytes: &[u8]) -> Result<(), Stop> {
        if self.bytes.len().saturating_add(bytes.len()) >= BYTES {
            return Err(Stop::Limit);
        }
        self.bytes.extend_from_slice(bytes)?;
        Ok(())
    }

    /// Adds bytes, with others before and behind them.
    pub(crate) fn add_between(
        &mut self,
        before: &[u8],
        bytes: &[u8],
        behind: &[u8],
    ) -> Result<(), Stop> {
        self.add(before)?;
        self.add(bytes)?;
        self.add(behind)
    }

    /// Adds a number, in decimal digits.
    pub(crate) fn add_number(&mut self, number: usize) -> Result<(), Stop> {
        let mut digits = [b'0'; 20];
        let mut rest = number;
        let mut count = 0usize;
        for digit in digits.iter_mut() {
            *digit = b'0' + (rest % 10) as u8;
            rest /= 10;
            count = count.saturating_add(1);
            if rest == 0 {
                break;
            }
        }
        for digit in digits.iter().take(count).rev() {
            self.add(&[*digit])?;
        }
        Ok(())
    }

    /// Adds a number, with bytes before and behind it.
    pub(crate) fn add_number_between(
        &mut self,
        before: &[u8],
        number: usize,
        behind: &[u8],
    ) -> Result<(), Stop> {
        self.add(before)?;
        self.add_number(number)?;
        self.add(behind)
    }
}
