//! The numbers that `controllable-AP:` lists.

ghost use Rattle.std.specs.Prelude.{◌≡◌, [], OnOk, OnErr};
ghost use Rattle.ps_hoa.specs.Grammar.Header.{has_place, kept, slot_of};

use std::alloc::{AllocError, Global};
use std::marker::Model;

/// The slot that 64 and all greater numbers share, since none is a proposition.
const LAST_PLACE: u32 = 64;

/// Numbers in order of appearance: each less than 64 once, and of all others only the first. So there are at most 65.
#[derive(Debug, Drop)]
pub(crate) struct Indices {
    numbers: Vec<u32>,
}

impl Model for Indices {
    ghost use Rattle.std.specs.Prelude.{ℕ, List};

    ghost Value = { List ℕ };

    ghost view = { λ s. s.numbers.items };
}

impl Indices {
    pub(crate) fn new(alloc: Global) -> Self
        ensures { result ≡ [] }
    {
        Indices {
            numbers: Vec::new(alloc),
        }
    }

    /// The given numbers, each of which is less than 64 and occurs once.
    pub(crate) fn of_numbers(numbers: Vec<u32>) -> Self
        ensures { result ≡ numbers.items }
    {
        Indices { numbers }
    }

    pub(crate) fn as_slice(&self) -> &[u32]
        ensures { result.now ≡ self.now }
    {
        self.numbers.as_slice()
    }

    /// Adds a number, unless the list has one with the same slot.
    pub(crate) fn add(&mut self, number: u32) -> Result<(), AllocError>
        ensures ok { OnOk result (self.new ≡ kept self.old number) }
        ensures err { OnErr result (self.new ≡ self.old) }
    {
        if has_place(&self.numbers, number) {
            return Ok(());
        }
        self.numbers.push(number)?;
        Ok(())
    }
}

/// Whether the list has a number with the same slot.
fn has_place(numbers: &[u32], number: u32) -> bool
    ensures { result ≡ has_place (slot_of number) numbers.now }
{
    let place = place_of(number);
    for other in numbers {
        if place == place_of(*other) {
            return true;
        }
    }
    false
}

/// The slot of a number: itself if it is less than 64, else 64.
fn place_of(number: u32) -> u32
    ensures { result ≡ slot_of number }
{
    if number < LAST_PLACE {
        number
    } else {
        LAST_PLACE
    }
}
