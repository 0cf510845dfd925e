//! What a circuit needs of a machine, in either of the forms in which machines are stored.

ghost use Rattle.std.specs.Prelude.{◌≡◌, ◌<◌, Some, length, map};
ghost use Rattle.ps_hoa.specs.Memory.{bytes_of};
ghost use Rattle.ps_label.specs.Truth.{is_in};
ghost use Rattle.ps_diagram.specs.Table.{IsNode};
ghost use Rattle.ps_machine.specs.Behaviours.{IsMachine};
ghost use Rattle.ps_aiger.specs.Inner.Functions.{IsWanted, IsWhole, behaviour_of, bit_at, bit_of_row, node_in};
ghost use Rattle.ps_aiger.specs.Inner.Functions.{store_of};

use ps_diagram::{Node, Store};
use ps_machine::{BitMachine, Machine, Row};

/// A bit of a machine's step.
#[derive(Debug, Clone, Copy, PartialEq, Eq)]
pub(crate) enum Wanted {
    /// This bit of the next memory state's number.
    Next(u32),
    /// The proposition at this place among the outputs, in the output letter.
    Output { place: usize, proposition: u32 },
}

/// A machine.
#[derive(Clone, Copy)]
pub(crate) enum Stored<'a> {
    /// One whose diagrams have indices of rows as leaves.
    Rows(&'a Machine),
    /// One with diagrams of the bits of its output letters.
    Bits(&'a BitMachine),
}

impl Stored<'_> {
    pub(crate) fn names(&self) -> &[Vec<u8>]
        ensures names { map bytes_of result.now ≡ (behaviour_of self.now).names }
        ensures machine { IsMachine (behaviour_of self.now) }
    {
        match self {
            Stored::Rows(machine) => machine.names(),
            Stored::Bits(machine) => machine.names(),
        }
    }

    pub(crate) fn inputs(&self) -> &[u32]
        ensures inputs { result.now ≡ (behaviour_of self.now).inputs }
        ensures machine { IsMachine (behaviour_of self.now) }
    {
        match self {
            Stored::Rows(machine) => machine.inputs(),
            Stored::Bits(machine) => machine.inputs(),
        }
    }

    pub(crate) fn outputs(&self) -> &[u32]
        ensures outputs { result.now ≡ (behaviour_of self.now).outputs }
        ensures machine { IsMachine (behaviour_of self.now) }
    {
        match self {
            Stored::Rows(machine) => machine.outputs(),
            Stored::Bits(machine) => machine.outputs(),
        }
    }

    pub(crate) fn memories(&self) -> usize
        ensures memories { result ≡ (behaviour_of self.now).memories }
        ensures machine { IsMachine (behaviour_of self.now) }
        ensures whole { IsWhole self.now }
    {
        match self {
            Stored::Rows(machine) => machine.memories(),
            Stored::Bits(machine) => machine.memories(),
        }
    }

    pub(crate) fn store(&self) -> &Store
        ensures store { result.now ≡ store_of self.now }
        ensures machine { IsMachine (behaviour_of self.now) }
    {
        match self {
            Stored::Rows(machine) => machine.store(),
            Stored::Bits(machine) => machine.store(),
        }
    }

    /// The diagram that gives a bit in a memory state.
    pub(crate) fn node(&self, memory: usize, wanted: Wanted) -> Node
        requires memory { memory < (behaviour_of self.now).memories }
        requires wanted { IsWanted (behaviour_of self.now).outputs wanted }
        ensures node { result ≡ node_in self.now wanted memory }
        ensures held { IsNode (store_of self.now) result }
    {
        match self {
            Stored::Rows(machine) => machine.node(memory),
            Stored::Bits(machine) => match wanted {
                Wanted::Next(_) => machine.node(memory),
                Wanted::Output { place, .. } => machine.bit(memory, place),
            },
        }
    }

    /// The bit at a leaf of such a diagram.
    pub(crate) fn bit(&self, wanted: Wanted, leaf: u64) -> bool
        ensures { result ≡ bit_at self.now wanted (Some leaf) }
    {
        match self {
            Stored::Rows(machine) => match machine.rows().get(leaf as usize) {
                Some(row) => bit_of_row(wanted, *row),
                None => false,
            },
            Stored::Bits(_) => match wanted {
                Wanted::Next(bit) => has_bit(leaf, bit),
                Wanted::Output { .. } => true,
            },
        }
    }
}

fn bit_of_row(wanted: Wanted, row: Row) -> bool
    ensures { result ≡ bit_of_row wanted row }
{
    match wanted {
        Wanted::Next(bit) => has_bit(row.memory as u64, bit),
        Wanted::Output { proposition, .. } => has_bit(row.letter, proposition),
    }
}

fn has_bit(number: u64, place: u32) -> bool
    ensures { result ≡ is_in place number }
{
    place < 64 && number >> place & 1 == 1
}
