//! Finite machines whose output letters are stored bit by bit.

ghost use Rattle.std.specs.Prelude.{◌≡◌, ◌<◌, ◌≤◌, length, map, slice_index};
ghost use Rattle.ps_hoa.specs.Memory.{bytes_of};
ghost use Rattle.ps_diagram.specs.Table.{IsNode};
ghost use Rattle.ps_machine.specs.BitMachines.{IsWholeBitMachine, bit_behaviour, bits_in};
ghost use Rattle.ps_machine.specs.Inner.Stored.{bit_machine_of};

use crate::machine::Propositions;
use ps_diagram::{Node, Store};
use ps_game::Player;
use std::marker::Model;

/// The diagrams of a machine, with one for each bit of its output letters.
#[derive(Drop)]
pub struct BitParts {
    /// The store of the diagrams.
    pub store: Store,
    /// For each memory state, the diagram whose leaf is the next memory state.
    pub nodes: Vec<Node>,
    /// For each memory state, one diagram for each proposition of the machine's player, ascending. It has a leaf at the
    /// input letters at which the proposition is true in the output letter.
    pub bits: Vec<Vec<Node>>,
}

/// A player's finite machine, like `Machine`: in each step it reads a letter of the other player, outputs a letter, and
/// enters a memory state. A diagram of each memory state has the next memory states as its leaves, and for each
/// proposition that is output, another has a leaf where this proposition is true. So there may be many output letters.
#[derive(Drop)]
pub struct BitMachine {
    player: Player,
    moves_first: bool,
    propositions: Propositions,
    parts: BitParts,
}

impl Model for BitMachine {
    ghost use Rattle.ps_machine.specs.BitMachines.{BitMachineData, IsWholeBitMachine};
    ghost use Rattle.ps_machine.specs.Inner.Stored.{bit_machine_of};

    ghost Value = { BitMachineData };

    ghost view = { λ m. bit_machine_of m.player m.moves_first m.propositions m.parts };

    ghost invariant = { λ m. IsWholeBitMachine (bit_machine_of m.player m.moves_first m.propositions m.parts) };
}

impl BitMachine {
    pub(crate) fn new(
        player: Player,
        moves_first: bool,
        propositions: Propositions,
        parts: BitParts,
    ) -> BitMachine
        requires { IsWholeBitMachine (bit_machine_of player moves_first propositions parts) }
        ensures { result ≡ bit_machine_of player moves_first propositions parts }
    {
        BitMachine {
            player,
            moves_first,
            propositions,
            parts,
        }
    }

    /// The names of the propositions, at most 64: different, not empty, and without control bytes.
    pub fn names(&self) -> &[Vec<u8>]
        ensures names { map bytes_of result.now ≡ self.now.names }
        ensures machine { IsWholeBitMachine self.now }
    {
        &self.propositions.names
    }

    /// The other player's propositions, which the machine reads, ascending.
    pub fn inputs(&self) -> &[u32]
        ensures inputs { result.now ≡ self.now.inputs }
        ensures machine { IsWholeBitMachine self.now }
    {
        &self.propositions.inputs
    }

    /// The propositions that the machine outputs, ascending.
    pub fn outputs(&self) -> &[u32]
        ensures outputs { result.now ≡ self.now.outputs }
        ensures machine { IsWholeBitMachine self.now }
    {
        &self.propositions.outputs
    }

    /// The machine's player: 0 is the controller, 1 the environment.
    pub fn player(&self) -> Player
        ensures player { result ≡ self.now.player }
        ensures machine { IsWholeBitMachine self.now }
    {
        self.player
    }

    /// Whether the machine's player moves first, so that its output does not depend on the input.
    pub fn moves_first(&self) -> bool
        ensures first { result ≡ self.now.is_first }
        ensures machine { IsWholeBitMachine self.now }
    {
        self.moves_first
    }

    /// The number of memory states, at least one.
    pub fn memories(&self) -> usize
        ensures memories { result ≡ (bit_behaviour self.now).memories }
        ensures machine { IsWholeBitMachine self.now }
    {
        self.parts.nodes.len()
    }

    /// The store of the diagrams.
    pub fn store(&self) -> &Store
        ensures store { result.now ≡ self.now.store }
        ensures propositions { result.now.propositions ≡ length self.now.names }
        ensures machine { IsWholeBitMachine self.now }
    {
        &self.parts.store
    }

    /// The diagram of a memory state. Its leaf at an input letter is the next memory state.
    pub fn node(&self, memory: usize) -> Node
        requires { memory < (bit_behaviour self.now).memories }
        ensures node { result ≡ slice_index self.now.nodes memory }
        ensures held { IsNode self.now.store result }
    {
        self.parts.nodes[memory]
    }

    /// The diagram of a memory state for the output proposition at this place. It has a leaf at an input letter if this
    /// proposition is true in the output letter.
    pub fn bit(&self, memory: usize, place: usize) -> Node
        requires memory { memory < (bit_behaviour self.now).memories }
        requires place { place < length self.now.outputs }
        ensures bit { result ≡ slice_index (bits_in self.now memory) place }
        ensures held { IsNode self.now.store result }
    {
        self.parts.bits[memory][place]
    }
}
