//! Finite machines.

ghost use Rattle.std.specs.Prelude.{◌≡◌, ℕ, ◌<◌, ◌≤◌, IsTrue, length, map, slice_index};
ghost use Rattle.ps_hoa.specs.Memory.{bytes_of};
ghost use Rattle.ps_diagram.specs.Table.{IsNode};
ghost use Rattle.ps_machine.specs.Inner.Stored.{machine_of};
ghost use Rattle.ps_machine.specs.Machines.{IsWholeMachine, behaviour, row_at_leaf, machine_row};

use indexmap::IndexSet;
use ps_diagram::{Node, Store};
use ps_game::Player;
use std::marker::Model;

/// A row of a machine.
#[derive(Debug, Clone, Copy, PartialEq, Eq, Hash)]
pub struct Row {
    /// The next memory state.
    pub memory: usize,
    /// The letter that is output: proposition p is bit p.
    pub letter: u64,
}

#[derive(Drop)]
pub(crate) struct Propositions {
    pub names: Vec<Vec<u8>>,
    /// The propositions that it reads, ascending.
    pub inputs: Vec<u32>,
    /// The propositions that it outputs, ascending.
    pub outputs: Vec<u32>,
}

/// The diagrams of a machine, and its rows.
#[derive(Drop)]
pub(crate) struct MachineParts {
    /// The store of the diagrams.
    pub store: Store,
    /// The diagram of each memory state.
    pub nodes: Vec<Node>,
    /// The rows, whose indices are the leaves.
    pub rows: IndexSet<Row>,
}

/// A player's finite machine. It begins in memory state 0. In each step it reads a letter of the other player, which
/// with the memory state determines a row: it outputs the row's letter, and enters its memory state. If its player
/// moves first, the output does not depend on the input. Each leaf of the diagrams is the index of a row.
#[derive(Drop)]
pub struct Machine {
    player: Player,
    moves_first: bool,
    propositions: Propositions,
    diagrams: MachineParts,
}

impl Model for Machine {
    ghost use Rattle.ps_machine.specs.Inner.Stored.{machine_of};
    ghost use Rattle.ps_machine.specs.Machines.{MachineData, IsWholeMachine};

    ghost Value = { MachineData };

    ghost view = { λ m. machine_of m.player m.moves_first m.propositions m.diagrams };

    ghost invariant = { λ m. IsWholeMachine (machine_of m.player m.moves_first m.propositions m.diagrams) };
}

impl Machine {
    pub(crate) fn new(
        player: Player,
        moves_first: bool,
        propositions: Propositions,
        diagrams: MachineParts,
    ) -> Machine
        requires { IsWholeMachine (machine_of player moves_first propositions diagrams) }
        ensures { result ≡ machine_of player moves_first propositions diagrams }
    {
        Machine {
            player,
            moves_first,
            propositions,
            diagrams,
        }
    }

    /// The names of the propositions, at most 64: different, not empty, and without control bytes.
    pub fn names(&self) -> &[Vec<u8>]
        ensures names { map bytes_of result.now ≡ self.now.names }
        ensures machine { IsWholeMachine self.now }
    {
        &self.propositions.names
    }

    /// The other player's propositions, which the machine reads, ascending.
    pub fn inputs(&self) -> &[u32]
        ensures inputs { result.now ≡ self.now.inputs }
        ensures machine { IsWholeMachine self.now }
    {
        &self.propositions.inputs
    }

    /// The propositions that the machine outputs, ascending.
    pub fn outputs(&self) -> &[u32]
        ensures outputs { result.now ≡ self.now.outputs }
        ensures machine { IsWholeMachine self.now }
    {
        &self.propositions.outputs
    }

    /// The machine's player: 0 is the controller, 1 the environment.
    pub fn player(&self) -> Player
        ensures player { result ≡ self.now.player }
        ensures machine { IsWholeMachine self.now }
    {
        self.player
    }

    /// The parts fit: in each memory state, each letter leads to a row. The prover learns it here.
    pub fn parts_fit(&self)
        ensures { IsWholeMachine self.now }
    {
        self.player();
    }

    /// Whether the machine's player moves first, so that its output does not depend on the input.
    pub fn moves_first(&self) -> bool
        ensures first { result ≡ self.now.is_first }
        ensures machine { IsWholeMachine self.now }
    {
        self.moves_first
    }

    /// The number of memory states, at least one.
    pub fn memories(&self) -> usize
        ensures memories { result ≡ (behaviour self.now).memories }
        ensures machine { IsWholeMachine self.now }
    {
        self.diagrams.nodes.len()
    }

    /// The store of the diagrams.
    pub fn store(&self) -> &Store
        ensures store { result.now ≡ self.now.store }
        ensures propositions { result.now.propositions ≡ length self.now.names }
        ensures machine { IsWholeMachine self.now }
    {
        &self.diagrams.store
    }

    /// The diagram of a memory state. Its leaf at an input letter is the index of a row.
    pub fn node(&self, memory: usize) -> Node
        requires { memory < (behaviour self.now).memories }
        ensures node { result ≡ slice_index self.now.nodes memory }
        ensures held { IsNode self.now.store result }
    {
        self.diagrams.nodes[memory]
    }

    /// The row whose index is a leaf.
    pub fn row(&self, leaf: u64) -> Row
        requires { leaf < length self.now.rows }
        ensures row { result ≡ row_at_leaf self.now leaf }
        ensures within { result.memory < (behaviour self.now).memories }
    {
        self.diagrams.rows.as_slice()[leaf as usize]
    }

    /// The rows, whose indices are the leaves of the diagrams.
    pub fn rows(&self) -> &[Row]
        ensures rows { result.now ≡ self.now.rows }
        ensures machine { IsWholeMachine self.now }
    {
        self.diagrams.rows.as_slice()
    }

    /// The row for a memory state and an input letter.
    pub fn step(&self, memory: usize, letter: u64) -> Row
        requires { memory < (behaviour self.now).memories }
        ensures step { result ≡ machine_row self.now memory letter }
        ensures within { result.memory < (behaviour self.now).memories }
    {
        match self
            .diagrams
            .store
            .eval(self.diagrams.nodes[memory], letter)
        {
            Some(leaf) => self.diagrams.rows.as_slice()[leaf as usize],
            None => unreachable!(),
        }
    }
}
