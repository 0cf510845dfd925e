//! An automaton as its text states it.

ghost use Rattle.std.specs.Prelude.{◌≡◌, map, option_copied, option_map};
ghost use Rattle.ps_label.specs.Truth.{expressions};
ghost use Rattle.ps_hoa.specs.Edges.{row_of};
ghost use Rattle.ps_hoa.specs.Values.{condition_of};
ghost use Rattle.ps_hoa.specs.Memory.{bytes_of};
ghost use Rattle.ps_hoa.specs.Sound.{IsSoundFile};
ghost use Rattle.ps_hoa.specs.Views.{row_data};

use crate::body::rows::Rows;
use crate::condition::Cond;
use crate::header::indices::Indices;
use crate::header::propositions::Propositions;
use crate::marks::Marks;
use ps_label::{Label, Labels};
use std::marker::Model;

/// The letters at which an edge is taken (HOA v1, body: labels of edges and of states, implicit labels).
#[derive(Debug, Drop)]
pub enum Guard {
    /// Those at which the edge's own label is true.
    Stated(Label),
    /// Those at which the label of its state is true.
    OfState,
    /// Only this letter, which is also the index of the edge in its state's row. Proposition `i` is bit `i`.
    Letter(u64),
}

/// An edge of a state (HOA v1, body).
#[derive(Debug, Drop)]
pub struct Edge {
    /// The letters at which the edge is taken.
    pub guard: Guard,
    /// The state to which the edge leads.
    pub target: u32,
    /// The edge's acceptance sets, each once, in the order in which the text first names them.
    pub marks: Marks,
}

/// What the text states about a state (HOA v1, `State:` in the body).
#[derive(Debug, Drop)]
pub struct Row {
    /// The state's number.
    pub state: u32,
    /// The label of all edges of the state, if it has one.
    pub label: Option<Label>,
    /// The state's acceptance sets, each once, in the order in which the text first names them.
    pub marks: Marks,
    /// The edges, in the order of the text.
    pub edges: Vec<Edge>,
}

/// An automaton as its text states it. A state without a row has no edges.
#[derive(Debug, Drop)]
pub struct HoaFile {
    pub(crate) states: u32,
    pub(crate) start: u32,
    pub(crate) names: Propositions,
    pub(crate) controllable: Indices,
    pub(crate) aliases: Labels,
    pub(crate) sets: u32,
    pub(crate) condition: Cond,
    pub(crate) rows: Rows,
}

impl Model for HoaFile {
    ghost use Rattle.ps_hoa.specs.Files.{FileData};
    ghost use Rattle.ps_hoa.specs.Codes.{file_code};

    ghost Value = { FileData };

    ghost coded = { file_code };

    ghost use Rattle.ps_hoa.specs.FileViews.{file_data};
    ghost use Rattle.ps_hoa.specs.Sound.{IsSoundFile};

    ghost view = { file_data };

    ghost invariant = { λ f. IsSoundFile (file_data f) };
}

impl HoaFile {
    /// The number of states.
    pub fn states(&self) -> u32
        ensures value { result ≡ self.now.states }
        ensures well_formed { IsSoundFile self.now }
    {
        self.states
    }

    /// The start state.
    pub fn start(&self) -> u32
        ensures value { result ≡ self.now.start }
        ensures well_formed { IsSoundFile self.now }
    {
        self.start
    }

    /// The names of the propositions.
    pub fn names(&self) -> &[Vec<u8>]
        ensures value { map bytes_of result.now ≡ self.now.names }
        ensures well_formed { IsSoundFile self.now }
    {
        self.names.as_slice()
    }

    /// The controllable propositions, each once, in the order in which the text first names them.
    pub fn controllable(&self) -> &[u32]
        ensures value { result.now ≡ self.now.controllable }
        ensures well_formed { IsSoundFile self.now }
    {
        self.controllable.as_slice()
    }

    /// The aliases, in the order of their definitions.
    pub fn aliases(&self) -> &Labels
        ensures value { expressions result.now ≡ self.now.aliases }
        ensures well_formed { IsSoundFile self.now }
    {
        &self.aliases
    }

    /// The number of acceptance sets.
    pub fn sets(&self) -> u32
        ensures value { result ≡ self.now.sets }
        ensures well_formed { IsSoundFile self.now }
    {
        self.sets
    }

    /// The acceptance condition.
    pub fn condition(&self) -> &Cond
        ensures value { condition_of result.now ≡ self.now.condition }
        ensures well_formed { IsSoundFile self.now }
    {
        &self.condition
    }

    /// The rows of the body, in the order of the text.
    pub fn rows(&self) -> &[Row]
        ensures value { map row_data result.now ≡ self.now.rows }
        ensures well_formed { IsSoundFile self.now }
    {
        self.rows.as_slice()
    }

    /// The row of a state, if there is one.
    pub fn row(&self, state: u32) -> Option<&Row>
        ensures value { option_map row_data (option_copied result) ≡ row_of self.now state }
        ensures well_formed { IsSoundFile self.now }
    {
        self.rows.of_state(state)
    }
}
