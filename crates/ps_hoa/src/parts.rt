//! Makes a file from its parts.

ghost use Rattle.std.specs.Prelude.{◌≡◌, ◌≤◌, IfOk, map};
ghost use Rattle.ps_hoa.specs.Grammar.Body.{edge_limit};
ghost use Rattle.ps_hoa.specs.Inner.Rows.{body_data};
ghost use Rattle.ps_hoa.specs.PartViews.{parts_data};
ghost use Rattle.ps_hoa.specs.Sound.{AreRowsOnce, IsSoundFile, edges_of};
ghost use Rattle.ps_hoa.specs.Views.{row_data};

use crate::body::rows::Rows;
use crate::condition::Cond;
use crate::file::{HoaFile, Row};
use crate::header::indices::Indices;
use crate::header::propositions::Propositions;
use ps_label::Labels;
use std::alloc::{AllocError, Global};

/// All that a file states, from which `HoaFile::of_parts` makes the file.
#[derive(Debug, Drop)]
pub struct HoaParts {
    /// The number of states.
    pub states: u32,
    /// The start state.
    pub start: u32,
    /// The names of the propositions.
    pub names: Vec<Vec<u8>>,
    /// The controllable propositions, each once.
    pub controllable: Vec<u32>,
    /// The aliases, in the order of their definitions.
    pub aliases: Labels,
    /// The number of acceptance sets.
    pub sets: u32,
    /// The acceptance condition.
    pub condition: Cond,
    /// The rows of the body, at most one for each state.
    pub rows: Vec<Row>,
}

impl HoaFile {
    /// The file with the given parts. Fails if out of memory.
    pub fn of_parts(alloc: Global, parts: HoaParts) -> Result<HoaFile, AllocError>
        requires { IsSoundFile (parts_data parts) }
        ensures { IfOk result (λ file. file ≡ parts_data parts) }
    {
        let rows = rows_of(alloc, parts.rows)?;
        Ok(HoaFile {
            states: parts.states,
            start: parts.start,
            names: Propositions::of_names(parts.names),
            controllable: Indices::of_numbers(parts.controllable),
            aliases: parts.aliases,
            sets: parts.sets,
            condition: parts.condition,
            rows,
        })
    }
}

fn rows_of(alloc: Global, rows: Vec<Row>) -> Result<Rows, AllocError>
    requires once { AreRowsOnce (map row_data rows.items) }
    requires few { edges_of (map row_data rows.items) ≤ edge_limit }
    ensures { IfOk result (λ made. (body_data made).rows ≡ map row_data rows.items) }
{
    let mut made = Rows::new(alloc);
    for row in rows {
        made.push(row)?;
    }
    Ok(made)
}
