//! The rows of a body.

ghost use Rattle.std.specs.Prelude.{◌≡◌, ℕ, ◌+◌, ◌<◌, ◌≤◌, None, OnOk, false, length, map, option_map, option_copied};
ghost use Rattle.std.specs.Prelude.{slice_get, slice_index_or, vec_len};
ghost use Rattle.ps_hoa.specs.Grammar.Body.{edge_limit};
ghost use Rattle.ps_hoa.specs.Edges.{row_among};
ghost use Rattle.ps_hoa.specs.Inner.RowPlaces.{row_place};
ghost use Rattle.ps_hoa.specs.Views.{row_data};

use crate::file::Row;
use std::alloc::{AllocError, Global};

/// The rows of a body so far, and the number of their edges.
#[derive(Debug, Drop)]
pub(crate) struct Rows {
    rows: Vec<Row>,
    /// For each state up to the greatest one that has a row, the index of its row. Every state is less than 65,535, so
    /// the table is small.
    places: Vec<Option<usize>>,
    edges: usize,
    ghost places_are: { (state : ℕ) →
        slice_index_or places.items state None ≡ row_place state (map row_data rows.items) },
    ghost within: { edges ≤ edge_limit },
}

impl Rows {
    ghost use Rattle.ps_hoa.specs.Grammar.Body.{has_row, last_row, no_rows, with_row};
    ghost use Rattle.ps_hoa.specs.Inner.Rows.{body_data};

    pub(crate) fn new(alloc: Global) -> Self
        ensures { body_data result ≡ no_rows }
    {
        Rows {
            rows: Vec::new(alloc),
            places: Vec::new(alloc),
            edges: 0,
        }
    }

    /// The number of edges in all rows.
    pub(crate) fn edges(&self) -> usize
        ensures value { result ≡ (body_data self.now).edges }
        ensures within { result ≤ edge_limit }
    {
        self.edges
    }

    pub(crate) fn has(&self, state: u32) -> bool
        ensures { result ≡ has_row state (body_data self.now).rows }
    {
        self.place(state).is_some()
    }

    /// The row that was added last.
    pub(crate) fn last(&self) -> Option<&Row>
        ensures { option_map row_data (option_copied result) ≡ last_row (body_data self.now) }
    {
        self.rows.last()
    }

    /// Adds the row of a state that has none yet.
    pub(crate) fn push(&mut self, row: Row) -> Result<(), AllocError>
        requires new { has_row row.state (body_data self.old).rows ≡ false }
        requires within { (body_data self.old).edges + length row.edges.items ≤ edge_limit }
        ensures { OnOk result (body_data self.new ≡ with_row (body_data self.old) (row_data row)) }
    {
        self.rows.reserve(1)?;
        extend(&mut self.places, row.state)?;
        self.places[row.state as usize] = Some(self.rows.len());
        self.edges += row.edges.len();
        self.rows.push(row).unwrap();
        Ok(())
    }

    /// The rows, in the order in which they were added.
    pub(crate) fn as_slice(&self) -> &[Row]
        ensures { map row_data result.now ≡ (body_data self.now).rows }
    {
        self.rows.as_slice()
    }

    /// The row of a state, if there is one.
    pub(crate) fn of_state(&self, state: u32) -> Option<&Row>
        ensures { option_map row_data (option_copied result) ≡ row_among (body_data self.now).rows state }
    {
        let place = self.place(state)?;
        row_at(&self.rows, place)
    }

    /// The index of a state's row.
    fn place(&self, state: u32) -> Option<usize>
        ensures { result ≡ row_place state (body_data self.now).rows }
    {
        let state = state as usize;
        if state < self.places.len() {
            self.places[state]
        } else {
            None
        }
    }
}

/// Extends a table by `None`, so that it has an entry for the state.
fn extend(places: &mut Vec<Option<usize>>, state: u32) -> Result<(), AllocError>
    ensures same { (other : ℕ) →
        slice_index_or places.new.items other None ≡ slice_index_or places.old.items other None }
    ensures reaches { OnOk result (state < vec_len places.new) }
{
    let state = state as usize;
    if places.len() <= state {
        places.resize(state + 1, None)?;
    }
    Ok(())
}

fn row_at(rows: &[Row], place: usize) -> Option<&Row>
    ensures { option_copied result ≡ slice_get rows.now place }
{
    rows.get(place)
}
