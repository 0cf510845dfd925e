//! Assembles a file from a header and a body.

ghost use Rattle.std.specs.Prelude.{◌≡◌, ◌≤◌, IfErr, IfOk, map, option_map};
ghost use Rattle.ps_text.specs.declared.faults.Fault.TheVariants as faults;
ghost use Rattle.ps_label.specs.Expression.{AreOrdered};
ghost use Rattle.ps_label.specs.Truth.{expressions};
ghost use Rattle.ps_hoa.specs.Grammar.Body.{sets_of};
ghost use Rattle.ps_hoa.specs.Files as files;
ghost use Rattle.ps_hoa.specs.Grammar.Header.{names_of, state_limit, header_data};
ghost use Rattle.ps_hoa.specs.Inner.Rows.{body_data};
ghost use Rattle.ps_hoa.specs.Sound.{IsSoundFile};
ghost use Rattle.ps_hoa.specs.Texts.{file_of};
ghost use Rattle.ps_hoa.specs.Views.{edge_data, row_data};

use crate::body::rows::Rows;
use crate::condition::Cond;
use crate::fault::HoaFault;
use crate::file::{Edge, HoaFile, Row};
use crate::header::indices::Indices;
use crate::header::propositions::Propositions;
use crate::header::{Acceptance, Header};
use ps_label::{Label, Labels};
use std::alloc::{AllocError, Global};

pub(crate) fn file(alloc: Global, header: Header, rows: Rows) -> Result<HoaFile, HoaFault>
    requires { IsSoundFile (file_of (header_data header) (body_data rows)) }
    ensures value { IfOk result (λ file. file ≡ file_of (header_data header.entry) (body_data rows)) }
    ensures memory { IfErr result (λ fault. fault ≡ faults.OutOfMemory) }
{
    let Header {
        states,
        start,
        names,
        controllable,
        aliases,
        acceptance,
        ..
    } = header;
    let start = start.unwrap_or(0);
    let states = count_of_states(states, start, rows.as_slice());
    let aliases = labels(alloc, aliases)?;
    let Acceptance { sets, condition } = acceptance.unwrap_or(Acceptance {
        sets: 0,
        condition: Cond::Always,
    });
    Ok(HoaFile {
        states,
        start,
        names: names.unwrap_or(Propositions::new(alloc)),
        controllable: controllable.unwrap_or(Indices::new(alloc)),
        aliases,
        sets,
        condition,
        rows,
    })
}

/// The aliases, each of which uses only earlier ones.
fn labels(alloc: Global, aliases: Vec<Label>) -> Result<Labels, AllocError>
    requires { AreOrdered (expressions aliases.items) }
    ensures { IfOk result (λ labels. labels ≡ aliases.items) }
{
    let mut labels = Labels::new(alloc);
    for alias in aliases {
        labels.push(alias)?;
    }
    Ok(labels)
}

/// What the header states, or else one more than the greatest state that the text names.
fn count_of_states(states: Option<u32>, start: u32, rows: &[Row]) -> u32
    requires { files.count_of_states states start (map row_data rows.now) ≤ state_limit }
    ensures { result ≡ files.count_of_states states start (map row_data rows.now) }
{
    match states {
        Some(states) => states,
        None => greatest_state(start, rows) + 1,
    }
}

/// The greatest of `named`, the states of the rows, and the targets of their edges.
fn greatest_state(named: u32, rows: &[Row]) -> u32
    ensures { result ≡ files.greatest_state named (map row_data rows.now) }
{
    let mut greatest = named;
    for row in rows {
        greatest = greatest_target(greatest.max(row.state), &row.edges);
    }
    greatest
}

/// The greatest of `named` and the targets of the edges.
fn greatest_target(named: u32, edges: &[Edge]) -> u32
    ensures { result ≡ files.greatest_target named (map edge_data edges.now) }
{
    let mut greatest = named;
    for edge in edges {
        greatest = greatest.max(edge.target);
    }
    greatest
}
