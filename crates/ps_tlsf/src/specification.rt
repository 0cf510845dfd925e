//! Specifications.

ghost use Rattle.std.specs.Prelude.{◌≡◌, ◌<◌, IfOk, length, map};
ghost use Rattle.ps_tlsf.specs.Specifications.{order_of as order_in, section_formula, specification_of};
ghost use Rattle.ps_tlsf.specs.SpecificationViews.{HasRoots, specification_data};
ghost use Rattle.ps_tlsf.specs.Inner.Placing.{ArePlaced};
ghost use Rattle.ps_tlsf.specs.Inner.StateViews.{state_data, written_data};

use crate::heading::Span;
use crate::names::Proposition;
use crate::steps::{State, Written};
use crate::trees::add_formula;
use crate::whole::whole;
use crate::words::{Order, Section};
use ps_formula::Formulas;
use std::alloc::{AllocError, Global};

/// A formula of a section.
#[derive(Clone, Copy, Debug)]
pub struct SectionFormula {
    pub section: Section,
    /// Its part of the text.
    pub span: Span,
    /// Its index in the table.
    pub root: u32,
}

/// A specification in TLSF's basic form.
#[derive(Debug, Drop)]
pub struct Specification {
    /// The string of `TITLE`, with its quotes.
    pub title: Option<Span>,
    /// The inputs and outputs, numbered in the order of their declarations.
    pub propositions: Vec<Proposition>,
    /// The order of `SEMANTICS` and `TARGET`.
    pub order: Order,
    /// Whether `SEMANTICS` has the word `Strict`.
    pub is_strict: bool,
    /// The formulas of the sections, in the order of the text.
    pub formulas: Vec<SectionFormula>,
    /// The table with all formulas.
    pub table: Formulas,
    /// The index of the whole formula.
    pub root: u32,
}

/// Adds the formulas of the sections to the table.
fn place(
    alloc: Global,
    table: &mut Formulas,
    formulas: &[Written],
) -> Result<Vec<SectionFormula>, AllocError>
    ensures { IfOk result
        (λ list. ArePlaced table.old table.new list.items (map section_formula (map written_data formulas.now))) }
{
    let mut list = Vec::new(alloc);
    for formula in formulas {
        let root = add_formula(alloc, table, formula.ops.as_slice())?;
        list.push(SectionFormula {
            section: formula.section,
            span: Span {
                start: formula.start,
                stop: formula.stop,
            },
            root,
        })?;
    }
    Ok(list)
}

fn order_of(order: Option<Order>) -> Order
    ensures { result ≡ order_in order }
{
    match order {
        None => Order::Mealy,
        Some(order) => order,
    }
}

/// The specification that was read.
pub(crate) fn made_of(alloc: Global, state: State) -> Result<Specification, AllocError>
    ensures meaning { IfOk result (λ s. specification_data s ≡ specification_of (state_data state)) }
    ensures roots { IfOk result HasRoots }
{
    let mut table = Formulas::new(alloc);
    let formulas = place(alloc, &mut table, state.formulas.as_slice())?;
    let ops = whole(alloc, state.formulas.as_slice(), state.heading.is_strict)?;
    let root = add_formula(alloc, &mut table, ops.as_slice())?;
    Ok(Specification {
        title: state.heading.title,
        propositions: state.names.into_list(),
        order: order_of(state.heading.target),
        is_strict: state.heading.is_strict,
        formulas,
        table,
        root,
    })
}
