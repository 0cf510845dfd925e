//! A formula as the conjunction of two.

ghost use Rattle.std.specs.Prelude.{◌<◌, IfOk, length};
ghost use Rattle.ps_formula.specs.Formulas.{formula_at};
ghost use Rattle.ps_sentences.specs.Inner.Conjuncts.{IsSplitOf, SplitsWithin, TakesStep, TakesSteps};
ghost use Rattle.ps_sentences.specs.Inner.Layers.{AreLayers};
ghost use Rattle.ps_sentences.specs.Inner.Shapes.{IsShapeOf};

use crate::layers::Layer;
use crate::shapes::{Shape, shape_of};
use ps_formula::Formulas;
use std::alloc::{AllocError, Global};

/// What a formula is a conjunction of; formulas are given by their indices.
#[derive(Clone, Copy, Debug)]
pub(crate) enum Split {
    /// Of nothing: it is equivalent to `true`.
    True,
    /// Of two formulas.
    Both(u32, u32),
    /// The formula stays whole.
    Whole,
}

/// The shape of a formula, for one of the steps that are left.
pub(crate) fn next_shape(
    table: &mut Formulas,
    index: u32,
    steps: &mut usize,
) -> Result<Shape, AllocError>
    requires { index < length table.old }
    ensures shape { IfOk result (IsShapeOf (formula_at table.old index) table.old table.new) }
    ensures steps { IfOk result (TakesStep steps.old steps.new) }
{
    if *steps == 0 {
        return Ok(Shape::Whole);
    }
    *steps -= 1;
    shape_of(table, index)
}

/// A formula as a conjunction of two, looked for through layers.
pub(crate) fn split_of(
    alloc: Global,
    table: &mut Formulas,
    index: u32,
    steps: &mut usize,
) -> Result<Split, AllocError>
    requires { index < length table.old }
    ensures split { IfOk result (IsSplitOf (formula_at table.old index) table.old table.new) }
    ensures steps { IfOk result (TakesSteps steps.old steps.new) }
{
    let mut layers = Vec::new(alloc);
    let mut inner = index;
    while *steps > 0 {
        *steps -= 1;
        match shape_of(table, inner)? {
            Shape::True => return Ok(Split::True),
            Shape::Whole => return Ok(Split::Whole),
            Shape::Both(f, g) => return both_within(table, layers, f, g),
            Shape::Within(layer, f) => {
                layers.push(layer)?;
                inner = f;
            }
        }
    }
    Ok(Split::Whole)
}

/// Both formulas within the layers, of which the first is outermost.
fn both_within(
    table: &mut Formulas,
    mut layers: Vec<Layer>,
    mut first: u32,
    mut second: u32,
) -> Result<Split, AllocError>
    requires layers { AreLayers table.old layers.items }
    requires first { first < length table.old }
    requires second { second < length table.old }
    ensures { IfOk result (SplitsWithin layers.items first second table.old table.new) }
{
    while let Some(layer) = layers.pop() {
        first = table.add(layer.around(first))?;
        second = table.add(layer.around(second))?;
    }
    Ok(Split::Both(first, second))
}
