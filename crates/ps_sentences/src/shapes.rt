//! What a formula is a conjunction of, seen at its outermost operator.

ghost use Rattle.std.specs.Prelude.{◌<◌, IfOk, length};
ghost use Rattle.ps_formula.specs.Formulas.{formula_at, iff, not_of, or_of};
ghost use Rattle.ps_sentences.specs.Inner.Shapes.{IsShapeOf};

use crate::layers::Layer;
use ps_formula::{Formulas, Node};
use std::alloc::AllocError;

/// What a formula is equivalent to; formulas are given by their indices.
#[derive(Clone, Copy, Debug)]
pub(crate) enum Shape {
    /// `true`.
    True,
    /// The conjunction of two formulas.
    Both(u32, u32),
    /// A formula within a layer.
    Within(Layer, u32),
    /// Nothing is known: the formula stays whole.
    Whole,
}

/// The shape of a formula.
pub(crate) fn shape_of(table: &mut Formulas, index: u32) -> Result<Shape, AllocError>
    requires { index < length table.old }
    ensures { IfOk result (IsShapeOf (formula_at table.old index) table.old table.new) }
{
    let node = table.as_slice()[index as usize];
    match node {
        Node::Constant(true) => Ok(Shape::True),
        Node::And(f, g) => Ok(Shape::Both(f, g)),
        Node::Implies(f, g) => Ok(Shape::Within(Layer::Given(f), g)),
        Node::Iff(f, g) => shape_of_iff(table, f, g),
        Node::Next(f) => Ok(Shape::Within(Layer::Next, f)),
        Node::Globally(f) => Ok(Shape::Within(Layer::Globally, f)),
        Node::WeakUntil(f, g) => Ok(Shape::Within(Layer::Unless(g), f)),
        Node::Not(f) => shape_of_negation(table, f),
        _ => Ok(Shape::Whole),
    }
}

/// `f <-> g` is `f -> g` and `g -> f`.
fn shape_of_iff(table: &mut Formulas, f: u32, g: u32) -> Result<Shape, AllocError>
    requires f { f < length table.old }
    requires g { g < length table.old }
    ensures { IfOk result (IsShapeOf (iff (formula_at table.old f) (formula_at table.old g)) table.old table.new) }
{
    let right = table.add(Node::Implies(f, g))?;
    let left = table.add(Node::Implies(g, f))?;
    Ok(Shape::Both(right, left))
}

/// The shape of the negation of a formula.
fn shape_of_negation(table: &mut Formulas, index: u32) -> Result<Shape, AllocError>
    requires { index < length table.old }
    ensures { IfOk result (IsShapeOf (not_of (formula_at table.old index)) table.old table.new) }
{
    let node = table.as_slice()[index as usize];
    match node {
        Node::Constant(false) => Ok(Shape::True),
        Node::Or(f, g) => shape_of_neither(table, f, g),
        Node::Finally(f) => {
            let never = table.add(Node::Not(f))?;
            Ok(Shape::Within(Layer::Globally, never))
        }
        Node::Next(f) => {
            let not_then = table.add(Node::Not(f))?;
            Ok(Shape::Within(Layer::Next, not_then))
        }
        _ => Ok(Shape::Whole),
    }
}

/// `!(f || g)` is `!f` and `!g`.
fn shape_of_neither(table: &mut Formulas, f: u32, g: u32) -> Result<Shape, AllocError>
    requires f { f < length table.old }
    requires g { g < length table.old }
    ensures { IfOk result (IsShapeOf (not_of (or_of (formula_at table.old f) (formula_at table.old g))) table.old
        table.new) }
{
    let not_first = table.add(Node::Not(f))?;
    let not_second = table.add(Node::Not(g))?;
    Ok(Shape::Both(not_first, not_second))
}
