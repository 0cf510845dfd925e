//! Operators that distribute over `&&`.

ghost use Rattle.std.specs.Prelude.{◌≡◌, IfSome};
ghost use Rattle.ps_sentences.specs.Inner.Layers.{node_around};
ghost use Rattle.ps_sentences.specs.Inner.Sharing.{IsSharedBy};

use ps_formula::Node;

/// An operator with all its operands but one. Its conjunction with two operands is that of both results.
#[derive(Clone, Copy, Debug)]
pub(crate) enum Layer {
    /// `X _`
    Next,
    /// `G _`
    Globally,
    /// `f -> _`
    Given(u32),
    /// `_ W g`
    Unless(u32),
}

impl Layer {
    /// The node with this operand.
    pub(crate) fn around(self, operand: u32) -> Node
        ensures { result ≡ node_around self operand }
    {
        match self {
            Layer::Next => Node::Next(operand),
            Layer::Globally => Node::Globally(operand),
            Layer::Given(f) => Node::Implies(f, operand),
            Layer::Unless(g) => Node::WeakUntil(operand, g),
        }
    }
}

/// A layer with two operands.
#[derive(Clone, Copy, Debug)]
pub(crate) struct Shared {
    pub layer: Layer,
    pub first: u32,
    pub second: u32,
}

/// The layer that two nodes have in common, with their operands.
pub(crate) fn shared_layer(first: Node, second: Node) -> Option<Shared>
    ensures { IfSome result (IsSharedBy first second) }
{
    match (first, second) {
        (Node::Next(f), Node::Next(g)) => around_both(Layer::Next, f, g),
        (Node::Globally(f), Node::Globally(g)) => around_both(Layer::Globally, f, g),
        (Node::Implies(left, f), Node::Implies(other, g)) if left == other => {
            around_both(Layer::Given(left), f, g)
        }
        _ => None,
    }
}

fn around_both(layer: Layer, first: u32, second: u32) -> Option<Shared>
    ensures { result ≡ Some (record { layer = layer; first = first; second = second }) }
{
    Some(Shared {
        layer,
        first,
        second,
    })
}
