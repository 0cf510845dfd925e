//! What the part `INFO` says, and which items and lists of names have occurred.

ghost use Rattle.std.specs.Prelude.{◌≡◌};
ghost use Rattle.ps_tlsf.specs.Headings.{agrees, has_item, has_list, heading_behind, no_heading, with_item, with_list};
ghost use Rattle.ps_tlsf.specs.Headings.{agree};
ghost use Rattle.ps_tlsf.specs.Inner.Views.{token_data};

use crate::phases::Phase;
use crate::tokens::Token;
use crate::words::{Item, Order, Side, Sign};

/// A part of the text.
#[derive(Clone, Copy, Debug, PartialEq, Eq)]
pub struct Span {
    /// The offset of the first byte.
    pub start: usize,
    /// The offset after the last byte.
    pub stop: usize,
}

/// What `INFO` says, and what has occurred.
#[derive(Clone, Copy, Debug)]
pub(crate) struct Heading {
    pub(crate) has_title: bool,
    pub(crate) has_description: bool,
    pub(crate) has_tags: bool,
    pub(crate) has_semantics: bool,
    pub(crate) has_target: bool,
    pub(crate) has_inputs: bool,
    pub(crate) has_outputs: bool,
    /// The string of `TITLE`, with its quotes.
    pub(crate) title: Option<Span>,
    /// The order of `SEMANTICS`.
    pub(crate) semantics: Option<Order>,
    /// The order of `TARGET`.
    pub(crate) target: Option<Order>,
    pub(crate) is_strict: bool,
}

impl Heading {
    pub(crate) fn new() -> Self
        ensures { result ≡ no_heading }
    {
        Heading {
            has_title: false,
            has_description: false,
            has_tags: false,
            has_semantics: false,
            has_target: false,
            has_inputs: false,
            has_outputs: false,
            title: None,
            semantics: None,
            target: None,
            is_strict: false,
        }
    }

    pub(crate) fn has_item(self, item: Item) -> bool
        ensures { result ≡ has_item self item }
    {
        match item {
            Item::Title => self.has_title,
            Item::Description => self.has_description,
            Item::Tags => self.has_tags,
            Item::Semantics => self.has_semantics,
            Item::Target => self.has_target,
        }
    }

    pub(crate) fn has_list(self, side: Side) -> bool
        ensures { result ≡ has_list self side }
    {
        match side {
            Side::Inputs => self.has_inputs,
            Side::Outputs => self.has_outputs,
        }
    }

    /// Records an item.
    pub(crate) fn with_item(mut self, item: Item) -> Self
        ensures { result ≡ with_item self item }
    {
        match item {
            Item::Title => self.has_title = true,
            Item::Description => self.has_description = true,
            Item::Tags => self.has_tags = true,
            Item::Semantics => self.has_semantics = true,
            Item::Target => self.has_target = true,
        }
        self
    }

    /// Records a list of names.
    pub(crate) fn with_list(mut self, side: Side) -> Self
        ensures { result ≡ with_list self side }
    {
        match side {
            Side::Inputs => self.has_inputs = true,
            Side::Outputs => self.has_outputs = true,
        }
        self
    }

    /// Whether `SEMANTICS` and `TARGET` name the same order.
    pub(crate) fn agrees(self) -> bool
        ensures { result ≡ agrees self }
    {
        agree(self.semantics, self.target)
    }

    /// The heading after a token that the phase allows, outside formulas.
    pub(crate) fn behind(mut self, phase: Phase, token: Token) -> Self
        ensures { result ≡ heading_behind phase (token_data token.entry) self }
    {
        match (phase, token.sign) {
            (Phase::Text(Item::Title), _) => {
                self.title = Some(Span {
                    start: token.start,
                    stop: token.stop,
                });
            }
            (Phase::Semantics, Sign::Order(order)) => self.semantics = Some(order),
            (Phase::Semantics, _) => self.is_strict = true,
            (Phase::StrictWord, _) => self.is_strict = true,
            (Phase::StrictOrder, Sign::Order(order)) => self.semantics = Some(order),
            (Phase::Target, Sign::Order(order)) => self.target = Some(order),
            _ => {}
        }
        self
    }
}

fn agree(semantics: Option<Order>, target: Option<Order>) -> bool
    ensures { result ≡ agree semantics target }
{
    match (semantics, target) {
        (Some(Order::Mealy), Some(Order::Mealy)) => true,
        (Some(Order::Moore), Some(Order::Moore)) => true,
        _ => false,
    }
}
