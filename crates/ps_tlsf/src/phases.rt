//! Which tokens may come next outside formulas.

ghost use Rattle.std.specs.Prelude.{◌≡◌};
ghost use Rattle.ps_tlsf.specs.Phases.{goes, item_or_close, first_value, section_or_close, tag_or};

use crate::words::{Item, Section, Side, Sign, is_word};

/// A section of `MAIN`.
#[derive(Clone, Copy, Debug, PartialEq, Eq)]
pub(crate) enum Block {
    Names(Side),
    Formulas(Section),
}

/// What may come next.
#[derive(Clone, Copy, Debug, PartialEq, Eq)]
pub(crate) enum Phase {
    /// `INFO`
    Info,
    /// The `{` of `INFO`.
    InfoBrace,
    /// An item, or `}`.
    Items,
    /// The `:` of an item.
    Colon(Item),
    /// The string of an item.
    Text(Item),
    /// The first tag, or what may follow an item.
    FirstTag,
    /// `,` and a tag, or what may follow an item.
    BehindTag,
    /// A tag.
    Tag,
    /// An order, or `Strict`.
    Semantics,
    /// `,` and `Strict`, or what may follow an item.
    BehindOrder,
    /// `Strict`
    StrictWord,
    /// `,` and an order.
    BehindStrict,
    /// An order after `Strict,`.
    StrictOrder,
    /// The order of `TARGET`.
    Target,
    /// `MAIN`
    Main,
    /// The `{` of `MAIN`.
    MainBrace,
    /// A section, or `}`.
    Sections,
    /// The `{` of a section.
    Brace(Block),
    /// A name, or `}`.
    Names(Side),
    /// `;` or `}`.
    BehindName(Side),
    /// A formula, or `}`.
    Formulas(Section),
    /// An operand of a formula.
    Operand(Section),
    /// What may follow it.
    Behind(Section),
    /// Nothing.
    End,
}

/// After an item, or the `{` of `INFO`.
fn item_or_close(sign: Sign) -> Option<Phase>
    ensures { result ≡ item_or_close sign }
{
    match sign {
        Sign::Item(item) => Some(Phase::Colon(item)),
        Sign::RightBrace => Some(Phase::Main),
        _ => None,
    }
}

/// After `TAGS:`, or `,` in its list. A tag is a word, except for the names of items.
fn tag_or(sign: Sign, other: Option<Phase>) -> Option<Phase>
    ensures { result ≡ tag_or sign other }
{
    match sign {
        Sign::Item(_) => other,
        _ if is_word(sign) => Some(Phase::BehindTag),
        _ => other,
    }
}

/// After the `:` of an item.
fn first_value(item: Item) -> Phase
    ensures { result ≡ first_value item }
{
    match item {
        Item::Title => Phase::Text(item),
        Item::Description => Phase::Text(item),
        Item::Tags => Phase::FirstTag,
        Item::Semantics => Phase::Semantics,
        Item::Target => Phase::Target,
    }
}

/// After a section, or the `{` of `MAIN`.
fn section_or_close(sign: Sign) -> Option<Phase>
    ensures { result ≡ section_or_close sign }
{
    match sign {
        Sign::Names(side) => Some(Phase::Brace(Block::Names(side))),
        Sign::Section(section) => Some(Phase::Brace(Block::Formulas(section))),
        Sign::RightBrace => Some(Phase::End),
        _ => None,
    }
}

/// After a token; `None` if it is not allowed, or is in a formula.
pub(crate) fn goes(phase: Phase, sign: Sign) -> Option<Phase>
    ensures { result ≡ goes phase sign }
{
    match (phase, sign) {
        (Phase::Info, Sign::Info) => Some(Phase::InfoBrace),
        (Phase::InfoBrace, Sign::LeftBrace) => Some(Phase::Items),
        (Phase::Items, _) => item_or_close(sign),
        (Phase::Colon(item), Sign::Colon) => Some(first_value(item)),
        (Phase::Text(_), Sign::Text) => Some(Phase::Items),
        (Phase::FirstTag, _) => tag_or(sign, item_or_close(sign)),
        (Phase::BehindTag, Sign::Comma) => Some(Phase::Tag),
        (Phase::BehindTag, _) => item_or_close(sign),
        (Phase::Tag, _) => tag_or(sign, None),
        (Phase::Semantics, Sign::Order(_)) => Some(Phase::BehindOrder),
        (Phase::Semantics, Sign::Strict) => Some(Phase::BehindStrict),
        (Phase::BehindOrder, Sign::Comma) => Some(Phase::StrictWord),
        (Phase::BehindOrder, _) => item_or_close(sign),
        (Phase::StrictWord, Sign::Strict) => Some(Phase::Items),
        (Phase::BehindStrict, Sign::Comma) => Some(Phase::StrictOrder),
        (Phase::StrictOrder, Sign::Order(_)) => Some(Phase::Items),
        (Phase::Target, Sign::Order(_)) => Some(Phase::Items),
        (Phase::Main, Sign::Main) => Some(Phase::MainBrace),
        (Phase::MainBrace, Sign::LeftBrace) => Some(Phase::Sections),
        (Phase::Sections, _) => section_or_close(sign),
        (Phase::Brace(Block::Names(side)), Sign::LeftBrace) => Some(Phase::Names(side)),
        (Phase::Brace(Block::Formulas(section)), Sign::LeftBrace) => Some(Phase::Formulas(section)),
        (Phase::Names(_), Sign::RightBrace) => Some(Phase::Sections),
        (Phase::Names(side), _) if is_word(sign) => Some(Phase::BehindName(side)),
        (Phase::BehindName(side), Sign::Semicolon) => Some(Phase::Names(side)),
        (Phase::BehindName(_), Sign::RightBrace) => Some(Phase::Sections),
        (Phase::Formulas(_), Sign::RightBrace) => Some(Phase::Sections),
        _ => None,
    }
}
