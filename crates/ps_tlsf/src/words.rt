//! The kinds of tokens, and the words that have a meaning of their own.

ghost use Rattle.std.specs.Prelude.{◌≡◌};
ghost use Rattle.std.specs.Str.{bytes_eq};
ghost use Rattle.ps_tlsf.specs.Words.{word_sign, info_word, section_word, formula_word, is_word as is_word_sign};

/// An item of the part `INFO`.
#[derive(Clone, Copy, Debug, PartialEq, Eq)]
pub enum Item {
    Title,
    Description,
    Tags,
    Semantics,
    Target,
}

/// In a step, the inputs come first under Mealy, the outputs under Moore.
#[derive(Clone, Copy, Debug, PartialEq, Eq)]
pub enum Order {
    Mealy,
    Moore,
}

/// Who sets a proposition: the environment (`INPUTS`) or the controller (`OUTPUTS`).
#[derive(Clone, Copy, Debug, PartialEq, Eq)]
pub enum Side {
    Inputs,
    Outputs,
}

/// A kind of section with formulas.
#[derive(Clone, Copy, Debug, PartialEq, Eq)]
pub enum Section {
    Initially,
    Preset,
    /// `REQUIRE` or `REQUIREMENTS`
    Require,
    /// `ASSERT` or `INVARIANTS`
    Assert,
    /// `ASSUME` or `ASSUMPTIONS`
    Assume,
    /// `GUARANTEE` or `GUARANTEES`
    Guarantee,
}

/// An operator before its operand.
#[derive(Clone, Copy, Debug, PartialEq, Eq)]
pub enum Prefix {
    /// `!`
    Not,
    /// `X`
    Next,
    /// `F`
    Finally,
    /// `G`
    Globally,
}

/// An operator between its two operands.
#[derive(Clone, Copy, Debug, PartialEq, Eq)]
pub enum Infix {
    /// `&&`
    And,
    /// `||`
    Or,
    /// `->`
    Implies,
    /// `<->`
    Iff,
    /// `U`
    Until,
    /// `R`
    Release,
    /// `W`
    WeakUntil,
}

/// The kind of a token.
#[derive(Clone, Copy, Debug, PartialEq, Eq)]
pub enum Sign {
    /// `INFO`
    Info,
    /// `MAIN`
    Main,
    /// The name of an item of `INFO`.
    Item(Item),
    /// `Mealy` or `Moore`
    Order(Order),
    /// `Strict`
    Strict,
    /// `INPUTS` or `OUTPUTS`
    Names(Side),
    /// The name of a section with formulas.
    Section(Section),
    /// `!`, `X`, `F` or `G`
    Prefix(Prefix),
    /// `&&`, `||`, `->`, `<->`, `U`, `R` or `W`
    Infix(Infix),
    /// `true` or `false`
    Constant(bool),
    /// Any other word.
    Word,
    /// A string between quotes.
    Text,
    /// `{`
    LeftBrace,
    /// `}`
    RightBrace,
    /// `(`
    LeftParen,
    /// `)`
    RightParen,
    /// `;`
    Semicolon,
    /// `:`
    Colon,
    /// `,`
    Comma,
    /// A byte that begins no token, or the first byte of a string or comment that is not closed.
    Wrong,
}

/// Whether a token is a word.
pub(crate) fn is_word(sign: Sign) -> bool
    ensures { result ≡ is_word_sign sign }
{
    match sign {
        Sign::Info => true,
        Sign::Main => true,
        Sign::Item(_) => true,
        Sign::Order(_) => true,
        Sign::Strict => true,
        Sign::Names(_) => true,
        Sign::Section(_) => true,
        Sign::Prefix(Prefix::Not) => false,
        Sign::Prefix(_) => true,
        Sign::Infix(Infix::Until) => true,
        Sign::Infix(Infix::Release) => true,
        Sign::Infix(Infix::WeakUntil) => true,
        Sign::Constant(_) => true,
        Sign::Word => true,
        _ => false,
    }
}

/// The kind of a word.
#[tactic(auto, unfolding(crate::specs::Words::word_sign))]
pub(crate) fn word_sign(text: &[u8]) -> Sign
    ensures { result ≡ word_sign text.now }
{
    if let Some(sign) = formula_word(text) {
        return sign;
    }
    if let Some(sign) = section_word(text) {
        return sign;
    }
    match info_word(text) {
        Some(sign) => sign,
        None => Sign::Word,
    }
}

/// The kind of a word that has a meaning in formulas.
#[tactic(auto, unfolding(crate::specs::Words::formula_word))]
fn formula_word(text: &[u8]) -> Option<Sign>
    ensures { result ≡ formula_word text.now }
{
    if is_same(text, b"X") {
        Some(Sign::Prefix(Prefix::Next))
    } else if is_same(text, b"F") {
        Some(Sign::Prefix(Prefix::Finally))
    } else if is_same(text, b"G") {
        Some(Sign::Prefix(Prefix::Globally))
    } else if is_same(text, b"U") {
        Some(Sign::Infix(Infix::Until))
    } else if is_same(text, b"R") {
        Some(Sign::Infix(Infix::Release))
    } else if is_same(text, b"W") {
        Some(Sign::Infix(Infix::WeakUntil))
    } else if is_same(text, b"true") {
        Some(Sign::Constant(true))
    } else if is_same(text, b"false") {
        Some(Sign::Constant(false))
    } else {
        None
    }
}

/// The kind of a word that begins a section.
#[tactic(auto, unfolding(crate::specs::Words::section_word))]
fn section_word(text: &[u8]) -> Option<Sign>
    ensures { result ≡ section_word text.now }
{
    if is_same(text, b"INPUTS") {
        Some(Sign::Names(Side::Inputs))
    } else if is_same(text, b"OUTPUTS") {
        Some(Sign::Names(Side::Outputs))
    } else if is_same(text, b"INITIALLY") {
        Some(Sign::Section(Section::Initially))
    } else if is_same(text, b"PRESET") {
        Some(Sign::Section(Section::Preset))
    } else if is_same(text, b"REQUIRE") || is_same(text, b"REQUIREMENTS") {
        Some(Sign::Section(Section::Require))
    } else if is_same(text, b"ASSERT") || is_same(text, b"INVARIANTS") {
        Some(Sign::Section(Section::Assert))
    } else if is_same(text, b"ASSUME") || is_same(text, b"ASSUMPTIONS") {
        Some(Sign::Section(Section::Assume))
    } else if is_same(text, b"GUARANTEE") || is_same(text, b"GUARANTEES") {
        Some(Sign::Section(Section::Guarantee))
    } else {
        None
    }
}

/// The kind of a word of `INFO`, or that begins a part.
#[tactic(auto, unfolding(crate::specs::Words::info_word))]
fn info_word(text: &[u8]) -> Option<Sign>
    ensures { result ≡ info_word text.now }
{
    if is_same(text, b"INFO") {
        Some(Sign::Info)
    } else if is_same(text, b"MAIN") {
        Some(Sign::Main)
    } else if is_same(text, b"TITLE") {
        Some(Sign::Item(Item::Title))
    } else if is_same(text, b"DESCRIPTION") {
        Some(Sign::Item(Item::Description))
    } else if is_same(text, b"TAGS") {
        Some(Sign::Item(Item::Tags))
    } else if is_same(text, b"SEMANTICS") {
        Some(Sign::Item(Item::Semantics))
    } else if is_same(text, b"TARGET") {
        Some(Sign::Item(Item::Target))
    } else if is_same(text, b"Mealy") {
        Some(Sign::Order(Order::Mealy))
    } else if is_same(text, b"Moore") {
        Some(Sign::Order(Order::Moore))
    } else if is_same(text, b"Strict") {
        Some(Sign::Strict)
    } else {
        None
    }
}

#[inline(always)]
pub(crate) fn is_same(text: &[u8], word: &[u8]) -> bool
    ensures { result ≡ bytes_eq text.now word.now }
{
    text == word
}
