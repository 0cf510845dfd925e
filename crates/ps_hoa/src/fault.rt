//! The errors of HOA texts.

ghost use Rattle.ps_hoa.specs.CauseNames.{cause_name};
ghost use Rattle.ps_hoa.specs.Causes.{cause_number};

use ps_text::faults::{Cause, Fault};

/// Why an HOA text is rejected; in brackets, the part of the format description that it violates. The limits and the
/// rules for names are psyn's own.
#[derive(Clone, Copy, Debug, PartialEq, Eq)]
pub enum HoaCause {
    /// The text does not begin with `HOA:` (HOA v1: header).
    NotHoa,
    /// The version is not `v1` (HOA v1: header).
    Version,
    /// No token begins here, or a string or a comment is not closed (HOA v1: tokens).
    Token,
    /// A token is not allowed here, or the text ends too early.
    Syntax,
    /// A number has several digits and begins with `0` (the token `INT`).
    Number,
    /// A header item that may occur only once occurs a second time (HOA v1: header).
    HeaderTwice,
    /// There is no `Acceptance:` (HOA v1: acceptance).
    MissingAcceptance,
    /// The header has an unknown item whose name begins with a capital letter (HOA v1: header).
    UnknownHeader,
    /// A limit is exceeded.
    Limit,
    /// The body has `--ABORT--`.
    Aborted,
    /// `&` follows a state, so the automaton is alternating (HOA v1: body).
    Alternating,
    /// There is no start state, or a second one.
    Start,
    /// A number is not the number of a proposition, a set or a state.
    Range,
    /// An alias is not defined before its use, or is defined twice (HOA v1: labels).
    Alias,
    /// An edge's label is missing or not allowed, or the number of edges without labels is wrong (HOA v1, body:
    /// implicit labels).
    Labels,
    /// A state has a second row (HOA v1: body).
    StateTwice,
    /// There is no `controllable-AP:` (extended HOA).
    Controllable,
    /// A proposition's name is not allowed, or is the name of an earlier proposition.
    Name,
    /// Something follows `--END--`.
    SeveralAutomata,
}

/// Why an HOA text was not parsed: an error in the text, or out of memory.
pub type HoaFault = Fault<HoaCause>;

impl Cause for HoaCause {
    ghost number = { cause_number };

    ghost name = { cause_name };

    fn number(self) -> u8 {
        match self {
            HoaCause::NotHoa => 1,
            HoaCause::Version => 2,
            HoaCause::Token => 3,
            HoaCause::Syntax => 4,
            HoaCause::Number => 5,
            HoaCause::HeaderTwice => 6,
            HoaCause::MissingAcceptance => 7,
            HoaCause::UnknownHeader => 8,
            HoaCause::Limit => 9,
            HoaCause::Aborted => 10,
            HoaCause::Alternating => 11,
            HoaCause::Start => 12,
            HoaCause::Range => 13,
            HoaCause::Alias => 14,
            HoaCause::Labels => 15,
            HoaCause::StateTwice => 16,
            HoaCause::Controllable => 19,
            HoaCause::Name => 20,
            HoaCause::SeveralAutomata => 22,
        }
    }

    fn name(self) -> &'static str {
        match self {
            HoaCause::NotHoa => "NotHoa",
            HoaCause::Version => "Version",
            HoaCause::Token => "Token",
            HoaCause::Syntax => "Syntax",
            HoaCause::Number => "Number",
            HoaCause::HeaderTwice => "HeaderTwice",
            HoaCause::MissingAcceptance => "MissingAcceptance",
            HoaCause::UnknownHeader => "UnknownHeader",
            HoaCause::Limit => "Limit",
            HoaCause::Aborted => "Aborted",
            HoaCause::Alternating => "Alternating",
            HoaCause::Start => "Start",
            HoaCause::Range => "Range",
            HoaCause::Alias => "Alias",
            HoaCause::Labels => "Labels",
            HoaCause::StateTwice => "StateTwice",
            HoaCause::Controllable => "Controllable",
            HoaCause::Name => "Name",
            HoaCause::SeveralAutomata => "SeveralAutomata",
        }
    }
}
