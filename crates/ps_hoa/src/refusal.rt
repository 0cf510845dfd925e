//! The fault for a token that is rejected.

ghost use Rattle.std.specs.Prelude.{◌≡◌, Some};
ghost use Rattle.ps_text.specs.declared.faults.Fault.TheVariants as faults;
ghost use Rattle.ps_text.specs.Parts.{refusal_of};
ghost use Rattle.ps_hoa.specs.Bytes.{begins_capital};
ghost use Rattle.ps_hoa.specs.Causes.{hoa_causes, is_spelled, is_unknown_capital, own_cause};
ghost use Rattle.ps_hoa.specs.Spans.{piece_of};

use crate::fault::{HoaCause, HoaFault};
use crate::header::items::item_named;
use crate::tokens::{Kind, Token, is_same};

pub(crate) fn fault_at(token: Token, cause: HoaCause) -> HoaFault
    ensures { result ≡ faults.Text cause token.entry.start }
{
    HoaFault::Text {
        cause,
        offset: token.start,
    }
}

/// The fault of a token that is not allowed here.
pub(crate) fn refused(token: Token) -> HoaFault
    ensures { result ≡ faults.Text (refusal_of hoa_causes (Some (piece_of token.entry).sign)) token.entry.start }
{
    fault_at(token, refusal(token))
}

/// The cause with which a token is rejected wherever it occurs, or else `Syntax`.
fn refusal(token: Token) -> HoaCause
    ensures { result ≡ refusal_of hoa_causes (Some (piece_of token.entry).sign) }
{
    match token.kind {
        Kind::OpenComment => HoaCause::Token,
        Kind::Odd => HoaCause::Token,
        Kind::ZeroRun => HoaCause::Number,
        Kind::HeaderAgain => HoaCause::HeaderTwice,
        Kind::Header if is_unknown(token.text) => HoaCause::UnknownHeader,
        Kind::Abort => HoaCause::Aborted,
        Kind::Behind => HoaCause::SeveralAutomata,
        _ => HoaCause::Syntax,
    }
}

/// Whether a name begins with a capital letter and is not known.
#[tactic(auto, unfolding(crate::specs::Causes::is_unknown_capital))]
fn is_unknown(name: &[u8]) -> bool
    ensures { result ≡ is_unknown_capital name.now }
{
    !is_spelled(name) && begins_capital(name)
}

/// Whether a name is `HOA:`, `State:` or that of a known header item.
fn is_spelled(name: &[u8]) -> bool
    ensures { result ≡ is_spelled name.now }
{
    is_same(name, b"HOA:") || is_same(name, b"State:") || item_named(name).is_some()
}

pub(crate) fn begins_capital(name: &[u8]) -> bool
    ensures { result ≡ begins_capital name.now }
{
    matches!(name, [b'A'..=b'Z', ..])
}
