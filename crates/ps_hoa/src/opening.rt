//! The checks at the beginning of an HOA text: its length, `HOA:` and the version.

ghost use Rattle.std.specs.Prelude.{length, IfOk, IfErr, Result, Err, Ok};
ghost use Rattle.ps_text.specs.Answers.{Found};
ghost use Rattle.ps_text.specs.Parts.{PartAnswers};
ghost use Rattle.ps_text.specs.Runs.{IsRun};
ghost use Rattle.ps_hoa.specs.Causes.{hoa_causes};
ghost use Rattle.ps_hoa.specs.Files.{FileData};
ghost use Rattle.ps_hoa.specs.Scan.{stream_of};
ghost use Rattle.ps_hoa.specs.Texts.{file, is_version_byte, IsRefusedAs, ReadsFile};
ghost use Rattle.ps_hoa.specs.declared.fault.HoaCause.{HoaCause};

use crate::fault::{HoaCause, HoaFault};
use crate::tokens::{Tokens, begins_with, behind_blanks, is_name_byte, is_same};

/// The most bytes of a text.
const TEXT_LIMIT: usize = 16_777_216;

/// The length of the longest prefix of bytes that a version, such as `v1`, may contain.
fn version_at(bytes: &[u8]) -> usize
    ensures { IsRun is_version_byte bytes.now result }
{
    let mut count = 0;
    while count < bytes.len() && (is_name_byte(bytes[count]) || bytes[count] == b'.') {
        count += 1;
    }
    count
}

/// The tokens after the version of a text.
///
/// # Errors
///
/// `Limit` if the text is too long, `NotHoa` if it does not begin with `HOA:`, `Version` if the version is not `v1`.
pub(crate) fn opened(text: &[u8]) -> Result<Tokens<'_>, HoaFault>
    // The meaning or first error of these tokens is the answer to the whole text.
    ensures tokens { IfOk result (λ tokens. (answer : Result FileData (Found HoaCause)) →
        PartAnswers hoa_causes file (stream_of tokens) answer → ReadsFile text.now answer) }
    ensures refused { IfErr result (IsRefusedAs text.now) }
{
    if text.len() > TEXT_LIMIT {
        return Err(HoaFault::Text {
            cause: HoaCause::Limit,
            offset: TEXT_LIMIT,
        });
    }
    let first = behind_blanks(text, 0);
    if !begins_with(&text[first..], b"HOA:") {
        return Err(HoaFault::Text {
            cause: HoaCause::NotHoa,
            offset: first,
        });
    }
    let second = behind_blanks(text, first + 4);
    let stop = second + version_at(&text[second..]);
    if !is_same(&text[second..stop], b"v1") {
        return Err(HoaFault::Text {
            cause: HoaCause::Version,
            offset: second,
        });
    }
    Ok(Tokens::new(text, stop))
}
