//! Decimal numbers.

ghost use Rattle.std.specs.Prelude.{◌≡◌, ◌++◌, ◌^◌, ◌≤◌, ◌<◌, ◌↔◌, decimal, length, take_while, IfNone, IfSome};
ghost use Rattle.std.specs.Prelude.{IsSome, OnOk};
ghost use Rattle.std.specs.Char.{is_ascii_digit};
ghost use Rattle.std.specs.List.{prefix_len};
ghost use Rattle.ps_text.specs.Digits.{decimal_value};

use itoa::Buffer;
use std::alloc::AllocError;

/// Appends a number in decimal. Fails if out of memory.
pub fn write_number(out: &mut Vec<u8>, number: u64) -> Result<(), AllocError>
    ensures { OnOk result (out.new.items ≡ out.old.items ++ decimal number) }
{
    if number < 10 {
        out.push(b'0' + number as u8)?;
        return Ok(());
    }
    let mut buffer = Buffer::new();
    out.extend_from_slice(buffer.format(number).as_bytes())
}

/// The number that a text's leading digits denote.
#[derive(Clone, Copy)]
pub struct LeadingNumber {
    /// The number; 0 without digits.
    pub value: u64,
    pub digits: usize,
}

/// Fewer digits than this denote a number less than 10^17, so that no step wraps.
const FEW: usize = 18;

/// The number that the leading digits denote, zeros among them, if it fits.
#[inline(always)]
pub fn leading_number(text: &[u8]) -> Option<LeadingNumber>
    ensures value { IfSome result (λ number. number.value ≡ decimal_value (take_while is_ascii_digit text.now)) }
    ensures digits { IfSome result (λ number. number.digits ≡ prefix_len is_ascii_digit text.now) }
    ensures within { IfSome result (λ number. number.digits ≤ length text.now) }
    ensures none { IfNone result (2 ^ 64 ≤ decimal_value (take_while is_ascii_digit text.now)) }
{
    if let Some(number) = few_digits(text) {
        return Some(number);
    }
    many_digits(text)
}

/// The same, if there are fewer than 18; with more, the computation may wrap, and is not used.
#[inline(always)]
pub fn few_digits(text: &[u8]) -> Option<LeadingNumber>
    ensures few { IsSome result ↔ (prefix_len is_ascii_digit text.now < 18) }
    ensures value { IfSome result (λ number. number.value ≡ decimal_value (take_while is_ascii_digit text.now)) }
    ensures digits { IfSome result (λ number. number.digits ≡ prefix_len is_ascii_digit text.now) }
    ensures within { IfSome result (λ number. number.digits ≤ length text.now) }
{
    let mut value: u64 = 0;
    let mut digits = 0;
    while digits < text.len() && text[digits].is_ascii_digit() {
        value = value
            .wrapping_mul(10)
            .wrapping_add(u64::from(text[digits] - b'0'));
        digits += 1;
    }
    if digits >= FEW {
        return None;
    }
    Some(LeadingNumber { value, digits })
}

/// As `leading_number`, with each step checked for overflow.
#[inline(never)]
fn many_digits(text: &[u8]) -> Option<LeadingNumber>
    ensures value { IfSome result (λ number. number.value ≡ decimal_value (take_while is_ascii_digit text.now)) }
    ensures digits { IfSome result (λ number. number.digits ≡ prefix_len is_ascii_digit text.now) }
    ensures within { IfSome result (λ number. number.digits ≤ length text.now) }
    ensures none { IfNone result (2 ^ 64 ≤ decimal_value (take_while is_ascii_digit text.now)) }
{
    let mut value: u64 = 0;
    let mut digits = 0;
    while digits < text.len() && text[digits].is_ascii_digit() {
        let shifted = value.checked_mul(10)?;
        value = shifted.checked_add(u64::from(text[digits] - b'0'))?;
        digits += 1;
    }
    Some(LeadingNumber { value, digits })
}
