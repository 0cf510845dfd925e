//! Cuts an input into its first line and its texts.

ghost use Rattle.std.specs.Prelude.{◌≡◌, ◌==◌, ◌≤◌, ◌<◌, length, slice_index, IfSome, IfNone};
ghost use Rattle.std.specs.List.{before_first, after_first, position_or_len};
ghost use Rattle.memchr.specs.Find.{IsFirst, Passes, is_byte};
ghost use Rattle.ps_program.specs.Cut.{is_separator, ends_line_at, Cuts, HasNoSeparator};

use memchr::memchr;

/// The first line without its newline, and what follows the newline.
pub fn first_line(input: &[u8]) -> (&[u8], &[u8])
    ensures line { result.0.now ≡ before_first (λ byte. byte == 10) input.now }
    ensures rest { result.1.now ≡ after_first (λ byte. byte == 10) input.now }
{
    let end = line_length(input);
    let behind = (end + 1).min(input.len());
    (&input[..end], &input[behind..])
}

fn line_length(input: &[u8]) -> usize
    ensures within { result ≤ length input.now }
    ensures length { result ≡ position_or_len (λ byte. byte == 10) input.now }
{
    for (place, byte) in input.iter().enumerate() {
        if *byte == b'\n' {
            return place;
        }
    }
    input.len()
}

/// What stands before the first line `%%`, and after it.
pub fn cut(texts: &[u8]) -> Option<(&[u8], &[u8])>
    ensures found { IfSome result (λ parts. Cuts texts.now parts.0.now parts.1.now) }
    ensures missing { IfNone result (HasNoSeparator texts.now) }
{
    let mut from = 0;
    while let Some(separator) = next_percent(texts, from) {
        if begins_separator(texts, separator) {
            let behind = (separator + 3).min(texts.len());
            return Some((&texts[..separator], &texts[behind..]));
        }
        from = separator + 1;
    }
    None
}

/// The offset of the first `%` at `from` or later.
fn next_percent(texts: &[u8], from: usize) -> Option<usize>
    requires { from ≤ length texts.now }
    ensures { IsFirst (Passes (is_byte 37) texts.now) from (length texts.now) result }
{
    let distance = memchr(b'%', &texts[from..])?;
    Some(from + distance)
}

/// Whether a line `%%` begins at this offset.
fn begins_separator(texts: &[u8], place: usize) -> bool
    requires { place < length texts.now }
    ensures { result ≡ is_separator texts.now place }
{
    let begins = place == 0 || texts[place - 1] == b'\n';
    begins
        && is_byte(texts, place, b'%')
        && is_byte(texts, place + 1, b'%')
        && is_line_end(texts, place + 2)
}

fn is_byte(text: &[u8], place: usize, byte: u8) -> bool
    requires { 0 < byte }
    ensures { result ≡ (slice_index text.now place == byte) }
{
    place < text.len() && text[place] == byte
}

fn is_line_end(text: &[u8], place: usize) -> bool
    ensures { result ≡ ends_line_at text.now place }
{
    place >= text.len() || text[place] == b'\n'
}
