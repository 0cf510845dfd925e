//! Comments that nest, as `/* a /* b */ c */`.

ghost use Rattle.std.specs.Prelude.{◌≡◌, ◌+◌, ◌<◌, ◌≤◌, ◌==◌, ◌&&◌, IfSome, IsTrue, false, length, slice_index};
ghost use Rattle.ps_text.specs.Comments.{comment_len};

/// The number of bytes up to and including the `*/` that closes a comment, in which others may be nested; `None` if
/// none does. The bytes begin after its `/*`.
pub fn comment_at(bytes: &[u8]) -> Option<usize>
    ensures value { result ≡ comment_len bytes.now false 0 }
    ensures within { IfSome result (λ n. n ≤ length bytes.now) }
{
    let mut skip = false;
    let mut depth: usize = 0;
    for at in 0..bytes.len() {
        if skip {
            skip = false;
        } else if is_pair(bytes, at, b'*', b'/') {
            if depth == 0 {
                return Some(at + 2);
            }
            depth -= 1;
            skip = true;
        } else if is_pair(bytes, at, b'/', b'*') {
            depth += 1;
            skip = true;
        }
    }
    None
}

/// Whether these two bytes are at an offset.
#[inline(always)]
fn is_pair(bytes: &[u8], at: usize, first: u8, second: u8) -> bool
    requires some { 0 < second }
    ensures value { result ≡ (slice_index bytes.now at == first && slice_index bytes.now (at + 1) == second) }
    ensures within { IsTrue result → at + 1 < length bytes.now }
{
    at < bytes.len() && bytes[at] == first && byte_at(bytes, at + 1) == second
}

/// The byte at an offset, or 0 after the end.
#[inline(always)]
pub fn byte_at(bytes: &[u8], at: usize) -> u8
    ensures value { result ≡ slice_index bytes.now at }
    ensures within { 0 < result → at < length bytes.now }
{
    if at < bytes.len() { bytes[at] } else { 0 }
}
