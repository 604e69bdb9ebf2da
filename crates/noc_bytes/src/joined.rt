//! Joined texts.

ghost use Rattle.std.specs.Prelude.{◌≡◌, ◌+◌, ◌≤◌, ◌<◌, ℕ, length, MatchOption};
ghost use Rattle.noc_bytes.specs.Joined.{SplitsAt, line_at, line_len};

// How long the line of dashes is that begins at this byte, if one does.
fn dashes_at(text: &[u8], at: usize) -> usize
    requires { at ≤ length text.now }
    ensures value { result ≡ line_at text.now at }
    ensures within { at + result ≤ length text.now }
{
    if at == 0 || text[at - 1] == b'\n' {
        dashes(&text[at..])
    } else {
        0
    }
}

// How long the line of dashes is with which a text begins, if it does with one.
fn dashes(text: &[u8]) -> usize
    ensures value { result ≡ line_len text.now }
    ensures within { result ≤ length text.now }
{
    if text.starts_with(b"---\n") {
        4
    } else if text.starts_with(b"---\r\n") {
        5
    } else {
        0
    }
}

/// What stands before and after the first line of just three dashes.
pub fn split_joined(text: &[u8]) -> Option<(&[u8], &[u8])>
    ensures { MatchOption result ((i : ℕ) → i < length text.now → line_at text.now i ≡ 0)
        (λ parts. (i : ℕ) × SplitsAt text.now i parts.0.now parts.1.now) }
{
    for at in 0..text.len() {
        let len = dashes_at(text, at);
        if 0 < len {
            return Some((&text[..at], &text[at + len..]));
        }
    }
    None
}
