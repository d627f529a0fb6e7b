//! Pieces of a text.
ghost use Rattle.std.specs.Prelude.{◌≡◌, ◌<◌, ◌≤◌, length};
ghost use Rattle.fx_found.specs.Pieces.{piece, behind, word, rest};

/// What stands before the first mark, and what stands behind it.
pub fn cut(text: &[u8], mark: u8) -> (&[u8], &[u8])
    ensures first { result.0.now ≡ piece mark text.now }
    ensures later { result.1.now ≡ behind mark text.now }
    ensures within { (length result.0.now ≤ length text.now) × (length result.1.now ≤ length text.now) }
    ensures shorter { 0 < length text.now → length result.1.now < length text.now }
{
    for (at, c) in text.iter().enumerate() {
        if *c == mark {
            return (&text[..at], &text[at + 1..]);
        }
    }
    text.split_at(text.len())
}

/// The first word, and what stands behind its space.
pub fn next_word(text: &[u8]) -> (&[u8], &[u8])
    ensures first { result.0.now ≡ word text.now }
    ensures later { result.1.now ≡ rest text.now }
    ensures within { (length result.0.now ≤ length text.now) × (length result.1.now ≤ length text.now) }
    ensures shorter { 0 < length text.now → length result.1.now < length text.now }
{
    cut(text, b' ')
}
