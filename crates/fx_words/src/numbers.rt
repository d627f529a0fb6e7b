//! Numbers as words.
ghost use Rattle.std.specs.Prelude.{◌≡◌, decimal};
ghost use Rattle.std.specs.Str.{bytes_eq};
ghost use Rattle.fx_words.specs.Words.{number_of};

use itoa::Buffer;

/// The number, where the word is its decimal text and it is at most `most`.
///
/// `parse` takes a plus and leading zeros too, which the number's own text doesn't have.
pub fn number(word: &str, most: u64) -> Option<u64>
    ensures { result ≡ number_of most word.now }
{
    let Ok(value) = word.parse::<u64>() else {
        return None;
    };
    if most < value || !is_text_of(word, value) {
        return None;
    }
    Some(value)
}

fn is_text_of(word: &str, value: u64) -> bool
    ensures { result ≡ bytes_eq word.now (decimal value) }
{
    let mut buffer = Buffer::new();
    word == buffer.format(value)
}
