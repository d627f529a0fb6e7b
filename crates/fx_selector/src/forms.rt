//! The form of keys, for those who build selectors from parts.
ghost use Rattle.std.specs.Prelude.{◌≡◌, ◌↔◌, IsTrue};
ghost use Rattle.std.specs.List.{list_all};
ghost use Rattle.fx_selector.specs.Formed.{is_key_text};
ghost use Rattle.fx_selector.specs.Phrase.{is_key};
ghost use Rattle.fx_selector.specs.Tree.{IsKey};

use crate::tokens::is_key_byte;

/// Whether a text may be a key: one byte or more of `[A-Za-z0-9_./-]`.
pub fn is_selector_key(text: &[u8]) -> bool
    ensures form { IsTrue result ↔ IsKey text.now }
    ensures test { result ≡ is_key_text text.now }
{
    if text.is_empty() {
        return false;
    }
    are_key_bytes(text)
}

fn are_key_bytes(text: &[u8]) -> bool
    ensures { result ≡ list_all (λ c. is_key c) text.now }
{
    text.iter().all(|c| is_key_byte(*c))
}
