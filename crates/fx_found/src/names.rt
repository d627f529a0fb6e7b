//! The names of sets and chains.
ghost use Rattle.std.specs.Prelude.{◌≡◌, ◌≤◌, length, true};
ghost use Rattle.std.specs.List.{list_all};
ghost use Rattle.fx_found.specs.NameForms.{is_letter, is_tail_byte, is_chain_byte, is_own_set, has_kind, is_set_name, is_own_chain, is_chain_name, is_target_word, is_target_name, is_own_word};

fn is_letter(c: u8) -> bool
    ensures { result ≡ is_letter c }
{
    matches!(c, b'a'..=b'z' | b'A'..=b'Z' | b'0'..=b'9')
}

fn is_tail_byte(c: u8) -> bool
    ensures { result ≡ is_tail_byte c }
{
    is_letter(c) || c == b'-' || c == b'_'
}

fn is_chain_byte(c: u8) -> bool
    ensures { result ≡ is_chain_byte c }
{
    is_letter(c) || c == b'_' || matches!(c, b'-'..=b'/')
}

/// Whether a set's name is own.
pub fn is_own_set(name: &[u8]) -> bool
    ensures { result ≡ is_own_set name.now }
{
    name.starts_with(b"cali40")
}

/// Whether an own set may have the name: a kind and 23 bytes.
pub fn is_set_name(name: &[u8]) -> bool
    ensures form { result ≡ is_set_name name.now }
    ensures short { result ≡ true → length name.now ≤ 31 }
{
    has_kind(name) && name.len() == 31 && are_tail_bytes(&name[8..])
}

fn are_tail_bytes(bytes: &[u8]) -> bool
    ensures { result ≡ list_all is_tail_byte bytes.now }
{
    bytes.iter().all(|c| is_tail_byte(*c))
}

fn has_kind(name: &[u8]) -> bool
    ensures { result ≡ has_kind name.now }
{
    name.starts_with(b"cali40s:") || name.starts_with(b"cali40n:")
}

/// Whether a chain's name is own.
pub fn is_own_chain(name: &[u8]) -> bool
    ensures { result ≡ is_own_chain name.now }
{
    name.starts_with(b"cali-")
}

/// Whether a chain may have the name.
pub fn is_chain_name(name: &[u8]) -> bool
    ensures form { result ≡ is_chain_name name.now }
    ensures short { result ≡ true → length name.now ≤ 28 }
{
    matches!(name.len(), 1..=28) && are_chain_bytes(name)
}

fn are_chain_bytes(bytes: &[u8]) -> bool
    ensures { result ≡ list_all is_chain_byte bytes.now }
{
    bytes.iter().all(|c| is_chain_byte(*c))
}

fn is_target_word(name: &[u8]) -> bool
    ensures { result ≡ is_target_word name.now }
{
    name == b"ACCEPT".as_slice()
        || name == b"DROP".as_slice()
        || name == b"RETURN".as_slice()
        || name == b"MARK".as_slice()
        || name == b"LOG".as_slice()
}

/// Whether a rule may lead to a chain of this name.
pub fn is_target_name(name: &[u8]) -> bool
    ensures form { result ≡ is_target_name name.now }
    ensures short { result ≡ true → length name.now ≤ 28 }
{
    is_chain_name(name) && !is_target_word(name)
}

/// Whether a word is an own name other than that of the first chain.
pub fn is_own_word(word: &[u8]) -> bool
    ensures { result ≡ is_own_word word.now }
{
    (is_own_set(word) || is_own_chain(word)) && word != b"cali-FORWARD".as_slice()
}
