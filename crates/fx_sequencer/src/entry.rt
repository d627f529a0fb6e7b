//! What is kept of a key: the value that was sent there, and the one that is wanted now.
ghost use Rattle.std.specs.Prelude.{◌≡◌, ◌↔◌, IsTrue, is_some, Some};
ghost use Rattle.std.specs.Option.{option_and_then, option_copied, option_eq};
ghost use Rattle.fx_sequencer.specs.Entry.{entry_of, is_split, no_entry, sent_of, settled, wanted_of, withdrawn};

use fx_base::{Exact, same};

/// Both sides of a key. Where they are equal there is one value.
#[derive(Drop)]
pub enum Entry<V> {
    Both(V),
    Split { sent: Option<V>, wanted: Option<V> },
}

impl<V> Entry<V> {
    /// No value, which stands in an entry's place while that one changes.
    pub fn none() -> Self
        ensures { result ≡ no_entry }
    {
        Entry::Split {
            sent: None,
            wanted: None,
        }
    }

    /// What is kept where a value is wanted no more.
    pub fn withdrawn(sent: Option<V>) -> Self
        ensures { result ≡ withdrawn sent }
    {
        Entry::Split { sent, wanted: None }
    }

    /// What is kept where the wanted value was sent.
    pub fn settled(wanted: Option<V>) -> Self
        ensures { result ≡ settled wanted }
    {
        match wanted {
            Some(value) => Entry::Both(value),
            None => Entry::none(),
        }
    }

    /// The value that is wanted.
    pub fn wanted(&self) -> Option<&V>
        ensures { option_copied result ≡ wanted_of self.now }
    {
        match self {
            Entry::Both(value) => Some(value),
            Entry::Split { wanted, .. } => wanted.as_ref(),
        }
    }

    /// Whether a value was sent.
    pub fn was_sent(&self) -> bool
        ensures { result ≡ is_some (sent_of self.now) }
    {
        match self {
            Entry::Both(_) => true,
            Entry::Split { sent, .. } => sent.is_some(),
        }
    }

    /// Whether the sides differ.
    pub fn is_split(&self) -> bool
        ensures { result ≡ is_split self.now }
    {
        match self {
            Entry::Both(_) => false,
            Entry::Split { .. } => true,
        }
    }
}

impl<V: Drop> Entry<V> {
    /// The value that was sent.
    pub fn into_sent(self) -> Option<V>
        ensures { result ≡ sent_of self }
    {
        match self {
            Entry::Both(value) => Some(value),
            Entry::Split {
                sent,
                wanted: _wanted,
            } => sent,
        }
    }

    /// The value that is wanted.
    pub fn into_wanted(self) -> Option<V>
        ensures { result ≡ wanted_of self }
    {
        match self {
            Entry::Both(value) => Some(value),
            Entry::Split {
                sent: _sent,
                wanted,
            } => wanted,
        }
    }
}

impl<V: Exact + Drop> Entry<V> {
    /// What is kept where a value is wanted.
    pub fn new(sent: Option<V>, wanted: V) -> Self
        ensures { result ≡ entry_of V.eq sent wanted }
    {
        if is_same(&sent, &wanted) {
            Entry::Both(wanted)
        } else {
            Entry::Split {
                sent,
                wanted: Some(wanted),
            }
        }
    }
}

/// The value that is wanted, of what was found.
pub fn wanted_at<V>(found: Option<&Entry<V>>) -> Option<&V>
    ensures { option_copied result ≡ option_and_then wanted_of (option_copied found.entry) }
{
    match found {
        Some(entry) => entry.wanted(),
        None => None,
    }
}

/// Whether a value was sent, of what was found.
pub fn was_sent<V>(found: Option<&Entry<V>>) -> bool
    ensures { result ≡ is_some (option_and_then sent_of (option_copied found.entry)) }
{
    match found {
        Some(entry) => entry.was_sent(),
        None => false,
    }
}

/// Whether what was found is this value.
pub fn is_value<V: Exact>(found: Option<&V>, value: &V) -> bool
    ensures { IsTrue result ↔ (option_copied found.entry ≡ Some value.now) }
{
    match found {
        Some(found) => same(found, value),
        None => false,
    }
}

// Whether this value was sent.
fn is_same<V: Exact>(sent: &Option<V>, wanted: &V) -> bool
    ensures { result ≡ option_eq V.eq sent.now (Some wanted.now) }
{
    match sent {
        Some(sent) => sent == wanted,
        None => false,
    }
}
