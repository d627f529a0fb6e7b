//! Names of chains and sets.
ghost use Rattle.std.specs.Prelude.{◌≡◌, ◌≤◌, ◌+◌, length};
ghost use Rattle.base64.specs.Engines.{url_safe_no_pad};
ghost use Rattle.base64.specs.GeneralPurpose.{encode_of};
ghost use Rattle.fx_names.specs.Names.{is_whole, shortened, key_of, chain_name_of, set_name_of, room, digest_text};

use crate::digest::{DigestFunction, DigestRule};
use crate::prefix::Prefix;
use base64::engine::general_purpose::URL_SAFE_NO_PAD;
use fx_base::{ChainName, NameKey, SetKind, SetName};
use std::marker::PhantomData;

/// Names by a digest rule. It takes no memory.
#[derive(Drop)]
pub struct Namer<R: DigestRule, F: DigestFunction<R> + Drop> {
    function: F,
    rule: PhantomData<R>,
}

impl<R: DigestRule, F: DigestFunction<R> + Drop> Namer<R, F> {
    pub fn new(function: F) -> Self
        ensures { result.function ≡ function }
    {
        Namer {
            function,
            rule: PhantomData,
        }
    }

    /// What stands behind a chain's prefix: the suffix where it fits, or `_` and a prefix of its digest's text.
    pub fn key(&self, prefix: Prefix, suffix: &[u8]) -> NameKey
        ensures key { result ≡ key_of R.digest_of prefix suffix.now }
        ensures short { length result ≤ room prefix }
    {
        if is_whole(prefix, suffix) {
            NameKey::new(suffix)
        } else {
            self.shortened(prefix.room(), suffix)
        }
    }

    pub fn chain_name(&self, prefix: Prefix, suffix: &[u8]) -> ChainName
        ensures { result ≡ chain_name_of R.digest_of prefix suffix.now }
    {
        ChainName::join(prefix.bytes(), self.key(prefix, suffix).bytes())
    }

    /// The name of the set that the text describes.
    pub fn set_name(&self, kind: SetKind, text: &[u8]) -> SetName
        ensures { result ≡ set_name_of R.digest_of kind text.now }
    {
        let digest = self.digest_text(text);
        let mut tail = [0; 23];
        tail.copy_from_slice(&digest[..23]);
        SetName::new(kind, tail)
    }

    fn shortened(&self, room: usize, suffix: &[u8]) -> NameKey
        requires low { 1 ≤ room }
        requires high { room ≤ 20 }
        ensures { result ≡ shortened R.digest_of room suffix.now }
    {
        let digest = self.digest_text(suffix);
        let mut short = [b'_'; 20];
        short[1..room].copy_from_slice(&digest[..room - 1]);
        NameKey::new(&short[..room])
    }

    // 32 bytes are 42 characters of 6 bits and one of the last 4.
    fn digest_text(&self, text: &[u8]) -> [u8; 43]
        ensures { result ≡ digest_text R.digest_of text.now }
    {
        let digest = self.function.digest(text);
        let mut encoded = [0; 43];
        let _ = URL_SAFE_NO_PAD.encode_slice(&digest, &mut encoded);
        encoded
    }
}

// Whether the suffix stands in a name as it is. One that fills the name and begins as a shortened one doesn't.
fn is_whole(prefix: Prefix, suffix: &[u8]) -> bool
    ensures { result ≡ is_whole prefix suffix.now }
{
    let room = prefix.room();
    suffix.len() < room || suffix.len() == room && suffix[0] != b'_'
}
