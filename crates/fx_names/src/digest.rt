//! Digests of texts.
ghost use Rattle.std.specs.Prelude.{◌≡◌};
ghost use Rattle.fx_names.specs.Digests.{plain_digest, zero_digest};
ghost use Rattle.sha2.specs.Sha256.{sha256};

/// A rule by which each text has a digest of 32 bytes.
pub trait DigestRule {
    ghost use Rattle.std.specs.Prelude.{ℕ, List};

    ghost digest_of: { List ℕ → List ℕ };
}

/// A function that answers each text with its digest by the rule. Names are made by what is proved of the rule alone, so
/// any function that meets this contract makes the same names.
pub trait DigestFunction<R: DigestRule> {
    fn digest(&self, text: &[u8]) -> [u8; 32]
        ensures { result ≡ R.digest_of text.now };
}

/// SHA-256, as FIPS 180-4 defines it.
#[derive(Clone, Copy, Debug)]
pub struct Sha256Rule;

impl DigestRule for Sha256Rule {
    ghost digest_of = { sha256 };
}

/// The text's first 32 bytes, filled up with zero bytes. Texts with one prefix of 32 bytes have one digest, so that clashes can be tried.
#[derive(Clone, Copy, Debug)]
pub struct PlainRule;

impl DigestRule for PlainRule {
    ghost digest_of = { plain_digest };
}

impl DigestFunction<PlainRule> for PlainRule {
    fn digest(&self, text: &[u8]) -> [u8; 32] {
        let mut digest = [0; 32];
        let size = text.len().min(32);
        digest[..size].copy_from_slice(&text[..size]);
        digest
    }
}

/// 32 zero bytes for every text: all texts clash.
#[derive(Clone, Copy, Debug)]
pub struct ZeroRule;

impl DigestRule for ZeroRule {
    ghost digest_of = { zero_digest };
}

impl DigestFunction<ZeroRule> for ZeroRule {
    fn digest(&self, _text: &[u8]) -> [u8; 32] {
        [0; 32]
    }
}
