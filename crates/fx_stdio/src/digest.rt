//! The digest by which the shipped programs make names.
use fx_names::{DigestFunction, Sha256Rule};
use sha2::{Digest, Sha256};

/// Answers by SHA-256.
#[derive(Clone, Copy, Debug)]
pub struct Sha256Digest;

impl DigestFunction<Sha256Rule> for Sha256Digest {
    fn digest(&self, text: &[u8]) -> [u8; 32] {
        Sha256::digest(text)
    }
}
