//! What the programs share that read standard input and write standard output: their words, source and sink, the digest by which
//! they make names, and their exit statuses.
#![tactic(auto)]

pub use adapters::{StdSink, StdSource};
pub use digest::Sha256Digest;
pub use environment::arguments;
pub use exit::exit_code;

mod adapters;
mod digest;
mod environment;
mod exit;
