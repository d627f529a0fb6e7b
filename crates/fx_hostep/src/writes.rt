//! Chains that are to be written.
use fx_base::{ChainName, Seq};
use fx_model::ChainRule;

/// Chains with their rules, in the order in which they are written.
pub type Writes = Seq<(ChainName, Seq<ChainRule>)>;
