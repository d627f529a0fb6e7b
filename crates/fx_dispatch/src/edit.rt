//! What takes the dispatch chains of some interfaces to those of others.
use crate::plan::Plan;
use crate::way::NextByte;
use fx_model::ChainRule;

/// Chains that are written and deleted; or, where a byte's chain stays, one rule more in it or one rule less, at one place in
/// both directions.
#[derive(Drop)]
pub enum Edit {
    Chains(Plan),
    RuleMore {
        byte: NextByte,
        place: usize,
        to: ChainRule,
        from: ChainRule,
    },
    RuleLess {
        byte: NextByte,
        place: usize,
    },
}
