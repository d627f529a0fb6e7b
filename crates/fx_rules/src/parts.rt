//! The parts that rules of chains are made of.
ghost use Rattle.std.specs.Prelude.{◌≡◌, ◌++◌, [], ◌∷◌, IfOk, OnOk};
ghost use Rattle.fx_model.specs.Rendering.{plain, tagged, is_set};

use crate::marks::is_set;
use fx_base::{Memory, Seq};
use fx_model::{ChainRule, Match, Reason, Tag, Target};
use std::alloc::Global;

/// A rule that no reason is told of.
pub fn plain(matches: Seq<Match>, target: Target) -> ChainRule
    ensures { result ≡ plain matches target }
{
    ChainRule {
        matches,
        target,
        tag: Tag::Plain,
    }
}

/// A rule that tells why.
pub fn tagged(matches: Seq<Match>, target: Target, why: Reason) -> ChainRule
    ensures { result ≡ tagged matches target why }
{
    ChainRule {
        matches,
        target,
        tag: Tag::Why(why),
    }
}

/// One match.
pub fn one(alloc: Global, only: Match) -> Result<Seq<Match>, Memory>
    ensures { IfOk result (λ ms. ms ≡ only ∷ []) }
{
    let mut matches = Seq::new(alloc);
    matches.push(only)?;
    Ok(matches)
}

/// Returns where the mark is set.
pub fn push_return(alloc: Global, mark: u32, chain: &mut Seq<ChainRule>) -> Result<(), Memory>
    ensures { OnOk result (chain.new ≡ chain.old ++ plain (is_set mark ∷ []) Target.Return ∷ []) }
{
    chain.push(plain(one(alloc, is_set(mark))?, Target::Return))
}
