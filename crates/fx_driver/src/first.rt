//! The chain at which every packet begins.
ghost use Rattle.std.specs.Prelude.{◌≡◌, [], ◌∷◌, IfOk, true, codes};
ghost use Rattle.fx_model.specs.Tables.{forward_rules};

use fx_base::{Memory, Seq, Text};
use fx_dispatch::root_chain_name;
use fx_model::{ChainRule, End, Match, Target};
use fx_rules::{clear_mark, one, plain};
use std::alloc::Global;

fn workload_interfaces(alloc: Global, end: End) -> Result<Seq<Match>, Memory>
    ensures { IfOk result (λ ms. ms ≡ Match.Iface end (codes "cali") true ∷ []) }
{
    let name = Text::new(alloc, b"cali")?;
    one(
        alloc,
        Match::Iface {
            end,
            name,
            wild: true,
        },
    )
}

/// The chain at which every packet begins.
pub fn forward_chain(alloc: Global) -> Result<Seq<ChainRule>, Memory>
    ensures { IfOk result (λ rules. rules ≡ forward_rules) }
{
    let mut chain = Seq::new(alloc);
    chain.push(plain(Seq::new(alloc), clear_mark(0xf0000)))?;
    let from = Target::Jump(root_chain_name(false));
    chain.push(plain(workload_interfaces(alloc, End::Source)?, from))?;
    let to = Target::Jump(root_chain_name(true));
    chain.push(plain(workload_interfaces(alloc, End::Dest)?, to))?;
    Ok(chain)
}
