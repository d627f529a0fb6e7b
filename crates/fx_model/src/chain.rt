//! Rules of chains, in the words of iptables(8) and iptables-extensions(8).
ghost use Rattle.fx_model.specs.SameChainRules.{same_match, copies_match, same_target, copies_target, same_reason, copies_reason, same_tag, copies_tag, same_chain_rule, copies_chain_rule};

use crate::ids::PolicyId;
use crate::rules::Icmp;
use fx_base::{ChainName, Exact, Net, PortRange, Proto, Seq, SetName, Text};

/// The end of a packet's way: where it comes from, or where it goes to.
#[derive(Clone, Copy, Debug, PartialEq, Eq)]
pub enum End {
    Source,
    Dest,
}

/// What a packet must meet, by iptables(8) and iptables-extensions(8). `Proto` is `-p`, `Net` is `-s` or `-d`; `Iface` is
/// `-i` or `-o`, with a `+` behind the name if it is wild; `Mark` is `-m mark --mark value/mask`; `State` is `-m conntrack
/// --ctstate RELATED,ESTABLISHED`, or `INVALID`; `Set` is `-m set --match-set`, `Ports` is `-m multiport`, and `Icmp` is
/// `-m icmp --icmp-type`. Those that are `not` have a `!`.
#[derive(Clone, Debug, PartialEq, Eq, Drop)]
pub enum Match {
    Proto {
        proto: Proto,
        not: bool,
    },
    Net {
        end: End,
        net: Net,
        not: bool,
    },
    Iface {
        end: End,
        name: Text,
        wild: bool,
    },
    Mark {
        value: u32,
        mask: u32,
    },
    State {
        related_established: bool,
    },
    Set {
        end: End,
        name: SetName,
        not: bool,
    },
    Ports {
        end: End,
        list: Seq<PortRange>,
        not: bool,
    },
    Icmp {
        icmp: Icmp,
        not: bool,
    },
}

impl Exact for Match {
    ghost same = { same_match };

    ghost copies = { copies_match };
}

/// What is done with a packet that meets all matches. `Jump` is `-j`, `Goto` is `-g`, `Mark` is `-j MARK --set-xmark
/// value/mask`, and `Log` is `-j LOG`, which lets the packet go on.
#[derive(Clone, Debug, PartialEq, Eq, Drop)]
pub enum Target {
    Accept,
    Drop,
    Return,
    Jump(ChainName),
    Goto(ChainName),
    Mark { value: u32, mask: u32 },
    Log,
}

impl Exact for Target {
    ghost same = { same_target };

    ghost copies = { copies_target };
}

/// Why a packet is allowed or denied. A place is that of a rule in its own list, from 1.
#[derive(Clone, Debug, PartialEq, Eq, Drop)]
pub enum Reason {
    Policy { id: PolicyId, place: u64 },
    EndOfTier { tier: Text },
    Profile { name: Text, place: u64 },
    MissingProfile { name: Text },
    NoProfileRule,
    UnknownInterface,
    Established,
    Invalid,
}

impl Exact for Reason {
    ghost same = { same_reason };

    ghost copies = { copies_reason };
}

/// What a rule of a chain stands for. It isn't in the kernel.
#[derive(Clone, Debug, PartialEq, Eq, Drop)]
pub enum Tag {
    Plain,
    Log,
    Why(Reason),
}

impl Exact for Tag {
    ghost same = { same_tag };

    ghost copies = { copies_tag };
}

/// A rule of a chain.
#[derive(Clone, Debug, PartialEq, Eq, Drop)]
pub struct ChainRule {
    pub matches: Seq<Match>,
    pub target: Target,
    pub tag: Tag,
}

impl Exact for ChainRule {
    ghost same = { same_chain_rule };

    ghost copies = { copies_chain_rule };
}
