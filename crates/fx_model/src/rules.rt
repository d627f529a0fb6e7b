//! Rules, as Calico's resource reference (`projectcalico.org/v3`) has them: what a packet must meet, and what is done with it.
ghost use Rattle.fx_model.specs.SameRules.{same_port_spec, copies_port_spec, same_side, copies_side, same_rule, copies_rule};

use fx_base::{Exact, Net, PortRange, Proto, Seq, Text};
use fx_selector::Selector;

/// What a rule does with a packet that it matches. `Log` lets the next rule decide, and `Pass` the next tier or the profiles.
#[derive(Clone, Copy, Debug, PartialEq, Eq)]
pub enum Action {
    Allow,
    Deny,
    Log,
    Pass,
}

/// A message of ICMP by its type, and by its code where one is given.
#[derive(Clone, Copy, Debug, PartialEq, Eq)]
pub struct Icmp {
    pub kind: u8,
    pub code: Option<u8>,
}

/// A member of a list of ports: numbers, or a port that endpoints have under this name.
#[derive(Clone, Debug, PartialEq, Eq, Drop)]
pub enum PortSpec {
    Number(PortRange),
    Named(Text),
}

impl Exact for PortSpec {
    ghost same = { same_port_spec };

    ghost copies = { copies_port_spec };
}

/// What a rule asks of one end of a packet's way. An empty list asks nothing. A selector asks for an address of an endpoint or
/// network set that it selects, and `not_selector` for one of none.
#[derive(Clone, Debug, PartialEq, Eq, Drop)]
pub struct Side {
    pub nets: Seq<Net>,
    pub not_nets: Seq<Net>,
    pub selector: Option<Selector>,
    pub not_selector: Option<Selector>,
    pub ports: Seq<PortSpec>,
    pub not_ports: Seq<PortSpec>,
}

impl Exact for Side {
    ghost same = { same_side };

    ghost copies = { copies_side };
}

/// A rule. One that is `never` met asks for packets that aren't of IPv4.
#[derive(Clone, Debug, PartialEq, Eq, Drop)]
pub struct Rule {
    pub action: Action,
    pub never: bool,
    pub protocol: Option<Proto>,
    pub not_protocol: Option<Proto>,
    pub icmp: Option<Icmp>,
    pub not_icmp: Option<Icmp>,
    pub source: Side,
    pub destination: Side,
}

impl Exact for Rule {
    ghost same = { same_rule };

    ghost copies = { copies_rule };
}
