//! Rules as they are rendered, with the names of sets in place of what the kernel can't test.
ghost use Rattle.fx_model.specs.SameRules.{same_icmp, same_view_port, same_view_side, copies_view_side, same_view_rule, copies_view_rule};

use crate::rules::{Action, Icmp};
use fx_base::{Exact, Net, PortRange, Proto, Seq, SetName};

impl Exact for Icmp {
    ghost same = { same_icmp };

    ghost copies = { λ x y h. h };
}

/// A member of a list of ports: numbers, or a `hash:ip,port` set.
#[derive(Clone, Copy, Debug, PartialEq, Eq)]
pub enum ViewPort {
    Range(PortRange),
    Named(SetName),
}

impl Exact for ViewPort {
    ghost same = { same_view_port };

    ghost copies = { λ x y h. h };
}

/// What a rule asks of one end of a packet's way; `set` and `not_set` are `hash:net` sets.
#[derive(Clone, Debug, PartialEq, Eq, Drop)]
pub struct ViewSide {
    pub nets: Seq<Net>,
    pub not_nets: Seq<Net>,
    pub set: Option<SetName>,
    pub not_set: Option<SetName>,
    pub ports: Seq<ViewPort>,
    pub not_ports: Seq<ViewPort>,
}

impl Exact for ViewSide {
    ghost same = { same_view_side };

    ghost copies = { copies_view_side };
}

/// A rule as it is rendered.
#[derive(Clone, Debug, PartialEq, Eq, Drop)]
pub struct ViewRule {
    pub action: Action,
    pub never: bool,
    pub protocol: Option<Proto>,
    pub not_protocol: Option<Proto>,
    pub icmp: Option<Icmp>,
    pub not_icmp: Option<Icmp>,
    pub source: ViewSide,
    pub destination: ViewSide,
}

impl Exact for ViewRule {
    ghost same = { same_view_rule };

    ghost copies = { copies_view_rule };
}
