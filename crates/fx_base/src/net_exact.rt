//! Addresses, nets, ports and protocols as contracts see them: `==` and `clone` read all of each.
use crate::exact::Exact;
use crate::net::{Ipv4, Net, PortRange, Proto};

impl Exact for Ipv4 {
    ghost use Rattle.fx_base.specs.Same.{same_numbers};

    ghost same = { λ x y e i. record { 0 = same_numbers x.0 y.0 e i } };

    ghost copies = { λ x y h. h };
}

impl Exact for Proto {
    ghost use Rattle.fx_base.specs.Same.{same_numbers};

    ghost same = { λ x y e i. record { 0 = same_numbers x.0 y.0 e i } };

    ghost copies = { λ x y h. h };
}

impl Exact for Net {
    ghost use Rattle.fx_base.specs.Same.{same_numbers, both_pass};
    ghost use Rattle.fx_base.specs.SameNet.{same_net};

    ghost same = { λ x y e.
        let p = both_pass _ _ e in
        same_net x y (λ i. record { 0 = same_numbers x.addr.0 y.addr.0 p.0 i }) (same_numbers x.len y.len p.1) };

    ghost copies = { λ x y h. h };
}

impl Exact for PortRange {
    ghost use Rattle.fx_base.specs.Same.{same_numbers, both_pass};
    ghost use Rattle.fx_base.specs.SameNet.{same_ports};

    ghost same = { λ x y e.
        let p = both_pass _ _ e in
        same_ports x y (same_numbers x.low y.low p.0) (same_numbers x.high y.high p.1) };

    ghost copies = { λ x y h. h };
}
