//! Rules as they are rendered.
ghost use Rattle.std.specs.Prelude.{◌≡◌, IfOk, map, option_map};
ghost use Rattle.fx_model.specs.Views.{set_name, view_port, view_side, view_rule};

use fx_base::{Memory, Proto, Seq, SetName};
use fx_model::{PortSpec, Rule, SetUse, Side, ViewPort, ViewRule, ViewSide, ports_protocol};
use fx_names::{DigestFunction, DigestRule, Namer};
use fx_selector::Selector;
use std::alloc::Global;

/// The rules, with the names of sets in place of selectors and named ports.
pub fn view_rules<R: DigestRule, F: DigestFunction<R> + Drop>(
    alloc: Global,
    rules: &Seq<Rule>,
    namer: &Namer<R, F>,
) -> Result<Seq<ViewRule>, Memory>
    ensures { IfOk result (λ rs. rs ≡ map (view_rule R.digest_of) rules.now) }
{
    let mut wanted = Seq::new(alloc);
    for rule in rules.as_slice() {
        wanted.push(view_rule(alloc, rule, namer)?)?;
    }
    Ok(wanted)
}

fn view_rule<R: DigestRule, F: DigestFunction<R> + Drop>(
    alloc: Global,
    rule: &Rule,
    namer: &Namer<R, F>,
) -> Result<ViewRule, Memory>
    ensures { IfOk result (λ r. r ≡ view_rule R.digest_of rule.now) }
{
    Ok(ViewRule {
        action: rule.action,
        never: rule.never,
        protocol: rule.protocol,
        not_protocol: rule.not_protocol,
        icmp: rule.icmp,
        not_icmp: rule.not_icmp,
        source: view_side(alloc, rule.protocol, &rule.source, namer)?,
        destination: view_side(alloc, rule.protocol, &rule.destination, namer)?,
    })
}

fn view_side<R: DigestRule, F: DigestFunction<R> + Drop>(
    alloc: Global,
    protocol: Option<Proto>,
    side: &Side,
    namer: &Namer<R, F>,
) -> Result<ViewSide, Memory>
    ensures { IfOk result (λ s. s ≡ view_side R.digest_of protocol side.now) }
{
    Ok(ViewSide {
        nets: side.nets.clone()?,
        not_nets: side.not_nets.clone()?,
        set: set_name(alloc, &side.selector, namer)?,
        not_set: set_name(alloc, &side.not_selector, namer)?,
        ports: view_ports(alloc, protocol, side, &side.ports, namer)?,
        not_ports: view_ports(alloc, protocol, side, &side.not_ports, namer)?,
    })
}

fn set_name<R: DigestRule, F: DigestFunction<R> + Drop>(
    alloc: Global,
    selector: &Option<Selector>,
    namer: &Namer<R, F>,
) -> Result<Option<SetName>, Memory>
    ensures { IfOk result (λ name. name ≡ option_map (set_name R.digest_of) selector.now) }
{
    match selector {
        Some(selector) => Ok(Some(SetUse::of_nets(alloc, selector)?.name(namer))),
        None => Ok(None),
    }
}

fn view_ports<R: DigestRule, F: DigestFunction<R> + Drop>(
    alloc: Global,
    protocol: Option<Proto>,
    side: &Side,
    ports: &Seq<PortSpec>,
    namer: &Namer<R, F>,
) -> Result<Seq<ViewPort>, Memory>
    ensures { IfOk result (λ ps. ps ≡ map (view_port R.digest_of protocol side.now.selector) ports.now) }
{
    let mut wanted = Seq::new(alloc);
    for port in ports.as_slice() {
        wanted.push(view_port(alloc, protocol, side, port, namer)?)?;
    }
    Ok(wanted)
}

fn view_port<R: DigestRule, F: DigestFunction<R> + Drop>(
    alloc: Global,
    protocol: Option<Proto>,
    side: &Side,
    port: &PortSpec,
    namer: &Namer<R, F>,
) -> Result<ViewPort, Memory>
    ensures { IfOk result (λ p. p ≡ view_port R.digest_of protocol side.now.selector port.now) }
{
    match port {
        PortSpec::Number(range) => Ok(ViewPort::Range(*range)),
        PortSpec::Named(name) => {
            let proto = ports_protocol(protocol);
            let set = SetUse::of_port(alloc, proto, name, side.selector.as_ref())?;
            Ok(ViewPort::Named(set.name(namer)))
        }
    }
}
