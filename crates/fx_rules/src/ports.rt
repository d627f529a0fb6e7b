//! What lists of ports are asked for by: lists of numbers and ranges, and sets.
ghost use Rattle.std.specs.Prelude.{◌≡◌, ◌++◌, map, IfOk, OnOk};
ghost use Rattle.fx_model.specs.Rendering.{port_lists, ranges_of, names_of, Listed, InSet, port_choices};
ghost use Rattle.fx_rules.specs.Ports.{choice_of};

use crate::cuts::port_lists;
use fx_base::{Memory, PortRange, Seq, SetName};
use fx_model::ViewPort;
use std::alloc::Global;

/// What one match can ask for: a list of numbers and ranges, or a set.
#[derive(Drop)]
pub enum Choice {
    Ranges(Seq<PortRange>),
    Set(SetName),
}

/// The numbers and ranges among ports.
pub fn ranges_of(alloc: Global, ports: &Seq<ViewPort>) -> Result<Seq<PortRange>, Memory>
    ensures { IfOk result (λ ranges. ranges ≡ ranges_of ports.now) }
{
    let mut ranges = Seq::new(alloc);
    for port in ports.as_slice() {
        if let ViewPort::Range(range) = port {
            ranges.push(*range)?;
        }
    }
    Ok(ranges)
}

// What the ranges of a list of ports are asked for by.
fn push_lists(alloc: Global, ports: &Seq<ViewPort>, choices: &mut Seq<Choice>) -> Result<(), Memory>
    ensures { OnOk result (map choice_of choices.new
        ≡ map choice_of choices.old ++ map Listed (port_lists (ranges_of ports.now))) }
{
    let ranges = ranges_of(alloc, ports)?;
    for list in port_lists(alloc, &ranges)?.into_vec() {
        choices.push(Choice::Ranges(list))?;
    }
    Ok(())
}

fn push_names(ports: &Seq<ViewPort>, choices: &mut Seq<Choice>) -> Result<(), Memory>
    ensures { OnOk result (map choice_of choices.new ≡ map choice_of choices.old ++ map InSet (names_of ports.now)) }
{
    for port in ports.as_slice() {
        if let ViewPort::Named(name) = port {
            choices.push(Choice::Set(*name))?;
        }
    }
    Ok(())
}

/// What a list of ports is asked for by.
pub fn choices_of(alloc: Global, ports: &Seq<ViewPort>) -> Result<Seq<Choice>, Memory>
    ensures { IfOk result (λ choices. map choice_of choices ≡ port_choices ports.now) }
{
    let mut choices = Seq::new(alloc);
    push_lists(alloc, ports, &mut choices)?;
    push_names(ports, &mut choices)?;
    Ok(choices)
}
