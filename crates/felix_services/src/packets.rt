//! What the tables decide on a packet, and why, as text.
ghost use Rattle.std.specs.Prelude.{◌≡◌, IfOk, option_map, true};
ghost use Rattle.std.specs.FinMap as maps;
ghost use Rattle.std.specs.List.{concat};
ghost use Rattle.std.specs.Option.{option_copied};
ghost use Rattle.fx_model.specs.Ranks.{IsRanked};
ghost use Rattle.fx_model.specs.Tables.{forward};
ghost use Rattle.fx_services.specs.Places.{flushed_places, reason_as_written};
ghost use Rattle.felix_services.specs.PacketLines.{packet_text};

use fx_base::{Memory, Text};
use fx_fields::PolicyType;
use fx_model::{Packet, Reason};
use fx_print::packet_texts;
use fx_services::Places;
use fx_tables::Tables;
use fx_walk::trace;
use std::alloc::Global;

/// The lines of a packet. Rules are named by their places as they were written at the last flush.
pub fn written_texts(
    alloc: Global,
    tables: &Tables,
    places: &Places,
    packet: &Packet,
) -> Result<Vec<Text>, Memory>
    requires first { maps.contains_key tables.now.chains forward ≡ true }
    requires ranked { IsRanked tables.now.chains }
    ensures { IfOk result (λ lines. concat lines.items
        ≡ packet_text tables.now (flushed_places places.now.lists places.now.before) packet.now) }
{
    let mut path = Vec::new(alloc);
    let outcome = trace(tables, packet, &mut path)?;
    let egress = as_written(places, PolicyType::Egress, outcome.egress)?;
    let ingress = as_written(places, PolicyType::Ingress, outcome.ingress)?;
    let lines = packet_texts(
        alloc,
        packet,
        path.as_slice(),
        egress.as_ref(),
        ingress.as_ref(),
        outcome.verdict,
    )?;
    Ok(lines)
}

// The reason on a side, if there is one.
fn as_written(
    places: &Places,
    direction: PolicyType,
    why: Option<&Reason>,
) -> Result<Option<Reason>, Memory>
    ensures { IfOk result (λ written. written
        ≡ option_map (reason_as_written (flushed_places places.now.lists places.now.before) direction)
        (option_copied why.entry)) }
{
    match why {
        Some(why) => Ok(Some(places.reason(direction, why)?)),
        None => Ok(None),
    }
}
