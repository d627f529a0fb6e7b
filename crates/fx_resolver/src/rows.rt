//! Endpoints with their lists, as the sink has them.
ghost use Rattle.std.specs.Prelude.{◌≡◌, ◌↔◌, IfOk, OnOk, IsSome, IsTrue, Some};
ghost use Rattle.std.specs.Option.{option_copied};
ghost use Rattle.std.specs.FinMap as map;
ghost use Rattle.fx_base.specs.Set as set;
ghost use Rattle.fx_base.specs.Grouped.{has_key};
ghost use Rattle.fx_resolver.specs.Lists.{item_lists, no_lists, row_of, row_in};
ghost use Rattle.fx_resolver.specs.Resolved.{HaveOwnInterfaces};
ghost use Rattle.fx_resolver.specs.Rows.{IsToldBut, rows_by, with_row, without_row};

use crate::known::KnownEndpoint;
use crate::lists::ItemLists;
use fx_base::{Memory, Text, TextMap, same};
use fx_model::{ItemKey, ItemMap, ViewEndpoint, ViewSink, item_name, namespace_of, tiers_in_order};
use std::alloc::Global;

/// The lists of all items, and what the sink was told of endpoints, by their interfaces.
#[derive(Drop)]
pub struct Rows {
    pub lists: ItemMap<ItemLists>,
    pub told: TextMap<ViewEndpoint>,
}

impl Rows {
    pub fn new(alloc: Global) -> Rows
        ensures { result ≡ record { lists = map.empty; told = map.empty } }
    {
        Rows {
            lists: ItemMap::new(alloc),
            told: TextMap::new(alloc),
        }
    }
}

fn row_of(
    alloc: Global,
    lists: &ItemLists,
    item: &ItemKey,
    endpoint: &KnownEndpoint,
) -> Result<ViewEndpoint, Memory>
    ensures { IfOk result (λ row. row ≡ row_of lists.now item.now endpoint.now) }
{
    Ok(ViewEndpoint {
        ns: namespace_of(alloc, item)?,
        name: item_name(item)?,
        ingress: tiers_in_order(alloc, &lists.ingress)?,
        egress: tiers_in_order(alloc, &lists.egress)?,
        profiles: endpoint.profiles.clone()?,
    })
}

/// An endpoint with the tiers of its lists.
pub fn row_in(
    alloc: Global,
    lists: &ItemMap<ItemLists>,
    item: &ItemKey,
    endpoint: &KnownEndpoint,
) -> Result<ViewEndpoint, Memory>
    ensures { IfOk result (λ row. row ≡ row_in lists.now item.now endpoint.now) }
{
    match lists.get(item) {
        Some(own) => row_of(alloc, own, item, endpoint),
        None => row_of(alloc, &ItemLists::new(alloc), item, endpoint),
    }
}

fn is_told(told: Option<&ViewEndpoint>, row: &ViewEndpoint) -> bool
    ensures { IsTrue result ↔ (option_copied told.entry ≡ Some row.now) }
{
    match told {
        Some(told) => same(told, row),
        None => false,
    }
}

/// Tells an endpoint's row, unless the sink has it.
pub fn tell_row<S: ViewSink>(
    iface: &Text,
    row: ViewEndpoint,
    told: &mut TextMap<ViewEndpoint>,
    sink: &mut S,
) -> Result<(), Memory>
    requires { S.endpoints sink.old ≡ told.old }
    ensures told { OnOk result (told.new ≡ map.insert told.old iface.now row) }
    ensures endpoints { OnOk result (S.endpoints sink.new ≡ told.new) }
    ensures policies { OnOk result (S.policies sink.new ≡ S.policies sink.old) }
    ensures profiles { OnOk result (S.profiles sink.new ≡ S.profiles sink.old) }
{
    if is_told(told.get(iface), &row) {
        return Ok(());
    }
    sink.endpoint_put(iface, row.clone()?)?;
    told.insert(iface.clone()?, row)?;
    Ok(())
}

/// Tells the row of an item, if it is an endpoint.
fn tell_item<S: ViewSink>(
    alloc: Global,
    endpoints: &ItemMap<KnownEndpoint>,
    item: &ItemKey,
    rows: &mut Rows,
    sink: &mut S,
) -> Result<(), Memory>
    requires { S.endpoints sink.old ≡ rows.old.told }
    ensures lists { OnOk result (rows.new.lists ≡ rows.old.lists) }
    ensures told { OnOk result (rows.new.told
        ≡ with_row (row_in rows.old.lists) item.now (map.get endpoints.now item.now) rows.old.told) }
    ensures endpoints { OnOk result (S.endpoints sink.new ≡ rows.new.told) }
    ensures policies { OnOk result (S.policies sink.new ≡ S.policies sink.old) }
    ensures profiles { OnOk result (S.profiles sink.new ≡ S.profiles sink.old) }
{
    let Some(endpoint) = endpoints.get(item) else {
        return Ok(());
    };
    let row = row_in(alloc, &rows.lists, item, endpoint)?;
    tell_row(&endpoint.iface, row, &mut rows.told, sink)?;
    Ok(())
}

/// Tells the rows of all these items that are endpoints. The rows of other endpoints were told.
pub fn tell_items<S: ViewSink>(
    alloc: Global,
    endpoints: &ItemMap<KnownEndpoint>,
    items: Option<&ItemMap<()>>,
    rows: &mut Rows,
    sink: &mut S,
) -> Result<(), Memory>
    requires sink { S.endpoints sink.old ≡ rows.old.told }
    requires apart { HaveOwnInterfaces endpoints.now }
    requires told { IsToldBut (row_in rows.old.lists) endpoints.now (has_key (option_copied items)) rows.old.told }
    ensures lists { OnOk result (rows.new.lists ≡ rows.old.lists) }
    ensures told { OnOk result (rows.new.told ≡ rows_by (row_in rows.old.lists) endpoints.now) }
    ensures endpoints { OnOk result (S.endpoints sink.new ≡ rows.new.told) }
    ensures policies { OnOk result (S.policies sink.new ≡ S.policies sink.old) }
    ensures profiles { OnOk result (S.profiles sink.new ≡ S.profiles sink.old) }
{
    if let Some(items) = items {
        tell_each(alloc, endpoints, items, rows, sink)?;
    }
    Ok(())
}

fn tell_each<S: ViewSink>(
    alloc: Global,
    endpoints: &ItemMap<KnownEndpoint>,
    items: &ItemMap<()>,
    rows: &mut Rows,
    sink: &mut S,
) -> Result<(), Memory>
    requires sink { S.endpoints sink.old ≡ rows.old.told }
    requires apart { HaveOwnInterfaces endpoints.now }
    requires told { IsToldBut (row_in rows.old.lists) endpoints.now (set.contains items.now) rows.old.told }
    ensures lists { OnOk result (rows.new.lists ≡ rows.old.lists) }
    ensures told { OnOk result (rows.new.told ≡ rows_by (row_in rows.old.lists) endpoints.now) }
    ensures endpoints { OnOk result (S.endpoints sink.new ≡ rows.new.told) }
    ensures policies { OnOk result (S.policies sink.new ≡ S.policies sink.old) }
    ensures profiles { OnOk result (S.profiles sink.new ≡ S.profiles sink.old) }
{
    for (item, _) in items.iter() {
        tell_item(alloc, endpoints, item, rows, sink)?;
    }
    Ok(())
}

/// Takes the row of an endpoint that may be absent out of what the sink has.
pub fn withdraw<S: ViewSink>(
    endpoint: Option<&KnownEndpoint>,
    rows: &mut Rows,
    sink: &mut S,
) -> Result<(), Memory>
    requires sink { S.endpoints sink.old ≡ rows.old.told }
    requires there { (e : KnownEndpoint) → option_copied endpoint ≡ Some e → IsSome (map.get rows.old.told e.iface) }
    ensures lists { rows.new.lists ≡ rows.old.lists }
    ensures told { OnOk result (rows.new.told ≡ without_row (option_copied endpoint.entry) rows.old.told) }
    ensures endpoints { OnOk result (S.endpoints sink.new ≡ rows.new.told) }
    ensures policies { OnOk result (S.policies sink.new ≡ S.policies sink.old) }
    ensures profiles { OnOk result (S.profiles sink.new ≡ S.profiles sink.old) }
{
    if let Some(endpoint) = endpoint {
        sink.endpoint_gone(&endpoint.iface)?;
        rows.told.remove(&endpoint.iface);
    }
    Ok(())
}
