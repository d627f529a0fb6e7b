//! Chains, one by one and in pairs.
ghost use Rattle.std.specs.Prelude.{◌≡◌, ◌≢◌, ◌≤◌, ◌<◌, ◌+◌, length, OnOk, OnErr, true};
ghost use Rattle.std.specs.List.{AllByRecursion, insert, remove};
ghost use Rattle.std.specs.FinMap as maps;
ghost use Rattle.fx_base.specs.Extended.{extended};
ghost use Rattle.fx_base.specs.Ticks.{ticked};
ghost use Rattle.fx_model.specs.Formed.{is_formed_view_endpoint, is_formed_view_profile};
ghost use Rattle.fx_model.specs.Machine.{rules_in};
ghost use Rattle.fx_model.specs.Tables.{forward};
ghost use Rattle.fx_model.specs.ViewTables.{policy_chains, profile_chains, endpoint_chains};
ghost use Rattle.fx_model.specs.Writing.{CanBeWritten, IsWritable};
ghost use Rattle.fx_tables.specs.Leads.{NoneLeadsTo};
ghost use Rattle.fx_dispatch.specs.Edits.{HasPlaces, deletes_in, writes_in};
ghost use Rattle.fx_dispatch.specs.Plans.{CanBeDeleted, applied, without};
ghost use Rattle.fx_driver.specs.Driven.{HasFirst};

use fx_base::{ChainName, Memory, NameKey, Seq, Text, Ticker};
use fx_chains::{endpoint_chain, endpoint_chain_name, policy_chain_name, profile_chain_name};
use fx_dispatch::{Edit, NextByte, Plan, Writes, child_chain_name};
use fx_model::{ChainRule, ViewEndpoint, ViewPolicy, ViewProfile};
use fx_rules::{policy_chain, profile_chain};
use fx_tables::Tables;
use std::alloc::Global;

/// Writes a chain.
pub fn write<O: Ticker>(
    name: ChainName,
    rules: Seq<ChainRule>,
    tables: &mut Tables,
    operations: &mut O,
) -> Result<(), Memory>
    requires { IsWritable tables.old.sets tables.old.chains name rules }
    ensures ok { OnOk result (tables.new ≡ record tables.old { chains = maps.insert tables.old.chains name rules }) }
    ensures err { OnErr result (tables.new ≡ tables.old) }
    ensures counted { O.number operations.new ≡ ticked 1 (O.number operations.old) }
    ensures first { HasFirst tables.old.chains → HasFirst tables.new.chains }
{
    tables.write_chain(name, rules, operations)?;
    Ok(())
}

/// Deletes a chain that isn't the first.
pub fn delete<O: Ticker>(name: ChainName, tables: &mut Tables, operations: &mut O)
    requires unused { NoneLeadsTo tables.old.chains name }
    requires other { forward ≢ name }
    ensures gone { tables.new ≡ record tables.old { chains = maps.remove tables.old.chains name } }
    ensures counted { O.number operations.new ≡ ticked 1 (O.number operations.old) }
    ensures first { HasFirst tables.old.chains → HasFirst tables.new.chains }
{
    tables.delete_chain(name, operations);
}

/// Deletes two chains that lead not to one another.
pub fn delete_both<O: Ticker>(
    to: ChainName,
    from: ChainName,
    tables: &mut Tables,
    operations: &mut O,
)
    requires unused_to { NoneLeadsTo tables.old.chains to }
    requires unused_from { NoneLeadsTo tables.old.chains from }
    requires other_to { forward ≢ to }
    requires other_from { forward ≢ from }
    ensures gone { tables.new ≡ record tables.old { chains = maps.remove (maps.remove tables.old.chains to) from } }
    ensures counted { O.number operations.new ≡ ticked 2 (O.number operations.old) }
    ensures first { HasFirst tables.old.chains → HasFirst tables.new.chains }
{
    delete(to, tables, operations);
    delete(from, tables, operations);
}

/// Writes a policy's two chains.
pub fn write_policy<O: Ticker>(
    alloc: Global,
    key: &NameKey,
    policy: &ViewPolicy,
    tables: &mut Tables,
    operations: &mut O,
) -> Result<(), Memory>
    requires { CanBeWritten tables.old.sets tables.old.chains (policy_chains (key.now, policy.now)) }
    ensures ok { OnOk result (tables.new ≡ record tables.old {
      chains = extended tables.old.chains
          (policy_chains (key.now, policy.now));
    }) }
    ensures counted { OnOk result (O.number operations.new ≡ ticked 2 (O.number operations.old)) }
    ensures at_most { OnErr result (O.number operations.new ≤ O.number operations.old + 2) }
    ensures first { HasFirst tables.old.chains → HasFirst tables.new.chains }
{
    let ingress = policy_chain(alloc, policy, true)?;
    write(policy_chain_name(true, key), ingress, tables, operations)?;
    let egress = policy_chain(alloc, policy, false)?;
    write(policy_chain_name(false, key), egress, tables, operations)?;
    Ok(())
}

/// Writes a profile's two chains.
pub fn write_profile<O: Ticker>(
    alloc: Global,
    key: &NameKey,
    profile: &ViewProfile,
    tables: &mut Tables,
    operations: &mut O,
) -> Result<(), Memory>
    requires writable { CanBeWritten tables.old.sets tables.old.chains (profile_chains (key.now, profile.now)) }
    requires formed { is_formed_view_profile (key.now, profile.now) ≡ true }
    ensures ok { OnOk result (tables.new ≡ record tables.old {
      chains = extended tables.old.chains
          (profile_chains (key.now, profile.now));
    }) }
    ensures counted { OnOk result (O.number operations.new ≡ ticked 2 (O.number operations.old)) }
    ensures at_most { OnErr result (O.number operations.new ≤ O.number operations.old + 2) }
    ensures first { HasFirst tables.old.chains → HasFirst tables.new.chains }
{
    let ingress = profile_chain(alloc, profile, true)?;
    write(profile_chain_name(true, key), ingress, tables, operations)?;
    let egress = profile_chain(alloc, profile, false)?;
    write(profile_chain_name(false, key), egress, tables, operations)?;
    Ok(())
}

/// Writes an endpoint's two chains.
pub fn write_endpoint<O: Ticker>(
    alloc: Global,
    iface: &Text,
    endpoint: &ViewEndpoint,
    tables: &mut Tables,
    operations: &mut O,
) -> Result<(), Memory>
    requires writable { CanBeWritten tables.old.sets tables.old.chains (endpoint_chains (iface.now, endpoint.now)) }
    requires formed { is_formed_view_endpoint (iface.now, endpoint.now) ≡ true }
    ensures ok { OnOk result (tables.new ≡ record tables.old {
      chains = extended tables.old.chains
          (endpoint_chains (iface.now, endpoint.now));
    }) }
    ensures counted { OnOk result (O.number operations.new ≡ ticked 2 (O.number operations.old)) }
    ensures at_most { OnErr result (O.number operations.new ≤ O.number operations.old + 2) }
    ensures first { HasFirst tables.old.chains → HasFirst tables.new.chains }
{
    let ingress = endpoint_chain(alloc, endpoint, true)?;
    write(
        endpoint_chain_name(true, iface),
        ingress,
        tables,
        operations,
    )?;
    let egress = endpoint_chain(alloc, endpoint, false)?;
    write(
        endpoint_chain_name(false, iface),
        egress,
        tables,
        operations,
    )?;
    Ok(())
}

/// Writes chains, one after another.
pub fn write_all<O: Ticker>(
    writes: Writes,
    tables: &mut Tables,
    operations: &mut O,
) -> Result<(), Memory>
    requires { CanBeWritten tables.old.sets tables.old.chains writes }
    ensures ok { OnOk result (tables.new ≡ record tables.old { chains = extended tables.old.chains writes }) }
    ensures counted { OnOk result (O.number operations.new ≡ ticked (length writes) (O.number operations.old)) }
    ensures at_most { OnErr result (O.number operations.new ≤ O.number operations.old + length writes) }
    ensures first { HasFirst tables.old.chains → HasFirst tables.new.chains }
{
    for (name, rules) in writes.into_vec() {
        write(name, rules, tables, operations)?;
    }
    Ok(())
}

fn delete_all<O: Ticker>(names: Seq<ChainName>, tables: &mut Tables, operations: &mut O)
    requires unused { CanBeDeleted tables.old.chains names }
    requires others { AllByRecursion (λ name. forward ≢ name) names }
    ensures gone { tables.new ≡ record tables.old { chains = without tables.old.chains names } }
    ensures counted { O.number operations.new ≡ ticked (length names) (O.number operations.old) }
    ensures first { HasFirst tables.old.chains → HasFirst tables.new.chains }
{
    for name in names.into_vec() {
        delete(name, tables, operations);
    }
}

// Writes a chain with one rule more, in front of the one at a place.
fn insert_rule<O: Ticker>(
    name: ChainName,
    place: usize,
    rule: ChainRule,
    tables: &mut Tables,
    operations: &mut O,
) -> Result<(), Memory>
    requires within { place < length (rules_in tables.old.chains name) }
    requires writable { IsWritable tables.old.sets tables.old.chains name
        (insert (rules_in tables.old.chains name) place rule) }
    ensures ok { OnOk result (tables.new ≡ record tables.old {
      chains = maps.insert tables.old.chains name (insert (rules_in tables.old.chains name) place rule);
    }) }
    ensures err { OnErr result (tables.new ≡ tables.old) }
    ensures counted { O.number operations.new ≡ ticked 1 (O.number operations.old) }
    ensures first { HasFirst tables.old.chains → HasFirst tables.new.chains }
{
    tables.insert_rule(name, place, rule, operations)?;
    Ok(())
}

// Writes a chain with one rule less, that at a place.
fn remove_rule<O: Ticker>(name: ChainName, place: usize, tables: &mut Tables, operations: &mut O)
    requires within { place < length (rules_in tables.old.chains name) }
    requires writable { IsWritable tables.old.sets tables.old.chains name
        (remove (rules_in tables.old.chains name) place) }
    ensures gone { tables.new ≡ record tables.old {
      chains = maps.insert tables.old.chains name (remove (rules_in tables.old.chains name) place);
    } }
    ensures counted { O.number operations.new ≡ ticked 1 (O.number operations.old) }
    ensures first { HasFirst tables.old.chains → HasFirst tables.new.chains }
{
    tables.remove_rule(name, place, operations);
}

// One rule more in a byte's chain of each direction.
fn insert_both<O: Ticker>(
    byte: &NextByte,
    place: usize,
    to: ChainRule,
    from: ChainRule,
    tables: &mut Tables,
    operations: &mut O,
) -> Result<(), Memory>
    requires places { HasPlaces tables.old.chains (Edit.RuleMore byte.now place to from) }
    requires writable { CanBeWritten tables.old.sets tables.old.chains
        (writes_in tables.old.chains (Edit.RuleMore byte.now place to from)) }
    ensures ok { OnOk result (tables.new ≡ record tables.old {
      chains = extended tables.old.chains (writes_in tables.old.chains (Edit.RuleMore byte.now place to from));
    }) }
    ensures counted { OnOk result (O.number operations.new ≡ ticked 2 (O.number operations.old)) }
    ensures at_most { OnErr result (O.number operations.new ≤ O.number operations.old + 2) }
    ensures first { HasFirst tables.old.chains → HasFirst tables.new.chains }
{
    insert_rule(child_chain_name(true, byte), place, to, tables, operations)?;
    insert_rule(
        child_chain_name(false, byte),
        place,
        from,
        tables,
        operations,
    )?;
    Ok(())
}

// One rule less in a byte's chain of each direction.
fn remove_both<O: Ticker>(byte: &NextByte, place: usize, tables: &mut Tables, operations: &mut O)
    requires places { HasPlaces tables.old.chains (Edit.RuleLess byte.now place) }
    requires writable { CanBeWritten tables.old.sets tables.old.chains
        (writes_in tables.old.chains (Edit.RuleLess byte.now place)) }
    ensures gone { tables.new ≡ record tables.old {
      chains = extended tables.old.chains (writes_in tables.old.chains (Edit.RuleLess byte.now place));
    } }
    ensures counted { O.number operations.new ≡ ticked 2 (O.number operations.old) }
    ensures first { HasFirst tables.old.chains → HasFirst tables.new.chains }
{
    remove_rule(child_chain_name(true, byte), place, tables, operations);
    remove_rule(child_chain_name(false, byte), place, tables, operations);
}

/// Carries out an edit of the dispatch chains.
pub fn carry_out<O: Ticker>(
    edit: Edit,
    tables: &mut Tables,
    operations: &mut O,
) -> Result<(), Memory>
    requires places { HasPlaces tables.old.chains edit }
    requires writable { CanBeWritten tables.old.sets tables.old.chains (writes_in tables.old.chains edit) }
    requires unused { CanBeDeleted (extended tables.old.chains (writes_in tables.old.chains edit)) (deletes_in edit) }
    requires others { AllByRecursion (λ name. forward ≢ name) (deletes_in edit) }
    ensures ok { OnOk result (tables.new ≡ record tables.old {
      chains = applied (writes_in tables.old.chains edit) (deletes_in edit) tables.old.chains;
    }) }
    ensures counted { OnOk result (O.number operations.new
        ≡ ticked (length (writes_in tables.old.chains edit) + length (deletes_in edit)) (O.number operations.old)) }
    ensures at_most { OnErr result (O.number operations.new
        ≤ O.number operations.old + (length (writes_in tables.old.chains edit) + length (deletes_in edit))) }
    ensures first { HasFirst tables.old.chains → HasFirst tables.new.chains }
{
    match edit {
        Edit::Chains(plan) => carry_out_plan(plan, tables, operations),
        Edit::RuleMore {
            byte,
            place,
            to,
            from,
        } => insert_both(&byte, place, to, from, tables, operations),
        Edit::RuleLess { byte, place } => {
            remove_both(&byte, place, tables, operations);
            Ok(())
        }
    }
}

#[tactic(auto, using(crate::proofs::Counts::then_counted))]
fn carry_out_plan<O: Ticker>(
    plan: Plan,
    tables: &mut Tables,
    operations: &mut O,
) -> Result<(), Memory>
    requires writable { CanBeWritten tables.old.sets tables.old.chains plan.writes }
    requires unused { CanBeDeleted (extended tables.old.chains plan.writes) plan.deletes }
    requires others { AllByRecursion (λ name. forward ≢ name) plan.deletes }
    ensures ok { OnOk result (tables.new ≡ record tables.old {
      chains = applied plan.writes plan.deletes tables.old.chains;
    }) }
    ensures counted { OnOk result (O.number operations.new
        ≡ ticked (length plan.writes + length plan.deletes) (O.number operations.old)) }
    ensures at_most { OnErr result (O.number operations.new
        ≤ O.number operations.old + (length plan.writes + length plan.deletes)) }
    ensures first { HasFirst tables.old.chains → HasFirst tables.new.chains }
{
    let Plan { writes, deletes } = plan;
    write_all(writes, tables, operations)?;
    delete_all(deletes, tables, operations);
    Ok(())
}
