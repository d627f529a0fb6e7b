//! The tables of a node, taken from one view to the next by single operations.
ghost use Rattle.std.specs.Prelude.{◌≡◌, IfOk, OnOk, OnErr};
ghost use Rattle.fx_model.specs.Lent.{change_of};
ghost use Rattle.fx_model.specs.Messages.{SetAdd, SetDelta, PolicyPut, ProfilePut, EndpointPut, EndpointGone, ProfileGone, PolicyGone, SetGone};
ghost use Rattle.fx_model.specs.Views.{empty_view};
ghost use Rattle.fx_driver.specs.Driven.{HasFirst};
ghost use Rattle.fx_driver.specs.Drives.{Drives, Follows, IsNext};
ghost use Rattle.fx_driver.specs.Operations.{Costs, CostsAtMost};

use crate::chains::{
    carry_out, delete_both, write_all, write_endpoint, write_policy, write_profile,
};
use crate::first::forward_chain;
use crate::sets::{add_set, change_set};
use fx_base::{Counter, Memory, NameKey, SetName, Text, Ticker};
use fx_chains::{endpoint_chain_name, policy_chain_name, profile_chain_name};
use fx_dispatch::{Dispatch, first_chains};
use fx_model::{MemberList, Message, ViewEndpoint, ViewPolicy, ViewProfile};
use fx_tables::{Tables, first_chain_name};
use std::alloc::Global;

/// The tables of a node, and the interfaces of its endpoints.
#[derive(Drop)]
pub struct Driver {
    alloc: Global,
    tables: Tables,
    dispatch: Dispatch,
}

impl Driver {
    /// The tables of a node to which nothing was sent yet.
    pub fn new(alloc: Global) -> Result<Driver, Memory>
        ensures { IfOk result (λ driver. Drives driver empty_view) }
    {
        let mut tables = Tables::new(alloc);
        let mut operations = Counter::new();
        write_all(first_chains(alloc)?, &mut tables, &mut operations)?;
        tables.write_chain(first_chain_name(), forward_chain(alloc)?, &mut operations)?;
        Ok(Driver {
            alloc,
            tables,
            dispatch: Dispatch::new(alloc),
        })
    }

    /// The tables as they stand.
    pub fn tables(&self) -> &Tables
        ensures { result.now ≡ self.now.tables }
    {
        &self.tables
    }

    /// Makes a message single operations on the tables. Each leaves closed tables; on want of memory some of them may be done.
    /// Each operation is counted in `operations`, also one that fails.
    pub fn apply<O: Ticker>(
        &mut self,
        message: &Message<'_>,
        operations: &mut O,
    ) -> Result<(), Memory>
        requires { IsNext self.old (change_of message.now) }
        ensures driven { OnOk result (Follows self.old self.new (change_of message.now)) }
        ensures counted { OnOk result (Costs self.old (change_of message.now)
            (O.number operations.old) (O.number operations.new)) }
        ensures at_most { OnErr result (CostsAtMost self.old (change_of message.now)
            (O.number operations.old) (O.number operations.new)) }
        ensures first { HasFirst self.old.tables.chains → HasFirst self.new.tables.chains }
    {
        match message {
            Message::SetAdd { name, members } => self.add_set(**name, members, operations),
            Message::SetDelta {
                name,
                adds,
                removes,
            } => self.change_set(**name, adds, removes, operations),
            Message::PolicyPut { key, policy } => self.put_policy(key, policy, operations),
            Message::ProfilePut { key, profile } => self.put_profile(key, profile, operations),
            Message::EndpointPut { iface, endpoint } => self.put_endpoint(
                iface, endpoint, operations,
            ),
            Message::EndpointGone { iface } => self.drop_endpoint(iface, operations),
            Message::ProfileGone { key } => self.drop_profile(key, operations),
            Message::PolicyGone { key } => self.drop_policy(key, operations),
            Message::SetGone { name } => self.drop_set(**name, operations),
        }
    }

    fn add_set<O: Ticker>(
        &mut self,
        name: SetName,
        members: &MemberList<'_>,
        operations: &mut O,
    ) -> Result<(), Memory>
        requires { IsNext self.old (SetAdd name members.now) }
        ensures driven { OnOk result (Follows self.old self.new (SetAdd name members.now)) }
        ensures counted { OnOk result (Costs self.old (SetAdd name members.now)
            (O.number operations.old) (O.number operations.new)) }
        ensures at_most { OnErr result (CostsAtMost self.old (SetAdd name members.now)
            (O.number operations.old) (O.number operations.new)) }
        ensures first { HasFirst self.old.tables.chains → HasFirst self.new.tables.chains }
    {
        add_set(name, members, &mut self.tables, operations)?;
        Ok(())
    }

    fn change_set<O: Ticker>(
        &mut self,
        name: SetName,
        adds: &MemberList<'_>,
        removes: &MemberList<'_>,
        operations: &mut O,
    ) -> Result<(), Memory>
        requires { IsNext self.old (SetDelta name adds.now removes.now) }
        ensures driven { OnOk result (Follows self.old self.new (SetDelta name adds.now removes.now)) }
        ensures counted { OnOk result (Costs self.old (SetDelta name adds.now removes.now)
            (O.number operations.old) (O.number operations.new)) }
        ensures at_most { OnErr result (CostsAtMost self.old (SetDelta name adds.now removes.now)
            (O.number operations.old) (O.number operations.new)) }
        ensures first { HasFirst self.old.tables.chains → HasFirst self.new.tables.chains }
    {
        change_set(name, adds, removes, &mut self.tables, operations)?;
        Ok(())
    }

    fn drop_set<O: Ticker>(&mut self, name: SetName, operations: &mut O) -> Result<(), Memory>
        requires { IsNext self.old (SetGone name) }
        ensures driven { OnOk result (Follows self.old self.new (SetGone name)) }
        ensures counted { OnOk result (Costs self.old (SetGone name)
            (O.number operations.old) (O.number operations.new)) }
        ensures at_most { OnErr result (CostsAtMost self.old (SetGone name)
            (O.number operations.old) (O.number operations.new)) }
        ensures first { HasFirst self.old.tables.chains → HasFirst self.new.tables.chains }
    {
        self.tables.destroy_set(name, operations);
        Ok(())
    }

    fn put_policy<O: Ticker>(
        &mut self,
        key: &NameKey,
        policy: &ViewPolicy,
        operations: &mut O,
    ) -> Result<(), Memory>
        requires { IsNext self.old (PolicyPut key.now policy.now) }
        ensures driven { OnOk result (Follows self.old self.new (PolicyPut key.now policy.now)) }
        ensures counted { OnOk result (Costs self.old (PolicyPut key.now policy.now)
            (O.number operations.old) (O.number operations.new)) }
        ensures at_most { OnErr result (CostsAtMost self.old (PolicyPut key.now policy.now)
            (O.number operations.old) (O.number operations.new)) }
        ensures first { HasFirst self.old.tables.chains → HasFirst self.new.tables.chains }
    {
        write_policy(self.alloc, key, policy, &mut self.tables, operations)?;
        Ok(())
    }

    fn drop_policy<O: Ticker>(&mut self, key: &NameKey, operations: &mut O) -> Result<(), Memory>
        requires { IsNext self.old (PolicyGone key.now) }
        ensures driven { OnOk result (Follows self.old self.new (PolicyGone key.now)) }
        ensures counted { OnOk result (Costs self.old (PolicyGone key.now)
            (O.number operations.old) (O.number operations.new)) }
        ensures at_most { OnErr result (CostsAtMost self.old (PolicyGone key.now)
            (O.number operations.old) (O.number operations.new)) }
        ensures first { HasFirst self.old.tables.chains → HasFirst self.new.tables.chains }
    {
        delete_both(
            policy_chain_name(true, key),
            policy_chain_name(false, key),
            &mut self.tables,
            operations,
        );
        Ok(())
    }

    fn put_profile<O: Ticker>(
        &mut self,
        key: &NameKey,
        profile: &ViewProfile,
        operations: &mut O,
    ) -> Result<(), Memory>
        requires { IsNext self.old (ProfilePut key.now profile.now) }
        ensures driven { OnOk result (Follows self.old self.new (ProfilePut key.now profile.now)) }
        ensures counted { OnOk result (Costs self.old (ProfilePut key.now profile.now)
            (O.number operations.old) (O.number operations.new)) }
        ensures at_most { OnErr result (CostsAtMost self.old (ProfilePut key.now profile.now)
            (O.number operations.old) (O.number operations.new)) }
        ensures first { HasFirst self.old.tables.chains → HasFirst self.new.tables.chains }
    {
        write_profile(self.alloc, key, profile, &mut self.tables, operations)?;
        Ok(())
    }

    fn drop_profile<O: Ticker>(&mut self, key: &NameKey, operations: &mut O) -> Result<(), Memory>
        requires { IsNext self.old (ProfileGone key.now) }
        ensures driven { OnOk result (Follows self.old self.new (ProfileGone key.now)) }
        ensures counted { OnOk result (Costs self.old (ProfileGone key.now)
            (O.number operations.old) (O.number operations.new)) }
        ensures at_most { OnErr result (CostsAtMost self.old (ProfileGone key.now)
            (O.number operations.old) (O.number operations.new)) }
        ensures first { HasFirst self.old.tables.chains → HasFirst self.new.tables.chains }
    {
        delete_both(
            profile_chain_name(true, key),
            profile_chain_name(false, key),
            &mut self.tables,
            operations,
        );
        Ok(())
    }

    fn put_endpoint<O: Ticker>(
        &mut self,
        iface: &Text,
        endpoint: &ViewEndpoint,
        operations: &mut O,
    ) -> Result<(), Memory>
        requires { IsNext self.old (EndpointPut iface.now endpoint.now) }
        ensures driven { OnOk result (Follows self.old self.new (EndpointPut iface.now endpoint.now)) }
        ensures counted { OnOk result (Costs self.old (EndpointPut iface.now endpoint.now)
            (O.number operations.old) (O.number operations.new)) }
        ensures at_most { OnErr result (CostsAtMost self.old (EndpointPut iface.now endpoint.now)
            (O.number operations.old) (O.number operations.new)) }
        ensures first { HasFirst self.old.tables.chains → HasFirst self.new.tables.chains }
    {
        write_endpoint(self.alloc, iface, endpoint, &mut self.tables, operations)?;
        let edit = self.dispatch.put(iface)?;
        carry_out(edit, &mut self.tables, operations)?;
        Ok(())
    }

    fn drop_endpoint<O: Ticker>(&mut self, iface: &Text, operations: &mut O) -> Result<(), Memory>
        requires { IsNext self.old (EndpointGone iface.now) }
        ensures driven { OnOk result (Follows self.old self.new (EndpointGone iface.now)) }
        ensures counted { OnOk result (Costs self.old (EndpointGone iface.now)
            (O.number operations.old) (O.number operations.new)) }
        ensures at_most { OnErr result (CostsAtMost self.old (EndpointGone iface.now)
            (O.number operations.old) (O.number operations.new)) }
        ensures first { HasFirst self.old.tables.chains → HasFirst self.new.tables.chains }
    {
        let edit = self.dispatch.remove(iface)?;
        let to = endpoint_chain_name(true, iface);
        let from = endpoint_chain_name(false, iface);
        carry_out(edit, &mut self.tables, operations)?;
        delete_both(to, from, &mut self.tables, operations);
        Ok(())
    }
}
