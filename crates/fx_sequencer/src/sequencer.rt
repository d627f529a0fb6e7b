//! Felix's event sequencer.
//!
//! - **Takes** what the nodes tell of the view: policies, profiles and endpoints as a `ViewSink`, sets and their members
//!   as a `SetSink`. These calls change the view that is wanted now, and no other.
//! - **Gives** the next message from the view that was sent towards that one, by `next_message`. `sent` marks it as
//!   sent. So of what comes and goes between two messages only the difference is told.
//! - **Holds** of each key one entry with both sides, which is one value where they are equal, and the keys that are
//!   pending, in order for each kind of message. So the next message is the first key of the first kind that has one,
//!   and `sent` costs what that message tells.
ghost use Rattle.std.specs.Prelude.{◌≡◌, ◌↔◌, OnOk, OnErr, IsSome, IsNone, Some, true, false, option_map};
ghost use Rattle.std.specs.FinMap as map;
ghost use Rattle.fx_base.specs.Set as set;
ghost use Rattle.fx_model.specs.Lent.{change_of};
ghost use Rattle.fx_model.specs.Messages.{members_of, next_message, step};
ghost use Rattle.fx_model.specs.Views.{empty_view};
ghost use Rattle.fx_sequencer.specs.Sides.{SameSentAndSets};

use crate::entries::Entries;
use fx_base::{Memory, NameKey, SetName, Text};
use fx_model::{Member, Message, SetSink, ViewEndpoint, ViewPolicy, ViewProfile, ViewSink};
use std::alloc::Global;
use std::marker::Model;

/// The sent view and the one that is wanted now. Want of memory leaves both as they were.
#[derive(Drop)]
pub struct Sequencer {
    entries: Entries,
}

impl Model for Sequencer {
    ghost use Rattle.fx_sequencer.specs.declared.sides.Sides.{Sides};
    ghost use Rattle.fx_sequencer.specs.contracts.sides.Sides as both;
    ghost use Rattle.fx_sequencer.specs.Sent.{views_of};

    ghost Value = { Sides };

    ghost coded = { both.the_row.coded };

    ghost view = { λ a. views_of a.entries };
}

impl Sequencer {
    pub fn new(alloc: Global) -> Self
        ensures { result ≡ record { sent = empty_view; wanted = empty_view } }
    {
        Sequencer {
            entries: Entries::new(alloc),
        }
    }

    /// The next message, if the views differ.
    pub fn peek(&self) -> Option<Message<'_>>
        ensures message { option_map change_of result ≡ next_message self.now.sent self.now.wanted }
        ensures none { IsNone result ↔ (self.now.sent ≡ self.now.wanted) }
    {
        match self.entries.next_put() {
            Some(message) => Some(message),
            None => self.entries.next_gone(),
        }
    }

    /// Marks the next message as sent.
    pub fn sent(&mut self)
        requires { IsSome (next_message self.old.sent self.old.wanted) }
        ensures { self.new ≡ record self.old { sent = step self.old.sent self.old.wanted } }
    {
        if self.entries.send_put() {
            return;
        }
        self.entries.send_gone();
    }
}

impl ViewSink for Sequencer {
    ghost policies = { λ a. a.wanted.policies };

    ghost profiles = { λ a. a.wanted.profiles };

    ghost endpoints = { λ a. a.wanted.endpoints };

    ghost is_kept = { SameSentAndSets };

    fn has_policy(&self, key: &NameKey, policy: &ViewPolicy) -> bool {
        self.entries.policies.wants(key, policy)
    }

    fn policy_put(&mut self, key: NameKey, policy: ViewPolicy) -> Result<(), Memory>
        ensures ok { OnOk result (self.new ≡ record self.old {
          wanted = record self.old.wanted { policies = map.insert self.old.wanted.policies key policy };
        }) }
        ensures err { OnErr result (self.new ≡ self.old) }
    {
        self.entries.policies.put(&key, policy)?;
        Ok(())
    }

    fn policy_gone(&mut self, key: NameKey) -> Result<(), Memory>
        requires { IsSome (map.get self.old.wanted.policies key) }
        ensures ok { OnOk result (self.new ≡ record self.old {
          wanted = record self.old.wanted { policies = map.remove self.old.wanted.policies key };
        }) }
        ensures err { OnErr result (self.new ≡ self.old) }
    {
        self.entries.policies.take(&key)?;
        Ok(())
    }

    fn has_profile(&self, key: &NameKey, profile: &ViewProfile) -> bool {
        self.entries.profiles.wants(key, profile)
    }

    fn profile_put(&mut self, key: NameKey, profile: ViewProfile) -> Result<(), Memory>
        ensures ok { OnOk result (self.new ≡ record self.old {
          wanted = record self.old.wanted { profiles = map.insert self.old.wanted.profiles key profile };
        }) }
        ensures err { OnErr result (self.new ≡ self.old) }
    {
        self.entries.profiles.put(&key, profile)?;
        Ok(())
    }

    fn profile_gone(&mut self, key: NameKey) -> Result<(), Memory>
        requires { IsSome (map.get self.old.wanted.profiles key) }
        ensures ok { OnOk result (self.new ≡ record self.old {
          wanted = record self.old.wanted { profiles = map.remove self.old.wanted.profiles key };
        }) }
        ensures err { OnErr result (self.new ≡ self.old) }
    {
        self.entries.profiles.take(&key)?;
        Ok(())
    }

    fn endpoint_put(&mut self, iface: &Text, endpoint: ViewEndpoint) -> Result<(), Memory>
        ensures ok { OnOk result (self.new ≡ record self.old {
          wanted = record self.old.wanted { endpoints = map.insert self.old.wanted.endpoints iface.now endpoint };
        }) }
        ensures err { OnErr result (self.new ≡ self.old) }
    {
        self.entries.endpoints.put(iface, endpoint)?;
        Ok(())
    }

    fn endpoint_gone(&mut self, iface: &Text) -> Result<(), Memory>
        requires { IsSome (map.get self.old.wanted.endpoints iface.now) }
        ensures ok { OnOk result (self.new ≡ record self.old {
          wanted = record self.old.wanted { endpoints = map.remove self.old.wanted.endpoints iface.now };
        }) }
        ensures err { OnErr result (self.new ≡ self.old) }
    {
        self.entries.endpoints.take(iface)?;
        Ok(())
    }
}

impl SetSink for Sequencer {
    ghost sets = { λ a. a.wanted.sets };

    fn set_on(&mut self, name: SetName) -> Result<(), Memory>
        requires { map.contains_key self.old.wanted.sets name ≡ false }
        ensures ok { OnOk result (self.new ≡ record self.old {
          wanted = record self.old.wanted { sets = map.insert self.old.wanted.sets name set.empty };
        }) }
        ensures err { OnErr result (self.new ≡ self.old) }
    {
        self.entries.sets.put(&name)?;
        Ok(())
    }

    fn set_off(&mut self, name: SetName) -> Result<(), Memory>
        requires { map.get self.old.wanted.sets name ≡ Some set.empty }
        ensures ok { OnOk result (self.new ≡ record self.old {
          wanted = record self.old.wanted { sets = map.remove self.old.wanted.sets name };
        }) }
        ensures err { OnErr result (self.new ≡ self.old) }
    {
        self.entries.sets.take(&name)?;
        Ok(())
    }

    fn member_on(&mut self, name: SetName, member: Member) -> Result<(), Memory>
        requires there { IsSome (map.get self.old.wanted.sets name) }
        requires absent { set.contains (members_of (map.get self.old.wanted.sets name)) member ≡ false }
        ensures ok { OnOk result (self.new ≡ record self.old {
          wanted = record self.old.wanted {
            sets = map.insert self.old.wanted.sets name (set.insert (members_of (map.get self.old.wanted.sets name)) member);
          };
        }) }
        ensures err { OnErr result (self.new ≡ self.old) }
    {
        self.entries.sets.put_member(&name, member)?;
        Ok(())
    }

    fn member_off(&mut self, name: SetName, member: Member) -> Result<(), Memory>
        requires there { IsSome (map.get self.old.wanted.sets name) }
        requires member { set.contains (members_of (map.get self.old.wanted.sets name)) member ≡ true }
        ensures ok { OnOk result (self.new ≡ record self.old {
          wanted = record self.old.wanted {
            sets = map.insert self.old.wanted.sets name (set.remove (members_of (map.get self.old.wanted.sets name)) member);
          };
        }) }
        ensures err { OnErr result (self.new ≡ self.old) }
    {
        self.entries.sets.take_member(&name, member)?;
        Ok(())
    }
}
