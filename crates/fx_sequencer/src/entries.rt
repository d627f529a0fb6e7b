//! The entries of all that a view has: the next message, and what is left once it was sent.
ghost use Rattle.std.specs.Prelude.{◌≡◌, is_some, option_map};
ghost use Rattle.fx_model.specs.Lent.{change_of};
ghost use Rattle.fx_model.specs.Messages.{next_gone, next_put, step_by};
ghost use Rattle.fx_model.specs.Views.{empty_view};
ghost use Rattle.fx_sequencer.specs.Sent.{sent_view, views_of, wanted_view};

use crate::name_entries::NameEntries;
use crate::set_entries::SetEntries;
use crate::text_entries::TextEntries;
use fx_model::{Message, ViewEndpoint, ViewPolicy, ViewProfile};
use std::alloc::Global;

/// Sets, policies, profiles and endpoints, each as it was sent and as it is wanted.
#[derive(Drop)]
pub struct Entries {
    pub sets: SetEntries,
    pub policies: NameEntries<ViewPolicy>,
    pub profiles: NameEntries<ViewProfile>,
    pub endpoints: TextEntries<ViewEndpoint>,
}

impl Entries {
    pub fn new(alloc: Global) -> Self
        ensures { views_of result ≡ record { sent = empty_view; wanted = empty_view } }
    {
        Entries {
            sets: SetEntries::new(alloc),
            policies: NameEntries::new(alloc),
            profiles: NameEntries::new(alloc),
            endpoints: TextEntries::new(alloc),
        }
    }

    /// What is new or other: sets, policies, profiles, endpoints.
    pub fn next_put(&self) -> Option<Message<'_>>
        ensures { option_map change_of result ≡ next_put (sent_view self.now) (wanted_view self.now) }
    {
        if let Some(message) = self.sets.first_added() {
            return Some(message);
        }
        if let Some(message) = self.sets.first_changed() {
            return Some(message);
        }
        if let Some((key, policy)) = self.policies.first_put() {
            return Some(Message::PolicyPut { key, policy });
        }
        if let Some((key, profile)) = self.profiles.first_put() {
            return Some(Message::ProfilePut { key, profile });
        }
        if let Some((iface, endpoint)) = self.endpoints.first_put() {
            return Some(Message::EndpointPut { iface, endpoint });
        }
        None
    }

    /// What is gone: endpoints, profiles, policies, sets.
    pub fn next_gone(&self) -> Option<Message<'_>>
        ensures { option_map change_of result ≡ next_gone (sent_view self.now) (wanted_view self.now) }
    {
        if let Some(iface) = self.endpoints.first_taken() {
            return Some(Message::EndpointGone { iface });
        }
        if let Some(key) = self.profiles.first_taken() {
            return Some(Message::ProfileGone { key });
        }
        if let Some(key) = self.policies.first_taken() {
            return Some(Message::PolicyGone { key });
        }
        if let Some(name) = self.sets.first_taken() {
            return Some(Message::SetGone { name });
        }
        None
    }

    /// Marks what is told first of what is new or other as sent, and tells whether there was something.
    pub fn send_put(&mut self) -> bool
        ensures found { result ≡ is_some (next_put (sent_view self.old) (wanted_view self.old)) }
        ensures sent { sent_view self.new
            ≡ step_by (next_put (sent_view self.old) (wanted_view self.old)) (sent_view self.old)
            (wanted_view self.old) }
        ensures wanted { wanted_view self.new ≡ wanted_view self.old }
    {
        if self.sets.send_added() {
            return true;
        }
        if self.sets.send_changed() {
            return true;
        }
        if self.policies.send_put() {
            return true;
        }
        if self.profiles.send_put() {
            return true;
        }
        self.endpoints.send_put()
    }

    /// Marks what is told first of what is gone as sent, if there is something.
    pub fn send_gone(&mut self)
        ensures sent { sent_view self.new
            ≡ step_by (next_gone (sent_view self.old) (wanted_view self.old)) (sent_view self.old)
            (wanted_view self.old) }
        ensures wanted { wanted_view self.new ≡ wanted_view self.old }
    {
        if self.endpoints.send_taken() {
            return;
        }
        if self.profiles.send_taken() {
            return;
        }
        if self.policies.send_taken() {
            return;
        }
        self.sets.send_taken();
    }
}
