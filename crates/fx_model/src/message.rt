//! What is told of a view.
use crate::member_list::MemberList;
use crate::view::{ViewEndpoint, ViewPolicy, ViewProfile};
use fx_base::{NameKey, SetName, Text};

/// A message to the dataplane: what is put, and what is gone.
#[derive(Drop)]
pub enum Message<'a> {
    SetAdd {
        name: &'a SetName,
        members: MemberList<'a>,
    },
    SetDelta {
        name: &'a SetName,
        adds: MemberList<'a>,
        removes: MemberList<'a>,
    },
    PolicyPut {
        key: &'a NameKey,
        policy: &'a ViewPolicy,
    },
    ProfilePut {
        key: &'a NameKey,
        profile: &'a ViewProfile,
    },
    EndpointPut {
        iface: &'a Text,
        endpoint: &'a ViewEndpoint,
    },
    EndpointGone {
        iface: &'a Text,
    },
    ProfileGone {
        key: &'a NameKey,
    },
    PolicyGone {
        key: &'a NameKey,
    },
    SetGone {
        name: &'a SetName,
    },
}
