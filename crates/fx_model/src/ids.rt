//! What names policies and items.
ghost use Rattle.std.specs.Prelude.{◌≡◌, ◌++◌, IfOk, codes};
ghost use Rattle.fx_model.specs.SameIds.{same_policy_id, copies_policy_id, same_item, copies_item, same_key, copies_key};

use fx_base::{Exact, Memory, Text};
use std::alloc::Global;

/// A policy's name: global, in a namespace, or of Kubernetes in a namespace.
#[derive(Clone, Debug, PartialEq, Eq, PartialOrd, Ord, Drop)]
pub enum PolicyId {
    Global { name: Text },
    Namespaced { ns: Text, name: Text },
    Kube { ns: Text, name: Text },
}

impl Exact for PolicyId {
    ghost same = { same_policy_id };

    ghost copies = { copies_policy_id };
}

impl PolicyId {
    ghost use Rattle.std.specs.Prelude.{◌≡◌, IfOk};
    ghost use Rattle.fx_model.specs.PolicyIdTexts.{policy_id_text};

    /// `gnp/NAME`, `np/NS/NAME` or `knp/NS/NAME`.
    pub fn text(&self, alloc: Global) -> Result<Text, Memory>
        ensures { IfOk result (λ text. text ≡ policy_id_text self.now) }
    {
        match self {
            PolicyId::Global { name } => in_no_namespace(alloc, name),
            PolicyId::Namespaced { ns, name } => in_namespace(alloc, b"np/", ns, name),
            PolicyId::Kube { ns, name } => in_namespace(alloc, b"knp/", ns, name),
        }
    }
}

fn in_no_namespace(alloc: Global, name: &Text) -> Result<Text, Memory>
    ensures { IfOk result (λ text. text ≡ codes "gnp/" ++ name.now) }
{
    let mut text = Vec::from_slice(alloc, b"gnp/")?;
    text.extend_from_slice(name.bytes())?;
    Text::from_vec(text)
}

fn in_namespace(alloc: Global, kind: &[u8], ns: &Text, name: &Text) -> Result<Text, Memory>
    ensures { IfOk result (λ text. text ≡ kind.now ++ (ns.now ++ (codes "/" ++ name.now))) }
{
    let mut text = Vec::from_slice(alloc, kind)?;
    text.extend_from_slice(ns.bytes())?;
    text.extend_from_slice(b"/")?;
    text.extend_from_slice(name.bytes())?;
    Text::from_vec(text)
}

/// The key of what has addresses: an endpoint of a namespace, or a network set of a namespace or of none.
#[derive(Clone, Debug, PartialEq, Eq, PartialOrd, Ord, Drop)]
pub enum ItemKey {
    Endpoint { ns: Text, name: Text },
    NetSet { ns: Option<Text>, name: Text },
}

impl Exact for ItemKey {
    ghost same = { same_item };

    ghost copies = { copies_item };
}

/// The key of a resource.
#[derive(Clone, Debug, PartialEq, Eq, PartialOrd, Ord, Drop)]
pub enum Key {
    Item(ItemKey),
    Profile { name: Text },
    Tier { name: Text },
    Policy(PolicyId),
}

impl Exact for Key {
    ghost same = { same_key };

    ghost copies = { copies_key };
}
