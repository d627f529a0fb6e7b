//! Reads a peer of a rule: the other end of the packets that the rule allows.
ghost use Rattle.std.specs.Prelude.{◌≡◌};
ghost use Rattle.serde_json.specs.View.{view};
ghost use Rattle.fx_fields.specs.Faults.{IsAnswerOf};
ghost use Rattle.fx_fields.specs.Paths.{text_of};
ghost use Rattle.fx_k8s.specs.Peers.{block_fields, ip_block, block_peer, pods_peer, peer_fields, peer};

use crate::label_selectors::{LabelSelector, LabelSelectorForm};
use fx_base::{Net, NetText, Seq};
use fx_fields::{
    Form, NetForm, Path, ReadFault, ipv4_nets, is_absent, items, object, optional, required,
};
use serde_json::Value;
use std::alloc::Global;

/// The addresses of a net, but those of some nets within it. Nets of IPv6 except nothing.
#[derive(Drop)]
pub struct IpBlock {
    pub cidr: NetText,
    pub except: Seq<Net>,
}

/// Pods by their labels and their namespaces by theirs: all pods where the first selector is absent, and those of the policy's own
/// namespace where the second is.
#[derive(Drop)]
pub struct PodPeer {
    pub pods: Option<LabelSelector>,
    pub namespaces: Option<LabelSelector>,
}

/// The other end of packets: addresses, or pods.
#[derive(Drop)]
pub enum Peer {
    Block(IpBlock),
    Pods(PodPeer),
}

/// A peer.
pub struct PeerForm;

impl Form for PeerForm {
    type Read = Peer;

    ghost read_by = { λ _. peer };

    #[tactic(auto, unfolding(crate::specs::Peers::peer))]
    fn read(&self, alloc: Global, path: &Path<'_>, value: &Value) -> Result<Peer, ReadFault> {
        read_peer(alloc, path, object(alloc, path, value)?)
    }
}

// Addresses stand beside no selector, and something has to be given.
fn read_peer(alloc: Global, path: &Path<'_>, peer: &Value) -> Result<Peer, ReadFault>
    ensures { IsAnswerOf (peer_fields (text_of path.now) (view peer.now)) result }
{
    let has_pods = !is_absent(peer, "podSelector") || !is_absent(peer, "namespaceSelector");
    if is_absent(peer, "ipBlock") {
        if has_pods {
            return read_pods(alloc, path, peer);
        }
        return Err(ReadFault::MissingField {
            path: path.text(alloc)?,
        });
    }
    if has_pods {
        return Err(ReadFault::BlockWithSelector {
            path: path.text(alloc)?,
        });
    }
    read_block(alloc, path, peer)
}

#[tactic(auto, unfolding(crate::specs::Peers::pods_peer, fx_fields::specs::Fields::optional))]
fn read_pods(alloc: Global, path: &Path<'_>, peer: &Value) -> Result<Peer, ReadFault>
    ensures { IsAnswerOf (pods_peer (text_of path.now) (view peer.now)) result }
{
    let pods = optional(alloc, &LabelSelectorForm, path, "podSelector", peer)?;
    let namespaces = optional(alloc, &LabelSelectorForm, path, "namespaceSelector", peer)?;
    Ok(Peer::Pods(PodPeer { pods, namespaces }))
}

#[tactic(auto, unfolding(crate::specs::Peers::block_peer))]
fn read_block(alloc: Global, path: &Path<'_>, peer: &Value) -> Result<Peer, ReadFault>
    ensures { IsAnswerOf (block_peer (text_of path.now) (view peer.now)) result }
{
    let block = required(alloc, &IpBlockForm, path, "ipBlock", peer)?;
    Ok(Peer::Block(block))
}

// ---- addresses

struct IpBlockForm;

impl Form for IpBlockForm {
    type Read = IpBlock;

    ghost read_by = { λ _. ip_block };

    #[tactic(auto, unfolding(crate::specs::Peers::ip_block))]
    fn read(&self, alloc: Global, path: &Path<'_>, value: &Value) -> Result<IpBlock, ReadFault> {
        read_addresses(alloc, path, object(alloc, path, value)?)
    }
}

#[tactic(auto, unfolding(crate::specs::Peers::block_fields))]
fn read_addresses(alloc: Global, path: &Path<'_>, block: &Value) -> Result<IpBlock, ReadFault>
    ensures { IsAnswerOf (block_fields (text_of path.now) (view block.now)) result }
{
    let cidr = required(alloc, &NetForm, path, "cidr", block)?;
    let except = items(alloc, &NetForm, path, "except", block)?;
    let except = ipv4_nets(alloc, except.as_slice())?;
    Ok(IpBlock { cidr, except })
}
