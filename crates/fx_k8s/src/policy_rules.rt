//! Reads the rules of a policy.
ghost use Rattle.std.specs.Prelude.{◌≡◌};
ghost use Rattle.serde_json.specs.View.{view};
ghost use Rattle.fx_fields.specs.Faults.{IsAnswerOf};
ghost use Rattle.fx_fields.specs.Paths.{text_of};
ghost use Rattle.fx_k8s.specs.PolicyRules.{peers_key, rule_fields, policy_rule};

use crate::entries::{PortEntry, PortEntryForm};
use crate::peers::{Peer, PeerForm};
use fx_base::Seq;
use fx_fields::{Form, Path, PolicyType, ReadFault, items, object};
use serde_json::Value;
use std::alloc::Global;

/// What a rule allows: packets from or to one of the peers that one of the port entries is for. Without peers any other end will do,
/// and without entries any protocol and port.
#[derive(Drop)]
pub struct PolicyRule {
    pub peers: Seq<Peer>,
    pub ports: Seq<PortEntry>,
}

/// How a rule for packets of this direction is read.
#[derive(Clone, Copy)]
pub struct PolicyRuleForm {
    pub direction: PolicyType,
}

impl Form for PolicyRuleForm {
    type Read = PolicyRule;

    ghost read_by = { λ form. policy_rule form.direction };

    #[tactic(auto, unfolding(crate::specs::PolicyRules::policy_rule))]
    fn read(&self, alloc: Global, path: &Path<'_>, value: &Value) -> Result<PolicyRule, ReadFault> {
        read_rule(alloc, self.direction, path, object(alloc, path, value)?)
    }
}

#[tactic(auto, unfolding(crate::specs::PolicyRules::rule_fields))]
fn read_rule(
    alloc: Global,
    direction: PolicyType,
    path: &Path<'_>,
    rule: &Value,
) -> Result<PolicyRule, ReadFault>
    ensures { IsAnswerOf (rule_fields direction (text_of path.now) (view rule.now)) result }
{
    let peers = items(alloc, &PeerForm, path, peers_key(direction), rule)?;
    let ports = items(alloc, &PortEntryForm, path, "ports", rule)?;
    Ok(PolicyRule { peers, ports })
}

// The member that lists the peers.
fn peers_key(direction: PolicyType) -> &'static str
    ensures { result.now ≡ peers_key direction }
{
    match direction {
        PolicyType::Ingress => "from",
        PolicyType::Egress => "to",
    }
}
