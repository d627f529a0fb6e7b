//! Reads a resource that is put, whether it is one of Kubernetes or of Calico.
ghost use Rattle.std.specs.Prelude.{◌≡◌, ℕ, List, true, IfOk};
ghost use Rattle.serde_json.specs.View.{view};
ghost use Rattle.fx_model.specs.Formed.{is_formed, puts_workload_interface};
ghost use Rattle.fx_fields.specs.Faults.{IsAnswerOf};
ghost use Rattle.fx_k8s.specs.Puts.{kubernetes_put, put_with, put_of};

use crate::policies::convert_policy;
use crate::profiles::{convert_namespace, convert_service_account};
use fx_fields::{KubernetesKind, ReadFault, Services, kubernetes_kind};
use fx_json::read_resource_with;
use fx_model::Update;
use serde_json::Value;
use std::alloc::Global;

/// The update that a put of this resource is, or the first fault of the resource.
pub fn read_put(alloc: Global, value: &Value) -> Result<Update, ReadFault>
    ensures answer { IsAnswerOf (put_of (view value.now)) result }
    ensures formed { IfOk result (λ update. is_formed update ≡ true) }
    ensures interface { IfOk result (λ update. (node : List ℕ) → puts_workload_interface node update ≡ true) }
{
    read_put_with(alloc, Services::Refused, value)
}

/// The same, by what is done with services.
pub fn read_put_with(alloc: Global, services: Services, value: &Value) -> Result<Update, ReadFault>
    ensures answer { IsAnswerOf (put_with services (view value.now)) result }
    ensures formed { IfOk result (λ update. is_formed update ≡ true) }
    ensures interface { IfOk result (λ update. (node : List ℕ) → puts_workload_interface node update ≡ true) }
{
    put_of(alloc, services, value)
}

#[tactic(auto, unfolding(crate::specs::Puts::put_with))]
fn put_of(alloc: Global, services: Services, value: &Value) -> Result<Update, ReadFault>
    ensures { IsAnswerOf (put_with services (view value.now)) result }
{
    match kubernetes_kind(value) {
        Some(kind) => kubernetes_put(alloc, kind, value),
        None => read_resource_with(alloc, services, value),
    }
}

fn kubernetes_put(alloc: Global, kind: KubernetesKind, value: &Value) -> Result<Update, ReadFault>
    ensures { IsAnswerOf (kubernetes_put kind (view value.now)) result }
{
    match kind {
        KubernetesKind::Namespace => convert_namespace(alloc, value),
        KubernetesKind::ServiceAccount => convert_service_account(alloc, value),
        KubernetesKind::NetworkPolicy => convert_policy(alloc, value),
    }
}
