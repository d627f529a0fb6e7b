//! That Kubernetes' policies mean the same when they are policies of Calico. The law is a contract; the function does nothing.
ghost use Rattle.fx_k8s.specs.Clusters.{KubernetesVerdictIsKept};

/// Of the resources that a cluster becomes, the policy reference says of each first packet what Kubernetes says of the cluster.
pub fn kubernetes_verdict_is_kept()
    ensures { KubernetesVerdictIsKept }
{}
