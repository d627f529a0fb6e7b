//! The selectors of Calico that ask what Kubernetes' label selectors ask.
ghost use Rattle.std.specs.Prelude.{◌≡◌, ◌≤◌, [], ◌∷◌, ◌++◌, map, All, IfOk, OnOk};
ghost use Rattle.fx_selector.specs.Tree.{height};
ghost use Rattle.fx_selector.specs.Rewriting.{namespace_tree};
ghost use Rattle.fx_k8s.specs.Conversion.{pair_tree, expression_tree, selector_trees, given_trees, orchestrated, policy_tree, some_namespace, namespace_trees, peer_tree};

use crate::expressions::Expression;
use crate::label_selectors::{LabelPair, LabelSelector};
use crate::peers::PodPeer;
use fx_base::Memory;
use fx_fields::{OwnNamespace, of_namespace, push_given};
use fx_selector::Selector;
use std::alloc::Global;

/// The pods of a namespace that a policy isolates.
pub fn policy_selector(
    alloc: Global,
    namespace: &OwnNamespace,
    pods: &LabelSelector,
) -> Result<Selector, Memory>
    ensures { IfOk result (λ selector. selector ≡ policy_tree namespace.now pods.now) }
{
    let mut parts = selector_parts(alloc, pods)?;
    let orchestrated = orchestrated(alloc)?;
    push_given(&mut parts, Some(orchestrated))?;
    let own = of_namespace(alloc, namespace.name())?;
    push_given(&mut parts, Some(own))?;
    Selector::and(alloc, parts)
}

/// The pods of a peer of a policy of this namespace.
pub fn peer_selector(
    alloc: Global,
    namespace: &OwnNamespace,
    peer: &PodPeer,
) -> Result<Selector, Memory>
    ensures { IfOk result (λ selector. selector ≡ peer_tree namespace.now peer.now) }
{
    let mut parts = given_parts(alloc, &peer.pods)?;
    push_given(&mut parts, Some(orchestrated(alloc)?))?;
    push_namespaces(alloc, namespace, &peer.namespaces, &mut parts)?;
    Selector::and(alloc, parts)
}

// The endpoints that Kubernetes runs.
fn orchestrated(alloc: Global) -> Result<Selector, Memory>
    ensures { IfOk result (λ selector. selector ≡ orchestrated) }
{
    Selector::equal(alloc, b"projectcalico.org/orchestrator", b"k8s")
}

// ---- namespaces

fn push_namespaces(
    alloc: Global,
    namespace: &OwnNamespace,
    namespaces: &Option<LabelSelector>,
    parts: &mut Vec<Selector>,
) -> Result<(), Memory>
    requires { All (λ t. height t ≤ 139) parts.old.items }
    ensures pushed { OnOk result (parts.new.items ≡ parts.old.items ++ namespace_trees namespace.now namespaces.now) }
    ensures shallow { OnOk result (All (λ t. height t ≤ 139) parts.new.items) }
{
    match namespaces {
        Some(selector) => push_selected(alloc, selector, parts)?,
        None => push_given(parts, Some(of_namespace(alloc, namespace.name())?))?,
    }
    Ok(())
}

// The namespaces that a selector takes, or all where it asks nothing.
fn push_selected(
    alloc: Global,
    selector: &LabelSelector,
    parts: &mut Vec<Selector>,
) -> Result<(), Memory>
    requires { All (λ t. height t ≤ 139) parts.old.items }
    ensures pushed { OnOk result (parts.new.items
        ≡ parts.old.items ++ some_namespace (map namespace_tree (selector_trees selector.now))) }
    ensures shallow { OnOk result (All (λ t. height t ≤ 139) parts.new.items) }
{
    let asked = selector_parts(alloc, selector)?;
    if asked.is_empty() {
        let some = Selector::has_key(alloc, b"projectcalico.org/namespace", false)?;
        push_given(parts, Some(some))?;
        return Ok(());
    }
    push_rewritten(alloc, asked.as_slice(), parts)?;
    Ok(())
}

fn push_rewritten(
    alloc: Global,
    asked: &[Selector],
    parts: &mut Vec<Selector>,
) -> Result<(), Memory>
    requires asked { All (λ t. height t ≤ 2) asked.now }
    requires parts { All (λ t. height t ≤ 139) parts.old.items }
    ensures pushed { OnOk result (parts.new.items ≡ parts.old.items ++ map namespace_tree asked.now) }
    ensures shallow { OnOk result (All (λ t. height t ≤ 139) parts.new.items) }
{
    for part in asked {
        push_asked(alloc, part, parts)?;
    }
    Ok(())
}

// What is asked of a namespace, asked of its endpoints.
fn push_asked(alloc: Global, part: &Selector, parts: &mut Vec<Selector>) -> Result<(), Memory>
    requires low { height part.now ≤ 2 }
    requires parts { All (λ t. height t ≤ 139) parts.old.items }
    ensures pushed { OnOk result (parts.new.items ≡ parts.old.items ++ namespace_tree part.now ∷ []) }
    ensures shallow { OnOk result (All (λ t. height t ≤ 139) parts.new.items) }
{
    push_given(parts, Some(part.rewrite_namespace(alloc)?))?;
    Ok(())
}

// ---- label selectors

fn given_parts(alloc: Global, selector: &Option<LabelSelector>) -> Result<Vec<Selector>, Memory>
    ensures parts { IfOk result (λ parts. parts.items ≡ given_trees selector.now) }
    ensures shallow { IfOk result (λ parts. All (λ t. height t ≤ 139) parts.items) }
{
    match selector {
        Some(selector) => selector_parts(alloc, selector),
        None => Ok(Vec::new(alloc)),
    }
}

fn selector_parts(alloc: Global, selector: &LabelSelector) -> Result<Vec<Selector>, Memory>
    ensures parts { IfOk result (λ parts. parts.items ≡ selector_trees selector.now) }
    ensures low { IfOk result (λ parts. All (λ t. height t ≤ 2) parts.items) }
    ensures shallow { IfOk result (λ parts. All (λ t. height t ≤ 139) parts.items) }
{
    parts_of(alloc, selector)
}

fn parts_of(alloc: Global, selector: &LabelSelector) -> Result<Vec<Selector>, Memory>
    ensures { IfOk result (λ parts. parts.items ≡ selector_trees selector.now) }
{
    let mut parts = Vec::new(alloc);
    push_pairs(alloc, selector.labels.as_slice(), &mut parts)?;
    push_expressions(alloc, selector.expressions.as_slice(), &mut parts)?;
    Ok(parts)
}

fn push_pairs(alloc: Global, pairs: &[LabelPair], parts: &mut Vec<Selector>) -> Result<(), Memory>
    ensures { OnOk result (parts.new.items ≡ parts.old.items ++ map pair_tree pairs.now) }
{
    for pair in pairs {
        parts.push(Selector::equal(alloc, pair.key.bytes(), pair.value.bytes())?)?;
    }
    Ok(())
}

fn push_expressions(
    alloc: Global,
    expressions: &[Expression],
    parts: &mut Vec<Selector>,
) -> Result<(), Memory>
    ensures { OnOk result (parts.new.items ≡ parts.old.items ++ map expression_tree expressions.now) }
{
    for expression in expressions {
        parts.push(expression_selector(alloc, expression)?)?;
    }
    Ok(())
}

fn expression_selector(alloc: Global, expression: &Expression) -> Result<Selector, Memory>
    ensures { IfOk result (λ selector. selector ≡ expression_tree expression.now) }
{
    match expression {
        Expression::In { key, values } => {
            Selector::one_of(alloc, key.bytes(), values.texts(), false)
        }
        Expression::NotIn { key, values } => {
            Selector::one_of(alloc, key.bytes(), values.texts(), true)
        }
        Expression::Exists { key } => Selector::has_key(alloc, key.bytes(), false),
        Expression::DoesNotExist { key } => Selector::has_key(alloc, key.bytes(), true),
    }
}
