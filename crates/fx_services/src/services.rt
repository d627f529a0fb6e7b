//! Reads the services that the rules of a resource name.
ghost use Rattle.std.specs.Prelude.{◌≡◌, not};
ghost use Rattle.serde_json.specs.View.{view, items_view};
ghost use Rattle.fx_base.specs.Given.{is_given};
ghost use Rattle.fx_fields.specs.Faults.{IsAnswerOf};
ghost use Rattle.fx_fields.specs.Paths.{text_of};
ghost use Rattle.fx_services.specs.Services.{is_ingress, are_none, is_empty, is_empty_at, asks_no_addresses, asks_no_selector, stands_alone, alone, namespace_of, service_fields, asked_service, service_at, refused_service, service_on, side_service, named_for, service_of_rule, rule_service, services_of, services_in, namespaced_services, calico_services, no_services, resource_services};

use fx_base::{Seq, Text};
use fx_fields::{
    Form, Kind, NamespacedName, Path, PolicyType, ReadFault, TextForm, UnreadForm, defaulted,
    field, has_members, items, kind_of, kubernetes_kind, namespaced_name_in, object, optional,
    required, section,
};
use serde_json::Value;
use std::alloc::Global;

/// The services that the rules of a policy or a profile name, for packets to its endpoints and from them, rule by rule.
#[derive(Drop)]
pub struct RuleServices {
    pub ingress: Seq<Option<NamespacedName>>,
    pub egress: Seq<Option<NamespacedName>>,
}

/// The services that the rules of a resource name. Only rules of Calico's policies and profiles name services.
pub fn read_services(alloc: Global, value: &Value) -> Result<RuleServices, ReadFault>
    ensures { IsAnswerOf (resource_services (view value.now)) result }
{
    match kubernetes_kind(value) {
        Some(_) => Ok(no_services(alloc)),
        None => calico_services(alloc, value),
    }
}

fn no_services(alloc: Global) -> RuleServices
    ensures { result ≡ no_services }
{
    RuleServices {
        ingress: Seq::new(alloc),
        egress: Seq::new(alloc),
    }
}

#[tactic(auto, unfolding(crate::specs::Services::calico_services))]
fn calico_services(alloc: Global, value: &Value) -> Result<RuleServices, ReadFault>
    ensures { IsAnswerOf (calico_services (view value.now)) result }
{
    match kind_of(value)? {
        Kind::Profile | Kind::GlobalNetworkPolicy => services_in(alloc, &None, value),
        Kind::NetworkPolicy => namespaced_services(alloc, value),
        Kind::WorkloadEndpoint | Kind::Tier | Kind::NetworkSet | Kind::GlobalNetworkSet => {
            Ok(no_services(alloc))
        }
    }
}

// A service without namespace is one of the policy's.
#[tactic(auto, unfolding(crate::specs::Services::namespaced_services))]
fn namespaced_services(alloc: Global, value: &Value) -> Result<RuleServices, ReadFault>
    ensures { IsAnswerOf (namespaced_services (view value.now)) result }
{
    let named = namespaced_name_in(alloc, value)?;
    services_in(alloc, &Some(named.ns), value)
}

#[tactic(auto, unfolding(crate::specs::Services::services_in))]
fn services_in(
    alloc: Global,
    own: &Option<Text>,
    resource: &Value,
) -> Result<RuleServices, ReadFault>
    ensures { IsAnswerOf (services_in own.now (view resource.now)) result }
{
    let nothing = Value::Null;
    let path = Path::top("spec");
    let spec = section(alloc, &path, "spec", resource, &nothing)?;
    services_of(alloc, own, &path, spec)
}

#[tactic(auto, unfolding(crate::specs::Services::services_of))]
fn services_of(
    alloc: Global,
    own: &Option<Text>,
    path: &Path<'_>,
    spec: &Value,
) -> Result<RuleServices, ReadFault>
    ensures { IsAnswerOf (services_of own.now (text_of path.now) (view spec.now)) result }
{
    let to = RuleServiceForm {
        direction: PolicyType::Ingress,
        own,
    };
    let from = RuleServiceForm {
        direction: PolicyType::Egress,
        own,
    };
    let ingress = items(alloc, &to, path, "ingress", spec)?;
    let egress = items(alloc, &from, path, "egress", spec)?;
    Ok(RuleServices { ingress, egress })
}

// ---- a rule

// How the service of a rule is read: by the direction of the rule's packets, and by the namespace of its policy, if
// that is of one.
#[derive(Clone, Copy)]
struct RuleServiceForm<'f> {
    direction: PolicyType,
    own: &'f Option<Text>,
}

impl Form for RuleServiceForm<'_> {
    type Read = Option<NamespacedName>;

    ghost read_by = { λ form. rule_service form.direction form.own.now };

    #[tactic(auto, unfolding(crate::specs::Services::rule_service))]
    fn read(
        &self,
        alloc: Global,
        path: &Path<'_>,
        value: &Value,
    ) -> Result<Option<NamespacedName>, ReadFault> {
        service_of_rule(alloc, *self, path, object(alloc, path, value)?)
    }
}

// Packets to an endpoint come from a service, and packets from it go to one.
#[tactic(auto, unfolding(crate::specs::Services::service_of_rule))]
fn service_of_rule(
    alloc: Global,
    form: RuleServiceForm<'_>,
    path: &Path<'_>,
    rule: &Value,
) -> Result<Option<NamespacedName>, ReadFault>
    ensures { IsAnswerOf (service_of_rule form.entry.direction form.entry.own.now (text_of path.now) (view rule.now)) result }
{
    let ingress = is_ingress(form.direction);
    let source = side_service(alloc, ingress, form.own, path, "source", rule)?;
    let destination = side_service(alloc, !ingress, form.own, path, "destination", rule)?;
    Ok(named_for(form.direction, source, destination))
}

fn is_ingress(direction: PolicyType) -> bool
    ensures { result ≡ is_ingress direction }
{
    match direction {
        PolicyType::Ingress => true,
        PolicyType::Egress => false,
    }
}

fn named_for(
    direction: PolicyType,
    source: Option<NamespacedName>,
    destination: Option<NamespacedName>,
) -> Option<NamespacedName>
    ensures { result ≡ named_for direction source destination }
{
    match direction {
        PolicyType::Ingress => source,
        PolicyType::Egress => destination,
    }
}

// ---- a side

#[tactic(auto, unfolding(crate::specs::Services::side_service))]
fn side_service(
    alloc: Global,
    may: bool,
    own: &Option<Text>,
    path: &Path<'_>,
    key: &str,
    rule: &Value,
) -> Result<Option<NamespacedName>, ReadFault>
    ensures { IsAnswerOf (side_service may own.now (text_of path.now) key.now (view rule.now)) result }
{
    let nothing = Value::Null;
    let here = path.member(key);
    let side = section(alloc, &here, key, rule, &nothing)?;
    service_on(alloc, may, own, &here, side)
}

// A side that may name a service, or may not.
fn service_on(
    alloc: Global,
    may: bool,
    own: &Option<Text>,
    path: &Path<'_>,
    side: &Value,
) -> Result<Option<NamespacedName>, ReadFault>
    ensures { IsAnswerOf (service_on may own.now (text_of path.now) (view side.now)) result }
{
    if may {
        return service_at(alloc, own, path, side);
    }
    refused_service(alloc, path, side)
}

#[tactic(auto, unfolding(crate::specs::Services::service_at))]
fn service_at(
    alloc: Global,
    own: &Option<Text>,
    path: &Path<'_>,
    side: &Value,
) -> Result<Option<NamespacedName>, ReadFault>
    ensures { IsAnswerOf (service_at own.now (text_of path.now) (view side.now)) result }
{
    optional(alloc, &ServiceForm { own, side }, path, "services", side)
}

#[tactic(auto, unfolding(crate::specs::Services::refused_service))]
fn refused_service(
    alloc: Global,
    path: &Path<'_>,
    side: &Value,
) -> Result<Option<NamespacedName>, ReadFault>
    ensures { IsAnswerOf (refused_service (text_of path.now) (view side.now)) result }
{
    optional(alloc, &UnreadForm, path, "services", side)?;
    Ok(None)
}

// ---- a service

// A service that this side names, in a rule of a policy of this namespace.
#[derive(Drop)]
struct ServiceForm<'f> {
    own: &'f Option<Text>,
    side: &'f Value,
}

impl Form for ServiceForm<'_> {
    type Read = NamespacedName;

    ghost read_by = { λ form. asked_service form.own.now (view form.side.now) };

    #[tactic(auto, unfolding(crate::specs::Services::asked_service))]
    fn read(
        &self,
        alloc: Global,
        path: &Path<'_>,
        value: &Value,
    ) -> Result<NamespacedName, ReadFault> {
        let service = object(alloc, path, value)?;
        alone(alloc, path, self.side)?;
        read_service(alloc, self.own, path, service)
    }
}

#[tactic(auto, unfolding(crate::specs::Services::service_fields))]
fn read_service(
    alloc: Global,
    own: &Option<Text>,
    path: &Path<'_>,
    service: &Value,
) -> Result<NamespacedName, ReadFault>
    ensures { IsAnswerOf (service_fields own.now (text_of path.now) (view service.now)) result }
{
    let name = required(alloc, &TextForm::Name, path, "name", service)?;
    let ns = namespace_of(alloc, own, path, service)?;
    Ok(NamespacedName { ns, name })
}

fn namespace_of(
    alloc: Global,
    own: &Option<Text>,
    path: &Path<'_>,
    service: &Value,
) -> Result<Text, ReadFault>
    ensures { IsAnswerOf (namespace_of own.now (text_of path.now) (view service.now)) result }
{
    let form = TextForm::Namespace;
    match own {
        Some(own) => {
            let own = Text::new(alloc, own.bytes())?;
            defaulted(alloc, &form, own, path, "namespace", service)
        }
        None => required(alloc, &form, path, "namespace", service),
    }
}

// ---- beside a service

// A side that names a service asks for nothing else.
fn alone(alloc: Global, path: &Path<'_>, side: &Value) -> Result<(), ReadFault>
    ensures { IsAnswerOf (alone (text_of path.now) (view side.now)) result }
{
    if stands_alone(side) {
        Ok(())
    } else {
        Err(ReadFault::BadField {
            path: path.text(alloc)?,
        })
    }
}

fn stands_alone(side: &Value) -> bool
    ensures { result ≡ stands_alone (view side.now) }
{
    asks_no_addresses(side) && asks_no_selector(side)
}

#[tactic(auto, unfolding(crate::specs::Services::asks_no_addresses))]
fn asks_no_addresses(side: &Value) -> bool
    ensures { result ≡ asks_no_addresses (view side.now) }
{
    is_empty_at(side, "nets")
        && is_empty_at(side, "notNets")
        && is_empty_at(side, "ports")
        && is_empty_at(side, "notPorts")
}

#[tactic(auto, unfolding(crate::specs::Services::asks_no_selector))]
fn asks_no_selector(side: &Value) -> bool
    ensures { result ≡ asks_no_selector (view side.now) }
{
    is_empty_at(side, "selector")
        && is_empty_at(side, "notSelector")
        && is_empty_at(side, "namespaceSelector")
        && is_empty_at(side, "serviceAccounts")
}

// Whether the member of this name is absent or empty.
fn is_empty_at(side: &Value, key: &str) -> bool
    ensures { result ≡ is_empty_at key.now (view side.now) }
{
    match field(side, key) {
        Some(value) => is_empty(value),
        None => true,
    }
}

fn is_empty(value: &Value) -> bool
    ensures { result ≡ is_empty (view value.now) }
{
    match value {
        Value::Null => true,
        Value::Bool(_) | Value::Number(_) => false,
        Value::String(text) => is_no_text(text.as_bytes()),
        Value::Array(values) => are_none(values.as_slice()),
        Value::Object(_) => has_members(value, 0),
    }
}

fn is_no_text(bytes: &[u8]) -> bool
    ensures { result ≡ not (is_given bytes.now) }
{
    bytes.is_empty()
}

fn are_none(values: &[Value]) -> bool
    ensures { result ≡ are_none (items_view values.now) }
{
    values.is_empty()
}
