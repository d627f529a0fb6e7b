//! The fields of resources and packets that need no model: how members and items of JSON values are read, in which forms, and
//! why a value or a whole line is refused.
#![tactic(auto)]

pub use fault::ReadFault;
pub use fields::{
    Form, UnreadForm, defaulted, field, formed, has_members, is_absent, is_given, items, list_at,
    object, optional, read_items, required, section,
};
pub use kinds::{Kind, KubernetesKind, kind_of, kubernetes_kind, text_at};
pub use labels::{in_namespace, labels_at, own_labels};
pub use laws::selectors_are_read;
pub use metadata::{GlobalMetadata, Metadata, global_metadata_in, metadata_in};
pub use names::{NamespacedName, name_at, name_in, namespaced_name, namespaced_name_in};
pub use nets::{ReadNets, ipv4_addresses, ipv4_nets, is_ipv6, read_nets};
pub use path::Path;
pub use policy_fields::{
    DefaultActionForm, Directions, OrderForm, PolicyType, PolicyTypeForm, TierPlace, directions_of,
    read_flags, read_place,
};
pub use refusal::Refusal;
pub use rule_form::{OwnNamespace, RuleForm, RulePlace, Services};
pub use selectors::{global_selector, namespaced_selector, of_namespace, push_given};
pub use side_selectors::{SideSelectors, read_selectors};
pub use texts::{TextForm, is_label_value, is_name, is_port_name};
pub use values::{
    AddressForm, ByteForm, HostForm, NetForm, ProtocolForm, VersionForm, WordForm, one_port,
    ports_in, protocol_in, word_in,
};

mod fault;
mod fields;
mod kinds;
mod labels;
mod laws;
mod metadata;
mod names;
mod nets;
mod path;
mod policy_fields;
mod refusal;
mod rule_form;
mod selectors;
mod side_selectors;
mod texts;
mod values;
