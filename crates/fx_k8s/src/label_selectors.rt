//! Reads a label selector of Kubernetes.
ghost use Rattle.std.specs.Prelude.{◌≡◌, [], true, IfOk};
ghost use Rattle.serde_json.specs.View.{view, members_view};
ghost use Rattle.fx_fields.specs.Faults.{IsAnswerOf};
ghost use Rattle.fx_fields.specs.Paths.{text_of};
ghost use Rattle.fx_k8s.specs.LabelSelectors.{is_pair, pairs_from, pairs_in, match_labels, selector_fields, label_selector};

use crate::expressions::{Expression, ExpressionForm};
use crate::label_texts::{LabelKey, LabelValue, is_label_key};
use fx_base::{Memory, Seq};
use fx_fields::{Form, Path, ReadFault, defaulted, formed, is_label_value, items, object};
use serde_json::{Map, Value};
use std::alloc::Global;

/// A label that is asked for: its key and its value.
#[derive(Drop)]
pub struct LabelPair {
    pub key: LabelKey,
    pub value: LabelValue,
}

/// What is asked of labels: these labels, and what the expressions say. All must hold; an empty one asks nothing.
#[derive(Drop)]
pub struct LabelSelector {
    pub labels: Seq<LabelPair>,
    pub expressions: Seq<Expression>,
}

/// A label selector.
pub struct LabelSelectorForm;

impl Form for LabelSelectorForm {
    type Read = LabelSelector;

    ghost read_by = { λ _. label_selector };

    #[tactic(auto, unfolding(crate::specs::LabelSelectors::label_selector))]
    fn read(
        &self,
        alloc: Global,
        path: &Path<'_>,
        value: &Value,
    ) -> Result<LabelSelector, ReadFault> {
        read_selector(alloc, path, object(alloc, path, value)?)
    }
}

#[tactic(auto, unfolding(crate::specs::LabelSelectors::selector_fields))]
fn read_selector(
    alloc: Global,
    path: &Path<'_>,
    selector: &Value,
) -> Result<LabelSelector, ReadFault>
    ensures { IsAnswerOf (selector_fields (text_of path.now) (view selector.now)) result }
{
    let none = Seq::new(alloc);
    let labels = defaulted(alloc, &PairsForm, none, path, "matchLabels", selector)?;
    let expressions = items(alloc, &ExpressionForm, path, "matchExpressions", selector)?;
    Ok(LabelSelector {
        labels,
        expressions,
    })
}

// ---- labels

// An object of labels, in the order of their keys.
struct PairsForm;

impl Form for PairsForm {
    type Read = Seq<LabelPair>;

    ghost read_by = { λ _. match_labels };

    fn read(
        &self,
        alloc: Global,
        path: &Path<'_>,
        value: &Value,
    ) -> Result<Seq<LabelPair>, ReadFault> {
        let pairs = pairs_in(alloc, value)?;
        formed(alloc, path, pairs)
    }
}

fn pairs_in(alloc: Global, value: &Value) -> Result<Option<Seq<LabelPair>>, Memory>
    ensures { IfOk result (λ pairs. pairs ≡ pairs_in (view value.now)) }
{
    match value.as_object() {
        Some(map) => pairs_of(alloc, map),
        None => Ok(None),
    }
}

// The labels that these members are. One that is null counts as absent.
fn pairs_of(alloc: Global, map: &Map<String, Value>) -> Result<Option<Seq<LabelPair>>, Memory>
    ensures { IfOk result (λ pairs. pairs ≡ pairs_from (members_view map.now.entries) []) }
{
    let mut pairs = Vec::new(alloc);
    for (key, value) in map.iter() {
        match value {
            Value::Null => {}
            Value::String(text) => {
                if !is_pair(key.as_bytes(), text.as_bytes()) {
                    return Ok(None);
                }
                pairs.push(label_pair(alloc, key.as_bytes(), text.as_bytes())?)?;
            }
            _ => return Ok(None),
        }
    }
    Ok(Some(Seq::from_vec(pairs)))
}

fn is_pair(key: &[u8], value: &[u8]) -> bool
    ensures { result ≡ is_pair key.now value.now }
{
    is_label_key(key) && is_label_value(value)
}

fn label_pair(alloc: Global, key: &[u8], value: &[u8]) -> Result<LabelPair, Memory>
    requires { is_pair key.now value.now ≡ true }
    ensures { IfOk result (λ pair. pair ≡ record { key = key.now; value = value.now }) }
{
    let key = LabelKey::new(alloc, key)?;
    let value = LabelValue::new(alloc, value)?;
    Ok(LabelPair { key, value })
}
