//! Reads the expressions of a label selector.
ghost use Rattle.std.specs.Prelude.{◌≡◌, [], true, IfOk, IfSome, option_map};
ghost use Rattle.serde_json.specs.View.{view, items_view};
ghost use Rattle.fx_fields.specs.Faults.{IsAnswerOf};
ghost use Rattle.fx_fields.specs.Paths.{text_of};
ghost use Rattle.fx_fields.specs.Forms.{is_label_value};
ghost use Rattle.fx_fields.specs.Kinds.{text_at};
ghost use Rattle.fx_k8s.specs.LabelSelectors.{key_at, values_at, value_in, values_from, when, expression_named, expression_in, told, expression};

use crate::label_texts::{LabelKey, LabelValues, is_label_key};
use fx_base::{Memory, Text};
use fx_fields::{Form, Path, ReadFault, field, is_given, is_label_value, object, text_at};
use serde_json::Value;
use std::alloc::Global;

/// What is asked of the label of a key.
#[derive(Drop)]
pub enum Expression {
    In { key: LabelKey, values: LabelValues },
    NotIn { key: LabelKey, values: LabelValues },
    Exists { key: LabelKey },
    DoesNotExist { key: LabelKey },
}

/// An expression.
pub struct ExpressionForm;

impl Form for ExpressionForm {
    type Read = Expression;

    ghost read_by = { λ _. expression };

    fn read(&self, alloc: Global, path: &Path<'_>, value: &Value) -> Result<Expression, ReadFault> {
        let object = object(alloc, path, value)?;
        told(alloc, path, expression_in(alloc, object)?)
    }
}

fn told(alloc: Global, path: &Path<'_>, found: Option<Expression>) -> Result<Expression, ReadFault>
    ensures { IsAnswerOf (told (text_of path.now) found) result }
{
    match found {
        Some(expression) => Ok(expression),
        None => Err(ReadFault::BadExpression {
            path: path.text(alloc)?,
        }),
    }
}

fn expression_in(alloc: Global, value: &Value) -> Result<Option<Expression>, Memory>
    ensures { IfOk result (λ found. found ≡ expression_in (view value.now)) }
{
    let Some(key) = key_at(alloc, value)? else {
        return Ok(None);
    };
    let Some(values) = values_at(alloc, value)? else {
        return Ok(None);
    };
    let Some(operator) = text_at(value, "operator") else {
        return Ok(None);
    };
    Ok(expression_named(operator, key, values))
}

// ---- operators

fn expression_named(operator: &str, key: LabelKey, values: LabelValues) -> Option<Expression>
    ensures { result ≡ expression_named operator.now key values }
{
    let given = is_given(values.texts());
    match operator {
        "In" => when(given, Expression::In { key, values }),
        "NotIn" => when(given, Expression::NotIn { key, values }),
        "Exists" => when(!given, Expression::Exists { key }),
        "DoesNotExist" => when(!given, Expression::DoesNotExist { key }),
        _ => None,
    }
}

fn when(right: bool, expression: Expression) -> Option<Expression>
    ensures { result ≡ when right expression }
{
    if right { Some(expression) } else { None }
}

// ---- the key and the values

fn key_at(alloc: Global, value: &Value) -> Result<Option<LabelKey>, Memory>
    ensures { IfOk result (λ key. key ≡ key_at (view value.now)) }
{
    let Some(text) = text_at(value, "key") else {
        return Ok(None);
    };
    if !is_label_key(text.as_bytes()) {
        return Ok(None);
    }
    Ok(Some(LabelKey::new(alloc, text.as_bytes())?))
}

// The values that are listed, none where the list is absent.
fn values_at(alloc: Global, value: &Value) -> Result<Option<LabelValues>, Memory>
    ensures { IfOk result (λ values. values ≡ values_at (view value.now)) }
{
    let Some(listed) = field(value, "values") else {
        return Ok(Some(LabelValues::from_vec(Vec::new(alloc))));
    };
    match listed.as_array() {
        Some(values) => values_of(alloc, values.as_slice()),
        None => Ok(None),
    }
}

#[tactic(auto, using(crate::proofs::Pushed::one_more_passes))]
fn values_of(alloc: Global, listed: &[Value]) -> Result<Option<LabelValues>, Memory>
    ensures { IfOk result (λ values. values ≡ values_from (items_view listed.now) []) }
{
    let mut values = Vec::new(alloc);
    for item in listed {
        let Some(text) = value_in(item) else {
            return Ok(None);
        };
        values.push(Text::new(alloc, text.as_bytes())?)?;
    }
    Ok(Some(LabelValues::from_vec(values)))
}

fn value_in(item: &Value) -> Option<&str>
    ensures value { option_map (λ text. text.now) result ≡ value_in (view item.now) }
    ensures form { IfSome result (λ text. is_label_value text.now ≡ true) }
{
    let text = item.as_str()?;
    if is_label_value(text.as_bytes()) {
        Some(text)
    } else {
        None
    }
}
