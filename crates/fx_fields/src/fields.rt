//! Looks members of objects and items of lists up, and reads them in a form.
ghost use Rattle.std.specs.Prelude.{◌≡◌, ◌+◌, ℕ, List, Some, None, Ok, Result, MatchResult, option_map};
ghost use Rattle.serde_json.specs.Data.{Data, null};
ghost use Rattle.serde_json.specs.View.{view, items_view, members_view};
ghost use Rattle.fx_base.specs.Given.{is_given};
ghost use Rattle.fx_fields.specs.declared.fault.ReadFault.{ReadFault};
ghost use Rattle.fx_fields.specs.declared.fault.ReadFault.TheVariants.{MissingField};
ghost use Rattle.fx_fields.specs.Faults.{IsReadFault, IsAnswerOf};
ghost use Rattle.fx_fields.specs.Paths.{text_of, member_path, item_path};
ghost use Rattle.fx_fields.specs.Fields.{Reader, field, is_absent, is_null, has_members, member_count, formed, unread, required, defaulted, optional, object_at, section, list_at, items, items_from};

use crate::fault::ReadFault;
use crate::path::Path;
use fx_base::Seq;
use serde_json::{Map, Value};
use std::alloc::Global;

/// The member of this name, if its value isn't null.
pub fn field<'v>(object: &'v Value, key: &str) -> Option<&'v Value>
    ensures { option_map (λ v. view v.now) result ≡ field key.now (view object.now) }
{
    match object.get(key) {
        Some(Value::Null) => None,
        found => found,
    }
}

/// Whether there is no member of this name, or its value is null.
pub fn is_absent(object: &Value, key: &str) -> bool
    ensures { result ≡ is_absent key.now (view object.now) }
{
    field(object, key).is_none()
}

/// Whether it is an object with this many members, those with value null left out.
pub fn has_members(value: &Value, count: usize) -> bool
    ensures { result ≡ has_members count (view value.now) }
{
    match value.as_object() {
        Some(map) => member_count(map) == count,
        None => false,
    }
}

fn member_count(map: &Map<String, Value>) -> usize
    ensures { result ≡ member_count (members_view map.now.entries) }
{
    let mut count = 0;
    for (_, value) in map.iter() {
        if !value.is_null() {
            count += 1;
        }
    }
    count
}

/// Whether a list isn't empty.
pub fn is_given<T>(items: &[T]) -> bool
    ensures { result ≡ is_given items.now }
{
    !items.is_empty()
}

/// How the values of a form are read.
pub trait Form {
    type Read: Drop;

    ghost read_by: { Self → List ℕ → Data → Result Self.Read ReadFault };

    /// Reads the value at a path.
    fn read(&self, alloc: Global, path: &Path<'_>, value: &Value) -> Result<Self::Read, ReadFault>
        ensures { IsAnswerOf (read_by self.now (text_of path.now) (view value.now)) result };
}

/// What was found of the value at a path, which has to be in its form.
pub fn formed<T: Drop>(alloc: Global, path: &Path<'_>, found: Option<T>) -> Result<T, ReadFault>
    ensures { IsAnswerOf (formed (text_of path.now) found) result }
{
    match found {
        Some(value) => Ok(value),
        None => Err(ReadFault::BadField {
            path: path.text(alloc)?,
        }),
    }
}

/// A member that isn't read yet.
pub struct UnreadForm;

impl Form for UnreadForm {
    type Read = ();

    ghost read_by = { λ _. unread };

    fn read(&self, alloc: Global, path: &Path<'_>, _value: &Value) -> Result<(), ReadFault> {
        Err(ReadFault::Unsupported {
            path: path.text(alloc)?,
        })
    }
}

/// The member of this name, which has to be there.
#[tactic(auto, unfolding(crate::specs::Fields::required))]
pub fn required<F: Form>(
    alloc: Global,
    form: &F,
    path: &Path<'_>,
    key: &str,
    object: &Value,
) -> Result<F::Read, ReadFault>
    ensures { IsAnswerOf (required (F.read_by form.now) (text_of path.now) key.now (view object.now)) result }
{
    let here = path.member(key);
    match field(object, key) {
        Some(value) => form.read(alloc, &here, value),
        None => Err(ReadFault::MissingField {
            path: here.text(alloc)?,
        }),
    }
}

/// The member of this name, if it is there.
#[tactic(auto, unfolding(crate::specs::Fields::optional))]
pub fn optional<F: Form>(
    alloc: Global,
    form: &F,
    path: &Path<'_>,
    key: &str,
    object: &Value,
) -> Result<Option<F::Read>, ReadFault>
    ensures { IsAnswerOf (optional (F.read_by form.now) (text_of path.now) key.now (view object.now)) result }
{
    match field(object, key) {
        Some(value) => Ok(Some(form.read(alloc, &path.member(key), value)?)),
        None => Ok(None),
    }
}

/// The member of this name, or what stands for it where it is absent.
#[tactic(auto, unfolding(crate::specs::Fields::defaulted))]
pub fn defaulted<F: Form>(
    alloc: Global,
    form: &F,
    absent: F::Read,
    path: &Path<'_>,
    key: &str,
    object: &Value,
) -> Result<F::Read, ReadFault>
    ensures { IsAnswerOf (defaulted absent (F.read_by form.now) (text_of path.now) key.now (view object.now)) result }
{
    match field(object, key) {
        Some(value) => form.read(alloc, &path.member(key), value),
        None => Ok(absent),
    }
}

// ---- objects and lists

/// The value, which has to be an object.
#[tactic(auto, unfolding(crate::specs::Fields::object_at))]
pub fn object<'v>(alloc: Global, path: &Path<'_>, value: &'v Value) -> Result<&'v Value, ReadFault>
    ensures { MatchResult result (λ v. object_at (text_of path.now) (view value.now) ≡ Ok (view v.now))
        (IsReadFault (object_at (text_of path.now) (view value.now))) }
{
    if value.is_object() {
        Ok(value)
    } else {
        Err(ReadFault::BadField {
            path: path.text(alloc)?,
        })
    }
}

/// The object of this name, which stands at this path, or `nothing` where it is absent.
#[tactic(auto, unfolding(crate::specs::Fields::section))]
pub fn section<'v>(
    alloc: Global,
    path: &Path<'_>,
    key: &str,
    outer: &'v Value,
    nothing: &'v Value,
) -> Result<&'v Value, ReadFault>
    requires { view nothing.now ≡ null }
    ensures { MatchResult result (λ v. section (text_of path.now) key.now (view outer.now) ≡ Ok (view v.now))
        (IsReadFault (section (text_of path.now) key.now (view outer.now))) }
{
    match field(outer, key) {
        Some(value) => object(alloc, path, value),
        None => Ok(nothing),
    }
}

/// The values of the list of this name; there are none where it is absent.
#[tactic(auto, unfolding(crate::specs::Fields::list_at, crate::specs::Fields::defaulted))]
pub fn list_at<'v>(
    alloc: Global,
    path: &Path<'_>,
    key: &str,
    object: &'v Value,
) -> Result<&'v [Value], ReadFault>
    ensures { MatchResult result (λ values. list_at (text_of path.now) key.now (view object.now)
        ≡ Ok (items_view values.now)) (IsReadFault (list_at (text_of path.now) key.now (view object.now))) }
{
    let Some(value) = field(object, key) else {
        return Ok(&[]);
    };
    match value.as_array() {
        Some(values) => Ok(values.as_slice()),
        None => Err(ReadFault::BadField {
            path: path.member(key).text(alloc)?,
        }),
    }
}

/// The list of this name, item by item.
#[tactic(auto, unfolding(crate::specs::Fields::items))]
pub fn items<F: Form>(
    alloc: Global,
    form: &F,
    path: &Path<'_>,
    key: &str,
    object: &Value,
) -> Result<Seq<F::Read>, ReadFault>
    ensures { IsAnswerOf (items (F.read_by form.now) (text_of path.now) key.now (view object.now)) result }
{
    let values = list_at(alloc, path, key, object)?;
    read_items(alloc, form, &path.member(key), values)
}

/// The items of a list.
pub fn read_items<F: Form>(
    alloc: Global,
    form: &F,
    path: &Path<'_>,
    values: &[Value],
) -> Result<Seq<F::Read>, ReadFault>
    ensures { IsAnswerOf (items_from (F.read_by form.now) (text_of path.now) 0 (items_view values.now)) result }
{
    let mut read = Vec::new(alloc);
    for (index, value) in values.iter().enumerate() {
        read.push(form.read(alloc, &path.item(index), value)?)?;
    }
    Ok(Seq::from_vec(read))
}
