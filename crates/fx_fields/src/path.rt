//! Where a value stands in the one that is read.
#![tactic(auto, using(crate::proofs::PathTexts::text_of_top, crate::proofs::PathTexts::text_of_member, crate::proofs::PathTexts::text_of_item))]

ghost use Rattle.std.specs.Prelude.{◌≡◌, IfOk};
ghost use Rattle.fx_fields.specs.Paths.{text_of, member_path, item_path};

use fx_base::{Memory, Text};
use std::alloc::Global;

/// The way from the whole value to one inside it. It borrows the way to the value around it, so that no memory is taken
/// as long as there is no fault to tell.
#[derive(Clone, Copy)]
pub enum Path<'a> {
    Top(&'a str),
    Member(&'a Path<'a>, &'a str),
    Item(&'a Path<'a>, usize),
}

impl<'a> Path<'a> {
    /// A member of the whole value.
    pub fn top(key: &'a str) -> Path<'a>
        ensures { text_of result ≡ key.now }
    {
        Path::Top(key)
    }

    /// The member of this name.
    pub fn member(&'a self, key: &'a str) -> Path<'a>
        ensures { text_of result ≡ member_path (text_of self.now) key.now }
    {
        Path::Member(self, key)
    }

    /// The item of a list at this index.
    pub fn item(&'a self, index: usize) -> Path<'a>
        ensures { text_of result ≡ item_path (text_of self.now) index }
    {
        Path::Item(self, index)
    }

    /// As `spec.ingress[0].action`.
    pub fn text(&self, alloc: Global) -> Result<Text, Memory>
        ensures { IfOk result (λ text. text ≡ text_of self.now) }
    {
        Text::from_vec(self.bytes(alloc)?)
    }

    /// The path of a value inside the one that stands here, by its own path from here on.
    pub(crate) fn leading_to(&self, alloc: Global, inner: &Text) -> Result<Text, Memory>
        ensures { IfOk result (λ text. text ≡ member_path (text_of self.now) inner.now) }
    {
        let mut path = self.bytes(alloc)?;
        path.extend_from_slice(b".")?;
        path.extend_from_slice(inner.bytes())?;
        Text::from_vec(path)
    }

    fn bytes(&self, alloc: Global) -> Result<Vec<u8>, Memory>
        ensures { IfOk result (λ bytes. bytes.items ≡ text_of self.now) }
    {
        match self {
            Path::Top(key) => Ok(Vec::from_slice(alloc, key.as_bytes())?),
            Path::Member(of, key) => with_member(of.bytes(alloc)?, key),
            Path::Item(of, index) => with_item(alloc, of.bytes(alloc)?, *index),
        }
    }
}

fn with_member(mut path: Vec<u8>, key: &str) -> Result<Vec<u8>, Memory>
    ensures { IfOk result (λ bytes. bytes.items ≡ member_path path.items key.now) }
{
    path.extend_from_slice(b".")?;
    path.extend_from_slice(key.as_bytes())?;
    Ok(path)
}

fn with_item(alloc: Global, mut path: Vec<u8>, index: usize) -> Result<Vec<u8>, Memory>
    ensures { IfOk result (λ bytes. bytes.items ≡ item_path path.items index) }
{
    let item = format!(in alloc; "[{index}]")?;
    path.extend_from_slice(item.as_bytes())?;
    Ok(path)
}
