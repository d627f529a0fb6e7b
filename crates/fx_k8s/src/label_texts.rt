//! Keys and values of labels that may stand in a selector.
ghost use Rattle.std.specs.Prelude.{◌≡◌, true, IfOk};
ghost use Rattle.std.specs.List.{list_all};
ghost use Rattle.fx_selector.specs.Tree.{IsKey, IsString, AreStrings};
ghost use Rattle.fx_fields.specs.Forms.{is_label_value};
ghost use Rattle.fx_k8s.specs.LabelSelectors.{is_label_key};

use fx_base::{Memory, Seq, Text};
use fx_selector::is_selector_key;
use std::alloc::Global;
use std::marker::Model;

/// The most bytes of a key, as in a selector's text.
const KEY_LIMIT: usize = 512;

/// Whether a label may have this key in a selector.
pub fn is_label_key(text: &[u8]) -> bool
    ensures { result ≡ is_label_key text.now }
{
    if text.len() > KEY_LIMIT {
        return false;
    }
    is_selector_key(text)
}

/// A label's key.
#[derive(Drop)]
pub struct LabelKey {
    held: Text,
}

impl Model for LabelKey {
    ghost use Rattle.std.specs.Prelude.{ℕ, List};
    ghost use Rattle.fx_selector.specs.Tree.{IsKey};

    ghost Value = { List ℕ };

    ghost view = { λ a. a.held };

    ghost invariant = { λ a. IsKey a.held };
}

impl LabelKey {
    pub fn new(alloc: Global, key: &[u8]) -> Result<LabelKey, Memory>
        requires { is_label_key key.now ≡ true }
        ensures { IfOk result (λ made. made ≡ key.now) }
    {
        let held = Text::new(alloc, key)?;
        Ok(LabelKey { held })
    }

    pub fn bytes(&self) -> &[u8]
        ensures bytes { result.now ≡ self.now }
        ensures key { IsKey result.now }
    {
        self.held.bytes()
    }
}

/// A label's value.
#[derive(Drop)]
pub struct LabelValue {
    held: Text,
}

impl Model for LabelValue {
    ghost use Rattle.std.specs.Prelude.{ℕ, List};
    ghost use Rattle.fx_selector.specs.Tree.{IsString};

    ghost Value = { List ℕ };

    ghost view = { λ a. a.held };

    ghost invariant = { λ a. IsString a.held };
}

impl LabelValue {
    pub fn new(alloc: Global, value: &[u8]) -> Result<LabelValue, Memory>
        requires { is_label_value value.now ≡ true }
        ensures { IfOk result (λ made. made ≡ value.now) }
    {
        let held = Text::new(alloc, value)?;
        Ok(LabelValue { held })
    }

    pub fn bytes(&self) -> &[u8]
        ensures bytes { result.now ≡ self.now }
        ensures string { IsString result.now }
    {
        self.held.bytes()
    }
}

/// Values of which a label may have one, in the order in which they are listed.
#[derive(Drop)]
pub struct LabelValues {
    held: Seq<Text>,
}

impl Model for LabelValues {
    ghost use Rattle.std.specs.Prelude.{ℕ, List};
    ghost use Rattle.fx_selector.specs.Tree.{AreStrings};

    ghost Value = { List (List ℕ) };

    ghost view = { λ a. a.held };

    ghost invariant = { λ a. AreStrings a.held };
}

impl LabelValues {
    pub fn from_vec(values: Vec<Text>) -> LabelValues
        requires { list_all is_label_value values.items ≡ true }
        ensures { result ≡ values.items }
    {
        let held = Seq::from_vec(values);
        LabelValues { held }
    }

    pub fn texts(&self) -> &[Text]
        ensures texts { result.now ≡ self.now }
        ensures strings { AreStrings result.now }
    {
        self.held.as_slice()
    }
}
