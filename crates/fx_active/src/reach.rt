//! On which endpoints selectors hold.
ghost use Rattle.std.specs.Prelude.{◌≡◌, is_some};
ghost use Rattle.std.specs.Option.{option_copied};
ghost use Rattle.std.specs.FinMap as map;
ghost use Rattle.fx_model.specs.declared.ids.ItemKey.{ItemKey};
ghost use Rattle.fx_active.specs.Active.{applies_to, holds_somewhere, where_active};
ghost use Rattle.fx_base.specs.Grouped.{has_key};
ghost use Rattle.fx_active.specs.Rows.{has_some};

use crate::held::Held;
use crate::indexed_policy::IndexedPolicy;
use fx_base::Text;
use fx_model::{ItemKey, ItemMap};

/// The endpoints to which the policy applies, if it is there.
pub fn row_of<'a>(held: &'a Held, indexed: Option<&IndexedPolicy>) -> Option<&'a ItemMap<()>>
    ensures { (i : ItemKey) → has_key (option_copied result) i
        ≡ applies_to held.now.endpoints held.now.matched (option_copied indexed.entry) i }
{
    let indexed = indexed?;
    if !indexed.policy().has_types() {
        return None;
    }
    held.items(indexed.text())
}

/// Whether the policy, if it is there, applies to the item.
pub fn applies(held: &Held, indexed: Option<&IndexedPolicy>, item: &ItemKey) -> bool
    ensures { result ≡ applies_to held.now.endpoints held.now.matched (option_copied indexed.entry) item.now }
{
    match row_of(held, indexed) {
        Some(items) => items.get(item).is_some(),
        None => false,
    }
}

/// Whether the selector holds on some endpoint that is there.
pub fn holds_somewhere(held: &Held, text: &Text) -> bool
    ensures { result ≡ holds_somewhere held.now.endpoints held.now.matched text.now }
{
    match held.items(text) {
        Some(items) => has_some(items),
        None => false,
    }
}

fn has_some(items: &ItemMap<()>) -> bool
    ensures { result ≡ has_some (map.entries items.now) }
{
    items.iter().next().is_some()
}

/// Whether the policy, if it is there, applies to some endpoint that is there.
pub fn is_active(held: &Held, indexed: Option<&IndexedPolicy>) -> bool
    ensures { result ≡ is_some (where_active held.now.endpoints held.now.matched (option_copied indexed.entry)) }
{
    match indexed {
        Some(indexed) => indexed.policy().has_types() && holds_somewhere(held, indexed.text()),
        None => false,
    }
}
