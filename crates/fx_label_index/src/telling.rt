//! What a sink is told of pairs that come and go.
ghost use Rattle.std.specs.Prelude.{◌≡◌, ◌&&◌, ℕ, List, OnOk, cond, true};
ghost use Rattle.std.specs.Option.{option_copied};
ghost use Rattle.std.specs.FinMap as map;
ghost use Rattle.fx_base.specs.Set as set;
ghost use Rattle.fx_base.specs.Grouped.{has_key};
ghost use Rattle.fx_model.specs.Pairs.{put};
ghost use Rattle.fx_model.specs.declared.ids.ItemKey.{ItemKey};
ghost use Rattle.fx_label_index.specs.Matched.{item_eq, text_eq};
ghost use Rattle.fx_label_index.specs.Indexed.{AreTold};

use fx_base::{Memory, Text};
use fx_label_rows::change_row;
use fx_model::{ItemKey, ItemMap, MatchSink};
use fx_text_sets::TextSet;
use std::alloc::Global;

/// Adds a pair that is to stand, or removes one that is not.
#[tactic(auto, using(fx_model::proofs::PairAt::put_same_pair))]
fn set_pair<S: MatchSink>(
    text: &Text,
    key: &ItemKey,
    stood: bool,
    stands: bool,
    sink: &mut S,
) -> Result<(), Memory>
    requires { set.contains (S.pairs sink.old) (text.now, key.now) ≡ stood }
    ensures { OnOk result (S.pairs sink.new ≡ put (S.pairs sink.old) (text.now, key.now) stands) }
{
    if stands && !stood {
        sink.matched(text, key)?;
    }
    if stood && !stands {
        sink.unmatched(text, key)?;
    }
    Ok(())
}

/// Brings the item's pairs of these texts from those that stood to those that are to stand.
fn set_each<S: MatchSink>(
    texts: &TextSet,
    key: &ItemKey,
    stood: &TextSet,
    stands: &TextSet,
    sink: &mut S,
) -> Result<(), Memory>
    requires { (t : List ℕ) → set.contains texts.now t ≡ true
        → set.contains (S.pairs sink.old) (t, key.now) ≡ set.contains stood.now t }
    ensures { OnOk result ((t : List ℕ) (i : ItemKey) → set.contains (S.pairs sink.new) (t, i)
        ≡ cond (set.contains texts.now t && item_eq i key.now) (set.contains stands.now t)
        (set.contains (S.pairs sink.old) (t, i))) }
{
    for (text, _) in texts.iter() {
        set_pair(text, key, stood.contains(text), stands.contains(text), sink)?;
    }
    Ok(())
}

/// Brings the item's pairs from the texts before to the texts after.
fn tell<S: MatchSink>(
    key: &ItemKey,
    before: &TextSet,
    after: &TextSet,
    sink: &mut S,
) -> Result<(), Memory>
    requires { (t : List ℕ) → set.contains (S.pairs sink.old) (t, key.now) ≡ set.contains before.now t }
    ensures { OnOk result ((t : List ℕ) (i : ItemKey) → set.contains (S.pairs sink.new) (t, i)
        ≡ cond (item_eq i key.now) (set.contains after.now t) (set.contains (S.pairs sink.old) (t, i))) }
{
    set_each(after, key, before, after, sink)?;
    set_each(before, key, before, after, sink)?;
    Ok(())
}

/// Makes exactly these texts hold on the item.
pub fn tell_item<S: MatchSink>(
    alloc: Global,
    rows: &mut ItemMap<TextSet>,
    key: &ItemKey,
    after: TextSet,
    sink: &mut S,
) -> Result<(), Memory>
    requires { AreTold (S.pairs sink.old) rows.old }
    ensures told { OnOk result (AreTold (S.pairs sink.new) rows.new) }
    ensures rows { OnOk result (rows.new ≡ map.insert rows.old key.now after) }
{
    let before = rows.remove(key).unwrap_or(TextSet::new(alloc));
    tell(key, &before, &after, sink)?;
    rows.insert(key.clone()?, after)?;
    Ok(())
}

/// Makes no text hold on the item.
pub fn forget_item<S: MatchSink>(
    alloc: Global,
    rows: &mut ItemMap<TextSet>,
    key: &ItemKey,
    sink: &mut S,
) -> Result<(), Memory>
    requires { AreTold (S.pairs sink.old) rows.old }
    ensures told { OnOk result (AreTold (S.pairs sink.new) rows.new) }
    ensures rows { OnOk result (rows.new ≡ map.remove rows.old key.now) }
{
    let before = rows.remove(key).unwrap_or(TextSet::new(alloc));
    let none = TextSet::new(alloc);
    tell(key, &before, &none, sink)?;
    Ok(())
}

/// Makes the text hold on these items, or on none of them.
pub fn tell_items<S: MatchSink>(
    alloc: Global,
    rows: &mut ItemMap<TextSet>,
    items: &ItemMap<()>,
    text: &Text,
    stands: bool,
    sink: &mut S,
) -> Result<(), Memory>
    requires { AreTold (S.pairs sink.old) rows.old }
    ensures told { OnOk result (AreTold (S.pairs sink.new) rows.new) }
    ensures rows { OnOk result ((i : ItemKey) (t : List ℕ) → has_key (map.get rows.new i) t
        ≡ cond (set.contains items.now i && text_eq t text.now) stands (has_key (map.get rows.old i) t)) }
{
    for (key, _) in items.iter() {
        tell_one(alloc, rows, key, text, stands, sink)?;
    }
    Ok(())
}

fn tell_one<S: MatchSink>(
    alloc: Global,
    rows: &mut ItemMap<TextSet>,
    key: &ItemKey,
    text: &Text,
    stands: bool,
    sink: &mut S,
) -> Result<(), Memory>
    requires { AreTold (S.pairs sink.old) rows.old }
    ensures told { OnOk result (AreTold (S.pairs sink.new) rows.new) }
    ensures rows { OnOk result ((i : ItemKey) (t : List ℕ) → has_key (map.get rows.new i) t
        ≡ cond (item_eq i key.now && text_eq t text.now) stands (has_key (map.get rows.old i) t)) }
{
    let stood = has_text(rows.get(key), text);
    set_pair(text, key, stood, stands, sink)?;
    change_row(alloc, rows, key, text, stands)?;
    Ok(())
}

fn has_text(texts: Option<&TextSet>, text: &Text) -> bool
    ensures { result ≡ has_key (option_copied texts.entry) text.now }
{
    match texts {
        Some(texts) => texts.contains(text),
        None => false,
    }
}
