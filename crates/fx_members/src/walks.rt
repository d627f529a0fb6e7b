//! Walks over sets, texts and items that bring counts up to date, and the sink's sets with them.
ghost use Rattle.std.specs.Prelude.{◌≡◌, ◌≤◌, ℕ, List, OnOk, IsSome, Some, cond, false};
ghost use Rattle.std.specs.Option.{option_copied};
ghost use Rattle.std.specs.FinMap as map;
ghost use Rattle.fx_base.specs.Set as key_sets;
ghost use Rattle.fx_base.specs.Grouped.{has_key, same_text};
ghost use Rattle.fx_model.specs.declared.member.Member.{Member};
ghost use Rattle.fx_members.specs.Counts.{count_at, due, gives, shifted, total, AreTold, HaveSameKeys};
ghost use Rattle.fx_members.specs.Indexes.{has_text_of, AreByText};
ghost use Rattle.fx_members.specs.UseText.{text_of};

use crate::changes::change_item;
use crate::counts::MemberCounts;
use crate::inputs::Inputs;
use fx_base::{Memory, SetMap, SetName, Text, TextMap};
use fx_model::{Item, ItemMap, SetSink, SetUse};
use fx_text_sets::TextSet;
use std::alloc::Global;

/// Counts what an item contributes to the sets of these names once more or once less, if it is there.
pub fn change_named<S: SetSink>(
    alloc: Global,
    uses: &SetMap<SetUse>,
    names: Option<&SetMap<()>>,
    item: Option<&Item>,
    more: bool,
    counts: &mut MemberCounts,
    sink: &mut S,
) -> Result<(), Memory>
    requires named { HaveSameKeys uses.now (S.sets sink.old) }
    requires counted { more ≡ false → (q : List ℕ) (m : Member)
        → cond (has_key (option_copied names) q) (gives (map.get uses.now q) (option_copied item) m) 0
        ≤ count_at counts.old q m }
    requires told { AreTold counts.old (S.sets sink.old) }
    ensures counts { OnOk result ((q : List ℕ) (m : Member) → count_at counts.new q m
        ≡ shifted more (cond (has_key (option_copied names.entry) q)
        (gives (map.get uses.now q) (option_copied item.entry) m) 0) (count_at counts.old q m)) }
    ensures told { OnOk result (AreTold counts.new (S.sets sink.new)) }
    ensures keys { OnOk result (HaveSameKeys (S.sets sink.old) (S.sets sink.new)) }
{
    if let Some(names) = names {
        change_each_named(alloc, uses, names, item, more, counts, sink)?;
    }
    Ok(())
}

fn change_each_named<S: SetSink>(
    alloc: Global,
    uses: &SetMap<SetUse>,
    names: &SetMap<()>,
    item: Option<&Item>,
    more: bool,
    counts: &mut MemberCounts,
    sink: &mut S,
) -> Result<(), Memory>
    requires named { HaveSameKeys uses.now (S.sets sink.old) }
    requires counted { more ≡ false → (q : List ℕ) (m : Member)
        → cond (key_sets.contains names.now q) (gives (map.get uses.now q) (option_copied item) m) 0
        ≤ count_at counts.old q m }
    requires told { AreTold counts.old (S.sets sink.old) }
    ensures counts { OnOk result ((q : List ℕ) (m : Member) → count_at counts.new q m
        ≡ shifted more (cond (key_sets.contains names.now q)
        (gives (map.get uses.now q) (option_copied item.entry) m) 0) (count_at counts.old q m)) }
    ensures told { OnOk result (AreTold counts.new (S.sets sink.new)) }
    ensures keys { OnOk result (HaveSameKeys (S.sets sink.old) (S.sets sink.new)) }
{
    for (name, _) in names.iter() {
        change_item(alloc, *name, uses.get(name), item, more, counts, sink)?;
    }
    Ok(())
}

/// Counts what an item contributes to the sets of these texts once more or once less, if it is there.
pub fn change_with_texts<S: SetSink>(
    alloc: Global,
    uses: &SetMap<SetUse>,
    names: &TextMap<SetMap<()>>,
    texts: Option<&TextSet>,
    item: Option<&Item>,
    more: bool,
    counts: &mut MemberCounts,
    sink: &mut S,
) -> Result<(), Memory>
    requires by_text { AreByText names.now uses.now }
    requires named { HaveSameKeys uses.now (S.sets sink.old) }
    requires counted { more ≡ false → (q : List ℕ) (m : Member)
        → cond (has_text_of (option_copied texts) (map.get uses.now q)) (gives (map.get uses.now q)
        (option_copied item) m) 0 ≤ count_at counts.old q m }
    requires told { AreTold counts.old (S.sets sink.old) }
    ensures counts { OnOk result ((q : List ℕ) (m : Member) → count_at counts.new q m
        ≡ shifted more (cond (has_text_of (option_copied texts.entry) (map.get uses.now q)) (gives (map.get uses.now q)
        (option_copied item.entry) m) 0) (count_at counts.old q m)) }
    ensures told { OnOk result (AreTold counts.new (S.sets sink.new)) }
    ensures keys { OnOk result (HaveSameKeys (S.sets sink.old) (S.sets sink.new)) }
{
    if let Some(texts) = texts {
        change_each_text(alloc, uses, names, texts, item, more, counts, sink)?;
    }
    Ok(())
}

fn change_each_text<S: SetSink>(
    alloc: Global,
    uses: &SetMap<SetUse>,
    names: &TextMap<SetMap<()>>,
    texts: &TextSet,
    item: Option<&Item>,
    more: bool,
    counts: &mut MemberCounts,
    sink: &mut S,
) -> Result<(), Memory>
    requires by_text { AreByText names.now uses.now }
    requires named { HaveSameKeys uses.now (S.sets sink.old) }
    requires counted { more ≡ false → (q : List ℕ) (m : Member)
        → cond (has_text_of (Some texts.now) (map.get uses.now q)) (gives (map.get uses.now q) (option_copied item) m) 0
        ≤ count_at counts.old q m }
    requires told { AreTold counts.old (S.sets sink.old) }
    ensures counts { OnOk result ((q : List ℕ) (m : Member) → count_at counts.new q m
        ≡ shifted more (cond (has_text_of (Some texts.now) (map.get uses.now q)) (gives (map.get uses.now q)
        (option_copied item.entry) m) 0) (count_at counts.old q m)) }
    ensures told { OnOk result (AreTold counts.new (S.sets sink.new)) }
    ensures keys { OnOk result (HaveSameKeys (S.sets sink.old) (S.sets sink.new)) }
{
    for (text, _) in texts.iter() {
        change_named(alloc, uses, names.get(text), item, more, counts, sink)?;
    }
    Ok(())
}

/// Counts all that the items contribute to a set, or takes all of it away.
pub fn change_set<S: SetSink>(
    alloc: Global,
    inputs: &Inputs,
    name: SetName,
    set: &SetUse,
    text: &Text,
    more: bool,
    counts: &mut MemberCounts,
    sink: &mut S,
) -> Result<(), Memory>
    requires text { text.now ≡ text_of set.now }
    requires there { IsSome (map.get (S.sets sink.old) name) }
    requires counted { (m : Member) → count_at counts.old name m
        ≡ cond more 0 (due inputs.now.items inputs.now.matched (Some set.now) m) }
    requires told { AreTold counts.old (S.sets sink.old) }
    ensures counts { OnOk result ((q : List ℕ) (m : Member) → count_at counts.new q m
        ≡ cond (same_text q name) (cond more (due inputs.now.items inputs.now.matched (Some set.now) m) 0)
        (count_at counts.old q m)) }
    ensures told { OnOk result (AreTold counts.new (S.sets sink.new)) }
    ensures keys { OnOk result (HaveSameKeys (S.sets sink.old) (S.sets sink.new)) }
{
    if let Some(keys) = inputs.matched.items(text) {
        change_each_item(alloc, &inputs.items, keys, name, set, more, counts, sink)?;
    }
    Ok(())
}

fn change_each_item<S: SetSink>(
    alloc: Global,
    items: &ItemMap<Item>,
    keys: &ItemMap<()>,
    name: SetName,
    set: &SetUse,
    more: bool,
    counts: &mut MemberCounts,
    sink: &mut S,
) -> Result<(), Memory>
    requires there { IsSome (map.get (S.sets sink.old) name) }
    requires counted { (m : Member) → count_at counts.old name m
        ≡ cond more 0 (total (key_sets.contains keys.now) set.now (map.entries items.now) m) }
    requires told { AreTold counts.old (S.sets sink.old) }
    ensures counts { OnOk result ((q : List ℕ) (m : Member) → count_at counts.new q m
        ≡ cond (same_text q name) (cond more (total (key_sets.contains keys.now) set.now (map.entries items.now) m) 0)
        (count_at counts.old q m)) }
    ensures told { OnOk result (AreTold counts.new (S.sets sink.new)) }
    ensures keys { OnOk result (HaveSameKeys (S.sets sink.old) (S.sets sink.new)) }
{
    for (key, _) in keys.iter() {
        change_item(alloc, name, Some(set), items.get(key), more, counts, sink)?;
    }
    Ok(())
}
