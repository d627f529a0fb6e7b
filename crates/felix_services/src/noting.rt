//! Which lists of places an update changes.
ghost use Rattle.std.specs.Prelude.{◌≡◌, IfOk, OnOk};
ghost use Rattle.fx_base.specs.Extended.{put_or_removed};
ghost use Rattle.fx_services.specs.Places.{flushed_places};
ghost use Rattle.felix_services.specs.Noting.{has_rules, note_at, note_of, noted};

use fx_base::{Memory, Seq};
use fx_model::{Key, Update};
use fx_services::{PlaceLists, Places};

/// A record's lists from now on, or that it is gone.
#[derive(Drop)]
pub struct Note {
    pub key: Key,
    pub lists: Option<PlaceLists>,
}

/// What an update with these places changes.
pub fn note_of(update: &Update, ingress: Seq<u64>, egress: Seq<u64>) -> Result<Option<Note>, Memory>
    ensures { IfOk result (λ note. note ≡ note_of update.now (record { ingress = ingress; egress = egress })) }
{
    match update {
        Update::InSync => Ok(None),
        Update::Put { key, .. } => note_at(key, Some(PlaceLists { ingress, egress })),
        Update::Delete { key } => note_at(key, None),
    }
}

fn note_at(key: &Key, lists: Option<PlaceLists>) -> Result<Option<Note>, Memory>
    ensures { IfOk result (λ note. note ≡ note_at key.now lists) }
{
    if has_rules(key) {
        Ok(Some(own_note(key, lists)?))
    } else {
        Ok(None)
    }
}

fn own_note(key: &Key, lists: Option<PlaceLists>) -> Result<Note, Memory>
    ensures { IfOk result (λ note. note ≡ record { key = key.now; lists = lists }) }
{
    let own = key.clone()?;
    Ok(Note { key: own, lists })
}

fn has_rules(key: &Key) -> bool
    ensures { result ≡ has_rules key.now }
{
    match key {
        Key::Policy(_) | Key::Profile { .. } => true,
        Key::Item(_) | Key::Tier { .. } => false,
    }
}

/// Keeps what an update changed.
pub fn take_note(places: &mut Places, note: Option<Note>) -> Result<(), Memory>
    ensures lists { OnOk result (places.new.lists ≡ noted places.old.lists note) }
    ensures flushed { OnOk result (flushed_places places.new.lists places.new.before
        ≡ flushed_places places.old.lists places.old.before) }
{
    match note {
        Some(note) => keep(places, note),
        None => Ok(()),
    }
}

fn keep(places: &mut Places, note: Note) -> Result<(), Memory>
    ensures lists { OnOk result (places.new.lists ≡ put_or_removed places.old.lists note.key note.lists) }
    ensures flushed { OnOk result (flushed_places places.new.lists places.new.before
        ≡ flushed_places places.old.lists places.old.before) }
{
    let Note { key, lists } = note;
    places.note(&key, lists)
}
