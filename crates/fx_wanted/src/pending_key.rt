//! A key in a view, and how a view takes over what another has there.
ghost use Rattle.std.specs.Prelude.{◌≡◌, IfOk, OnOk, OnErr};
ghost use Rattle.fx_base.specs.Extended.{taken_from};
ghost use Rattle.fx_model.specs.Lent.{change_of};
ghost use Rattle.fx_wanted.specs.PendingKeys.{pending_key_of, taken_at};

use fx_base::{Exact, FixedMap, FixedName, Memory, NameKey, SetName, Text, TextMap};
use fx_model::{Message, View};

/// A key of one of a view's maps.
#[derive(Debug, Drop)]
pub enum PendingKey {
    Set(SetName),
    Policy(NameKey),
    Profile(NameKey),
    Endpoint(Text),
}

/// The key that a message changes.
pub fn pending_key_of(message: &Message<'_>) -> Result<PendingKey, Memory>
    ensures { IfOk result (λ p. p ≡ pending_key_of (change_of message.now)) }
{
    match message {
        Message::SetAdd { name, .. } => Ok(PendingKey::Set(**name)),
        Message::SetDelta { name, .. } => Ok(PendingKey::Set(**name)),
        Message::SetGone { name } => Ok(PendingKey::Set(**name)),
        Message::PolicyPut { key, .. } => Ok(PendingKey::Policy(**key)),
        Message::PolicyGone { key } => Ok(PendingKey::Policy(**key)),
        Message::ProfilePut { key, .. } => Ok(PendingKey::Profile(**key)),
        Message::ProfileGone { key } => Ok(PendingKey::Profile(**key)),
        Message::EndpointPut { iface, .. } => Ok(PendingKey::Endpoint((*iface).clone()?)),
        Message::EndpointGone { iface } => Ok(PendingKey::Endpoint((*iface).clone()?)),
    }
}

/// Makes the sent view as the wanted one at a key.
pub fn take_at(sent: &mut View, wanted: &View, pending_key: PendingKey) -> Result<(), Memory>
    ensures ok { OnOk result (sent.new ≡ taken_at pending_key sent.old wanted.now) }
    ensures err { OnErr result (sent.new ≡ sent.old) }
{
    match pending_key {
        PendingKey::Set(name) => take_name(&mut sent.sets, &wanted.sets, &name),
        PendingKey::Policy(key) => take_name(&mut sent.policies, &wanted.policies, &key),
        PendingKey::Profile(key) => take_name(&mut sent.profiles, &wanted.profiles, &key),
        PendingKey::Endpoint(iface) => take_text(&mut sent.endpoints, &wanted.endpoints, iface),
    }
}

fn take_name<const N: usize, V: Exact + Drop>(
    sent: &mut FixedMap<N, V>,
    wanted: &FixedMap<N, V>,
    key: &FixedName<N>,
) -> Result<(), Memory>
    ensures ok { OnOk result (sent.new ≡ taken_from sent.old wanted.now key.now) }
    ensures err { OnErr result (sent.new ≡ sent.old) }
{
    match wanted.get(key) {
        Some(value) => {
            sent.insert(key, value.clone()?)?;
        }
        None => {
            sent.remove(key);
        }
    }
    Ok(())
}

fn take_text<V: Exact + Drop>(
    sent: &mut TextMap<V>,
    wanted: &TextMap<V>,
    key: Text,
) -> Result<(), Memory>
    ensures ok { OnOk result (sent.new ≡ taken_from sent.old wanted.now key) }
    ensures err { OnErr result (sent.new ≡ sent.old) }
{
    match wanted.get(&key) {
        Some(value) => {
            let value = value.clone()?;
            sent.insert(key, value)?;
        }
        None => {
            sent.remove(&key);
        }
    }
    Ok(())
}
