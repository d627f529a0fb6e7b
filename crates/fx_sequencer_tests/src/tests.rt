//! In which order messages come, by Felix's documented event sequencer: what is named comes before what names it, and
//! goes after it. Of what goes and comes back nothing is told.
ghost use Rattle.std.specs.Prelude.{◌≡◌, OnOk};

use crate::values::{policy, profile};
use crate::wanting::{put_policy, turn_endpoint, turn_member, turn_policy, turn_profile, turn_set};
use fx_base::{Ipv4, Memory, NameKey, Net, SetKind, SetName};
use fx_model::{Member, Message, View, ViewSink};
use fx_sequencer::Sequencer;
use std::alloc::Global;
use std::test::Fail;

/// What comes if it isn't there, and goes if it is, what is there, or what is told.
#[derive(Clone, Copy)]
enum Event {
    /// It goes if it has no members.
    Set,
    Member,
    OtherMember,
    Policy,
    /// The policy is there with another record.
    ChangedPolicy,
    /// The policy is there with its first record.
    FirstPolicy,
    Profile,
    Endpoint,
    /// The wanted policy is the first one, or it isn't.
    HasFirst(bool),
    /// The profile is wanted, or it isn't.
    HasProfile(bool),
    /// The next message tells of this.
    Told(&'static str),
}

/// Each event, by the letter of what it is about.
const EVENTS: [(u8, Event); 111] = [
    // What is named comes first and goes last.
    (b'e', Event::Endpoint),
    (b'e', Event::Policy),
    (b'e', Event::Set),
    (b'e', Event::Profile),
    (b'e', Event::HasProfile(true)),
    (b'e', Event::Member),
    (b'e', Event::Told("a set")),
    (b'e', Event::Told("a policy")),
    (b'e', Event::Told("a profile")),
    (b'e', Event::Told("an endpoint")),
    (0, Event::Told("nothing")),
    (b'e', Event::Member),
    (b'e', Event::Set),
    (b'e', Event::Profile),
    (b'e', Event::HasProfile(false)),
    (b'e', Event::Endpoint),
    (b'e', Event::Policy),
    (b'e', Event::Told("no endpoint")),
    (b'e', Event::Told("no profile")),
    (b'e', Event::Told("no policy")),
    (b'e', Event::Told("no set")),
    (0, Event::Told("nothing")),
    // Of a member that comes back nothing is told.
    (b'f', Event::Set),
    (b'f', Event::Told("a set")),
    (0, Event::Told("nothing")),
    (b'f', Event::Member),
    (b'f', Event::Told("members")),
    (0, Event::Told("nothing")),
    (b'f', Event::Member),
    (b'f', Event::Member),
    (0, Event::Told("nothing")),
    // Of a policy that changes back nothing is told.
    (b'g', Event::Policy),
    (b'g', Event::Told("a policy")),
    (0, Event::Told("nothing")),
    (b'g', Event::ChangedPolicy),
    (b'g', Event::HasFirst(false)),
    (b'g', Event::FirstPolicy),
    (b'g', Event::HasFirst(true)),
    (0, Event::Told("nothing")),
    (b'g', Event::ChangedPolicy),
    (b'g', Event::Told("a policy")),
    (0, Event::Told("nothing")),
    (b'g', Event::Policy),
    (b'g', Event::ChangedPolicy),
    (0, Event::Told("nothing")),
    (b'g', Event::Policy),
    (b'g', Event::Policy),
    (b'g', Event::Told("a policy")),
    (0, Event::Told("nothing")),
    // A set that goes and comes back tells what differs.
    (b'h', Event::Set),
    (b'h', Event::Member),
    (b'h', Event::Told("a set")),
    (0, Event::Told("nothing")),
    (b'h', Event::Member),
    (b'h', Event::Set),
    (b'h', Event::Set),
    (b'h', Event::OtherMember),
    (b'h', Event::Told("members")),
    (0, Event::Told("nothing")),
    (b'h', Event::OtherMember),
    (b'h', Event::Set),
    (b'h', Event::Set),
    (b'h', Event::OtherMember),
    (0, Event::Told("nothing")),
    (b'h', Event::OtherMember),
    (b'h', Event::Set),
    (b'h', Event::Told("no set")),
    (0, Event::Told("nothing")),
    (b'h', Event::Set),
    (b'h', Event::Set),
    (0, Event::Told("nothing")),
    // Many places differ at once, and the wanted view changes before all of them were told.
    (b'b', Event::Set),
    (b'b', Event::Policy),
    (b'b', Event::Endpoint),
    (b'd', Event::Set),
    (b'd', Event::Profile),
    (b'd', Event::Policy),
    (b'b', Event::Told("a set")),
    (b'd', Event::Told("a set")),
    // A set is told before what is left.
    (b'a', Event::Set),
    (b'a', Event::Told("a set")),
    (b'b', Event::Told("a policy")),
    (b'c', Event::Policy),
    (b'b', Event::Member),
    (b'b', Event::Told("members")),
    (b'c', Event::Told("a policy")),
    (b'd', Event::Told("a policy")),
    // One goes that was told, and one that was not.
    (b'b', Event::Policy),
    (b'd', Event::Profile),
    (b'b', Event::Told("an endpoint")),
    (b'b', Event::Told("no policy")),
    (0, Event::Told("nothing")),
    (b'a', Event::Set),
    (b'a', Event::Endpoint),
    (b'a', Event::Profile),
    (b'a', Event::Told("a profile")),
    (b'b', Event::OtherMember),
    (b'b', Event::Member),
    (b'b', Event::Told("members")),
    (b'b', Event::OtherMember),
    (b'b', Event::Set),
    (b'b', Event::Endpoint),
    (b'c', Event::ChangedPolicy),
    (b'c', Event::Told("a policy")),
    (b'a', Event::Told("an endpoint")),
    (b'c', Event::Policy),
    (b'b', Event::Told("no endpoint")),
    (b'c', Event::Told("no policy")),
    (b'a', Event::Told("no set")),
    (b'b', Event::Told("no set")),
    (0, Event::Told("nothing")),
];

fn member(number: u32) -> Member {
    Member::Net(Net::host(Ipv4(number)))
}

// What a message tells of, and the name of it.
fn told_of<'a>(message: &'a Message<'a>) -> (&'static str, &'a [u8]) {
    match message {
        Message::SetAdd { name, .. } => ("a set", name.bytes()),
        Message::SetDelta { name, .. } => ("members", name.bytes()),
        Message::PolicyPut { key, .. } => ("a policy", key.bytes()),
        Message::ProfilePut { key, .. } => ("a profile", key.bytes()),
        Message::EndpointPut { iface, .. } => ("an endpoint", iface.bytes()),
        Message::EndpointGone { iface } => ("no endpoint", iface.bytes()),
        Message::ProfileGone { key } => ("no profile", key.bytes()),
        Message::PolicyGone { key } => ("no policy", key.bytes()),
        Message::SetGone { name } => ("no set", name.bytes()),
    }
}

// Sends the next message. The answer is what it tells of, and the letter in the name of it.
fn send(sequencer: &mut Sequencer) -> (&'static str, u8)
    ensures { sequencer.new.wanted ≡ sequencer.old.wanted }
{
    let Some(message) = sequencer.peek() else {
        return ("nothing", 0);
    };
    let (told, name) = told_of(&message);
    let letter = name.last().copied().unwrap_or(0);
    sequencer.sent();
    (told, letter)
}

fn turn(
    alloc: Global,
    sequencer: &mut Sequencer,
    wanted: &mut View,
    letter: u8,
    event: Event,
) -> Result<(), Memory>
    requires { sequencer.old.wanted ≡ wanted.old }
    ensures { OnOk result (sequencer.new.wanted ≡ wanted.new) }
{
    let set = SetName::new(SetKind::Nets, [letter; 23]);
    let key = NameKey::new(&[letter; 5]);
    match event {
        Event::Set => turn_set(alloc, sequencer, wanted, set),
        Event::Member => turn_member(alloc, sequencer, wanted, set, member(1)),
        Event::OtherMember => turn_member(alloc, sequencer, wanted, set, member(2)),
        Event::Policy => turn_policy(alloc, sequencer, wanted, key),
        Event::ChangedPolicy => put_policy(alloc, sequencer, wanted, key, b"changed"),
        Event::FirstPolicy => put_policy(alloc, sequencer, wanted, key, b"first"),
        Event::Profile => turn_profile(alloc, sequencer, wanted, key),
        Event::Endpoint => turn_endpoint(alloc, sequencer, wanted, &[letter; 4]),
        Event::HasFirst(_) | Event::HasProfile(_) | Event::Told(_) => Ok(()),
    }
}

fn has_first(alloc: Global, sequencer: &Sequencer, letter: u8) -> Result<bool, Memory> {
    let first = policy(alloc, b"first")?;
    Ok(sequencer.has_policy(&NameKey::new(&[letter; 5]), &first))
}

fn has_profile(alloc: Global, sequencer: &Sequencer, letter: u8) -> Result<bool, Memory> {
    let key = NameKey::new(&[letter; 5]);
    let profile = profile(alloc, key.bytes())?;
    Ok(sequencer.has_profile(&key, &profile))
}

// Whether what is there or told is what the event says.
fn happens(
    alloc: Global,
    sequencer: &mut Sequencer,
    wanted: &mut View,
    letter: u8,
    event: Event,
) -> Result<bool, Memory>
    requires { sequencer.old.wanted ≡ wanted.old }
    ensures { OnOk result (sequencer.new.wanted ≡ wanted.new) }
{
    match event {
        Event::HasFirst(has) => Ok(has_first(alloc, sequencer, letter)? == has),
        Event::HasProfile(has) => Ok(has_profile(alloc, sequencer, letter)? == has),
        Event::Told(what) => Ok(send(sequencer) == (what, letter)),
        other => {
            turn(alloc, sequencer, wanted, letter, other)?;
            Ok(true)
        }
    }
}

// The first event, from 0, at which another message comes.
fn wrong_event(
    alloc: Global,
    sequencer: &mut Sequencer,
    wanted: &mut View,
) -> Result<Option<usize>, Memory>
    requires { sequencer.old.wanted ≡ wanted.old }
{
    for (number, (letter, event)) in EVENTS.into_iter().enumerate() {
        if !happens(alloc, sequencer, wanted, letter, event)? {
            return Ok(Some(number));
        }
    }
    Ok(None)
}

#[test]
fn messages_come_in_their_order(rt: HostRuntime) -> Result<(), Fail> {
    let alloc = rt.alloc();
    let mut sequencer = Sequencer::new(alloc);
    let mut wanted = View::new(alloc);
    assert_eq!(rt; wrong_event(alloc, &mut sequencer, &mut wanted)?, None);
    Ok(())
}
