//! The last release of each slave.

ghost use Rattle.std.specs.Prelude.{◌≡◌, IfOk, None, Some};
ghost use Rattle.explain_events.specs.Changes.{asked_addresses, released_addresses};
ghost use Rattle.explain_events.specs.ReleaseChanges.{change_noted, changes_noted, release_noted, releases_after};
ghost use Rattle.explain_events.specs.Releases.{first_releases, release_of};
ghost use Rattle.explain_events.specs.Shown.{shown_at};

use crate::changes::same_holder;
use crate::ending::Ending;
use crate::read_event::ReadEvent;
use crate::sender_and_receiver::Receiver;
use crate::shown::slave_at;
use dp_line::{Event, LineState, Outcome};
use std::alloc::{AllocError, Global};

/// The number of addresses for which a release is noted.
const ADDRESSES: usize = 128;

/// The event that ended the last hold of a slave.
#[derive(Clone, Copy)]
pub struct Release {
    /// The place of the event, from 1.
    pub place: u64,
    /// How the hold ended.
    pub ending: Ending,
}

/// An event at its place, and the line before and after it.
#[derive(Clone, Copy)]
pub struct Taken<'a> {
    /// The place of the event, from 1.
    pub place: u64,
    pub event: &'a Event,
    pub before: &'a LineState,
    pub after: &'a LineState,
}

/// Returns the releases before the first event: none at any address. `AllocError` if memory runs out.
pub fn first_releases(alloc: Global) -> Result<Vec<Option<Release>>, AllocError>
    ensures { IfOk result (λ releases. releases.items ≡ first_releases) }
{
    let mut releases = Vec::new(alloc);
    releases.extend_from_slice(&[None; ADDRESSES])?;
    Ok(releases)
}

/// Returns the last release of the slave at this address; None if it was not released.
pub fn release_of(releases: &[Option<Release>], address: u8) -> Option<Release>
    ensures { result ≡ release_of releases.now address }
{
    match releases.get(usize::from(address)) {
        Some(release) => *release,
        None => None,
    }
}

/// Notes that an event released a slave, if a master held it before the event.
fn note_release(
    releases: &mut [Option<Release>],
    taken: &Taken<'_>,
    address: u8,
    holder: Option<u8>,
)
    ensures { releases.new ≡ release_noted taken.now.place taken.now.event.now address holder releases.old }
{
    let index = usize::from(address);
    if holder.is_none() || index >= releases.len() {
        return;
    }
    releases[index] = Some(Release {
        place: taken.place,
        ending: Ending::by(taken.event),
    });
}

/// Notes the release of a slave, if the event ended its hold.
fn note_change(releases: &mut [Option<Release>], taken: &Taken<'_>, address: u8)
    ensures { releases.new ≡ change_noted taken.now.place taken.now.event.now address (shown_at taken.now.before.now.world address) (shown_at taken.now.after.now.world address) releases.old }
{
    let Some(before) = slave_at(taken.before, address) else {
        return;
    };
    let Some(after) = slave_at(taken.after, address) else {
        return;
    };
    if !same_holder(before.holder(), after.holder()) {
        note_release(releases, taken, address, before.holder());
    }
}

/// Notes the releases of these slaves.
fn note_changes(releases: &mut [Option<Release>], taken: &Taken<'_>, addresses: &[u8])
    ensures { releases.new ≡ changes_noted taken.now.before.now.world taken.now.after.now.world taken.now.place taken.now.event.now addresses.now releases.old }
{
    let mut left = addresses;
    while let [address, others @ ..] = left {
        note_change(releases, taken, *address);
        left = others;
    }
}

/// Notes the release of the slave that a request was sent to.
fn note_asked(releases: &mut [Option<Release>], taken: &Taken<'_>, receiver: Receiver)
    ensures { releases.new ≡ changes_noted taken.now.before.now.world taken.now.after.now.world taken.now.place taken.now.event.now (asked_addresses receiver) releases.old }
{
    match receiver {
        Receiver::Slave(address) => note_change(releases, taken, address),
        Receiver::AllSlaves => {}
        Receiver::Station(_) => {}
        Receiver::Nobody => {}
    }
}

/// Notes the releases of the slaves that a tick or the halt released.
fn note_released(releases: &mut [Option<Release>], taken: &Taken<'_>, outcome: &Outcome)
    ensures { releases.new ≡ changes_noted taken.now.before.now.world taken.now.after.now.world taken.now.place taken.now.event.now (released_addresses outcome.now) releases.old }
{
    match outcome {
        Outcome::Released(addresses) => note_changes(releases, taken, addresses.as_slice()),
        Outcome::Reply { .. } => {}
        Outcome::Silence(_) => {}
        Outcome::Spread(_) => {}
        Outcome::Done => {}
        Outcome::Refused(_) => {}
    }
}

/// Notes the releases of an event, by its outcome. `event` is that event. Reads only slaves whose holder it can change.
pub fn note_releases(
    releases: &mut Vec<Option<Release>>,
    taken: &Taken<'_>,
    event: &ReadEvent<'_>,
    outcome: &Outcome,
)
    requires { event.now ≡ taken.now.event.now }
    ensures { releases.new.items ≡ releases_after releases.old.items taken.now.before.now.world taken.now.after.now.world taken.now.place taken.now.event.now outcome.now }
{
    match event.event() {
        Event::Request { .. } => {
            let receiver = Receiver::of_request(event.request());
            note_asked(releases.as_mut_slice(), taken, receiver)
        }
        Event::Operator(_) => note_released(releases.as_mut_slice(), taken, outcome),
    }
}
