//! The data that an explanation of an event reads.

use crate::notes::Noted;
use crate::releases::Release;
use dp_line::{LineSpec, LineState};
use dp_telegram::{PartsLent, TelegramLent};
use std::marker::Model;

/// What is known before an event. Contracts see the description, the world, the notes, the last releases and the time.
#[derive(Drop)]
pub struct EventContext<'a> {
    pub line: &'a LineSpec,
    /// The line before the event.
    pub before: &'a LineState,
    /// The requests whose replies the slaves remember.
    pub notes: &'a [Noted],
    /// The last release of each address, at its index.
    pub releases: &'a [Option<Release>],
    /// The sum of the ticks before the event, in units of 10 ms; None before the first tick.
    pub time: Option<u64>,
}

impl<'a> Model for EventContext<'a> {
    ghost use Rattle.dp_line.specs.World.{description_of};
    ghost use Rattle.explain_events.specs.EventContexts.{EventContextView};

    ghost Value = { EventContextView };

    ghost view = { λ s. record {
      description = description_of s.line.now;
      world = s.before.now.world;
      notes = s.notes.now;
      releases = s.releases.now;
      time = s.time;
    } };
}

/// A request on its way to slaves. Contracts see what it holds.
#[derive(Drop)]
pub(crate) struct SlaveRequest<'a> {
    /// The address of the sender.
    pub(crate) master: u8,
    /// The octets of the whole frame.
    pub(crate) octets: &'a [u8],
    pub(crate) telegram: &'a TelegramLent<'a>,
    pub(crate) parts: PartsLent<'a>,
}

impl<'a> Model for SlaveRequest<'a> {
    ghost use Rattle.explain_events.specs.EventContexts.{AskedView};

    ghost Value = { AskedView };

    ghost view = { λ a. record { master = a.master; octets = a.octets.now; telegram = a.telegram.now; parts = a.parts } };
}
