//! An event whose octets are judged once.

ghost use Rattle.std.specs.Prelude.{◌≡◌};
ghost use Rattle.explain_events.specs.ReadEvents.{octets_of_event};

use dp_line::Event;
use explain_octets::ReadOctets;
use std::marker::Model;

/// An event and the octets of its request, which are judged once. Contracts see the event.
#[derive(Drop)]
pub struct ReadEvent<'a> {
    event: &'a Event,
    /// The octets of the request; none for an event of the operator.
    request: ReadOctets<'a>,
}

impl<'a> Model for ReadEvent<'a> {
    ghost use Rattle.std.specs.Prelude.{◌≡◌};
    ghost use Rattle.dp_line.specs.declared.event.Event.{Event};
    ghost use Rattle.explain_events.specs.ReadEvents.{octets_of_event};

    ghost Value = { Event };

    ghost view = { λ read. read.event.now };

    ghost invariant = { λ read. read.request ≡ octets_of_event read.event.now };
}

impl<'a> ReadEvent<'a> {
    /// Judges the octets of an event.
    pub fn new(event: &'a Event) -> ReadEvent<'a>
        ensures { result ≡ event.now }
    {
        ReadEvent {
            event,
            request: ReadOctets::new(octets_of(event)),
        }
    }

    /// Returns the event.
    pub fn event(&self) -> &'a Event
        ensures { result.now ≡ self.now }
    {
        self.event
    }

    /// Returns the octets of the request; for an event of the operator there are none.
    pub fn request(&self) -> &ReadOctets<'a>
        ensures { result.now ≡ octets_of_event self.now }
    {
        &self.request
    }
}

fn octets_of(event: &Event) -> &[u8]
    ensures { result.now ≡ octets_of_event event.now }
{
    match event {
        Event::Request { octets, .. } => octets.as_slice(),
        Event::Operator(_) => &[],
    }
}
