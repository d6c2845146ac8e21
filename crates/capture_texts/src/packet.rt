//! A packet of a capture.

ghost use Rattle.std.specs.Prelude.{◌≡◌};
ghost use Rattle.capture_texts.specs.Blocks.{direction_flags};

use std::marker::Model;

/// The direction of a packet, as its slaves see it.
#[derive(Clone, Copy, Debug, PartialEq, Eq)]
pub enum Direction {
    /// A request, which comes in.
    Inbound,
    /// A reply, which goes out.
    Outbound,
    /// No telegram: an event of the operator.
    Unknown,
}

impl Direction {
    /// Returns the flags of a packet with this direction (pcapng, epb_flags, bits 0 and 1).
    pub(crate) fn flags(self) -> u32
        ensures { result ≡ direction_flags self }
    {
        match self {
            Direction::Inbound => 1,
            Direction::Outbound => 2,
            Direction::Unknown => 0,
        }
    }
}

/// A packet of a capture. Contracts see what it holds.
#[derive(Drop)]
pub struct Packet<'a> {
    /// The number of its interface, from 0.
    pub interface: u32,
    /// The time in microseconds.
    pub time: u64,
    pub direction: Direction,
    /// The octets of the telegram, at most 65,535; none for an event of the operator.
    pub telegram: &'a [u8],
    /// A comment, of which the first 65,535 octets are written.
    pub comment: &'a [u8],
}

impl<'a> Model for Packet<'a> {
    ghost use Rattle.capture_texts.specs.Blocks.{PacketView};

    ghost Value = { PacketView };

    ghost view = { λ p. record {
      interface = p.interface;
      time = p.time;
      direction = p.direction;
      telegram = p.telegram.now;
      comment = p.comment.now;
    } };
}
