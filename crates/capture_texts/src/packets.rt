//! The packets of an entry.

ghost use Rattle.std.specs.Prelude.{◌≡◌, ◌++◌, ◌≤◌, length, OnOk};
ghost use Rattle.capture_texts.specs.Blocks.{block_octets, capture_octets};
ghost use Rattle.capture_texts.specs.Captured.{microseconds, packets_of, reply_packets, sent};

use crate::capture::Capture;
use crate::packet::{Direction, Packet};
use dp_line::{Event, Outcome};
use std::alloc::AllocError;

/// The number of microseconds in a unit of time, which is 10 ms.
const UNIT: u64 = 10_000;

/// Returns the time of the packets of an entry in microseconds, by the sum of the ticks before it, in units of 10 ms, and
/// its place. It stops at the largest number of 64 bits.
#[tactic(auto, unfolding(crate::specs::Captured::microseconds))]
pub(crate) fn microseconds(time: Option<u64>, place: u64) -> u64
    ensures { result ≡ microseconds time place }
{
    time.unwrap_or(0).saturating_mul(UNIT).saturating_add(place)
}

/// What the packets of an entry have in common.
#[derive(Clone, Copy)]
pub(crate) struct Mark<'a> {
    /// The number of the interface.
    pub(crate) interface: u32,
    /// The time in microseconds.
    pub(crate) time: u64,
    pub(crate) comment: &'a [u8],
}

impl<'a> Mark<'a> {
    /// Appends a packet with this direction and these octets. `AllocError` if memory runs out.
    fn push(
        &self,
        capture: &mut Capture,
        direction: Direction,
        telegram: &[u8],
    ) -> Result<(), AllocError>
        requires { length telegram.now ≤ 65535 }
        ensures { OnOk result (capture.new ≡ capture.old ++ block_octets (sent self.now.interface self.now.time self.now.comment.now direction telegram.now)) }
    {
        capture.push_packet(&Packet {
            interface: self.interface,
            time: self.time,
            direction,
            telegram,
            comment: self.comment,
        })
    }
}

/// Appends the packets of an entry: that of a request and that of its reply, or that of an event of the operator, which
/// has no octets. `AllocError` if memory runs out.
pub(crate) fn push_entry(
    capture: &mut Capture,
    mark: &Mark<'_>,
    event: &Event,
    outcome: &Outcome,
) -> Result<(), AllocError>
    ensures { OnOk result (capture.new ≡ capture.old ++ capture_octets (packets_of mark.now.interface mark.now.time mark.now.comment.now event.now outcome.now)) }
{
    match event {
        Event::Request { octets, .. } => {
            mark.push(capture, Direction::Inbound, octets.as_slice())?;
            push_reply(capture, mark, outcome)
        }
        Event::Operator(_) => mark.push(capture, Direction::Unknown, &[]),
    }
}

/// Appends the packet of a reply, if there is one. `AllocError` if memory runs out.
fn push_reply(capture: &mut Capture, mark: &Mark<'_>, outcome: &Outcome) -> Result<(), AllocError>
    ensures { OnOk result (capture.new ≡ capture.old ++ capture_octets (reply_packets mark.now.interface mark.now.time mark.now.comment.now outcome.now)) }
{
    match outcome {
        Outcome::Reply { octets, .. } => mark.push(capture, Direction::Outbound, octets.as_slice()),
        Outcome::Silence(_) => Ok(()),
        Outcome::Spread(_) => Ok(()),
        Outcome::Released(_) => Ok(()),
        Outcome::Done => Ok(()),
        Outcome::Refused(_) => Ok(()),
    }
}
