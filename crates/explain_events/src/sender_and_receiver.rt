//! The sender and the receiver of an event.

ghost use Rattle.std.specs.Prelude.{◌≡◌, ◌≤◌, ◌==◌, if◌then◌else◌, Some, length};
ghost use Rattle.dp_telegram.specs.FrameText.{frame_of};
ghost use Rattle.dp_telegram.specs.Access.{global_address};
ghost use Rattle.explain_events.specs.Heads.{receiver_of_frame, sender_and_receiver_of, receiver_text, sender_and_receiver_text};

use crate::read_event::ReadEvent;
use crate::words::digits_of;
use dp_line::{Event, Op};
use dp_telegram::{ADDRESS_BITS, FrameLent, GLOBAL_ADDRESS};
use explain_octets::ReadOctets;
use std::fmt;

/// The receiver of octets that a master sends.
#[derive(Clone, Copy)]
pub enum Receiver {
    /// The slave with this address, 0 to 126.
    Slave(u8),
    /// All slaves.
    AllSlaves,
    /// The station with this address, 0 to 127, which receives a token.
    Station(u8),
    /// No station: the octets are a short acknowledgement, or no single frame.
    Nobody,
}

/// The sender and the receiver of an event.
#[derive(Clone, Copy)]
pub enum SenderAndReceiver {
    /// A master sends to this receiver.
    Master(u8, Receiver),
    /// The operator acts on the slave with this address; None stands for the line.
    Operator(Option<u8>),
}

impl Receiver {
    /// Returns the receiver of the octets of a request.
    pub fn from_octets(octets: &[u8]) -> Receiver
        ensures { result ≡ receiver_of_frame (frame_of octets.now) }
    {
        Receiver::of_request(&ReadOctets::new(octets))
    }

    /// Returns the receiver of the octets of a request, which are judged already.
    pub fn of_request(request: &ReadOctets<'_>) -> Receiver
        ensures { result ≡ receiver_of_frame (frame_of request.now) }
    {
        match request.frame() {
            Some(FrameLent::Telegram(telegram)) => Receiver::at(telegram.destination()),
            Some(FrameLent::Token { da, .. }) => Receiver::Station(da & ADDRESS_BITS),
            Some(FrameLent::Ack) => Receiver::Nobody,
            None => Receiver::Nobody,
        }
    }

    /// Returns the receiver of a telegram with this destination address, 0 to 127.
    fn at(address: u8) -> Receiver
        ensures { result ≡ (if address == global_address then Receiver.AllSlaves else Receiver.Slave address) }
    {
        if address == GLOBAL_ADDRESS {
            Receiver::AllSlaves
        } else {
            Receiver::Slave(address)
        }
    }

    /// Returns the number of characters of its text.
    fn width(self) -> usize
        ensures width { result ≡ length (receiver_text self) }
        ensures few { result ≤ 12 }
    {
        match self {
            Receiver::Slave(address) => 6 + digits_of(address),
            Receiver::AllSlaves => 10,
            Receiver::Station(address) => 8 + digits_of(address),
            Receiver::Nobody => 6,
        }
    }
}

impl fmt::Display for Receiver {
    ghost output = { λ receiver. Some (receiver_text receiver) };

    fn fmt<W: fmt::Write>(&self, f: &mut fmt::Formatter<W>) -> fmt::Result {
        match self {
            Receiver::Slave(address) => write!(f, "slave {address}"),
            Receiver::AllSlaves => f.write_str("all slaves"),
            Receiver::Station(address) => write!(f, "station {address}"),
            Receiver::Nobody => f.write_str("nobody"),
        }
    }
}

impl SenderAndReceiver {
    /// Returns the sender and the receiver of an event.
    pub fn from_event(event: &Event) -> SenderAndReceiver
        ensures { result ≡ sender_and_receiver_of event.now }
    {
        SenderAndReceiver::of_read(&ReadEvent::new(event))
    }

    /// Returns the sender and the receiver of an event whose octets are judged already.
    pub(crate) fn of_read(read: &ReadEvent<'_>) -> SenderAndReceiver
        ensures { result ≡ sender_and_receiver_of read.now }
    {
        match read.event() {
            Event::Request { master, .. } => {
                SenderAndReceiver::Master(*master, Receiver::of_request(read.request()))
            }
            Event::Operator(Op::Input { address, .. }) => SenderAndReceiver::Operator(Some(
                *address,
            )),
            Event::Operator(Op::Diag { address, .. }) => SenderAndReceiver::Operator(Some(
                *address,
            )),
            Event::Operator(Op::Busy { address, .. }) => SenderAndReceiver::Operator(Some(
                *address,
            )),
            Event::Operator(Op::Tick(_)) => SenderAndReceiver::Operator(None),
            Event::Operator(Op::Halt) => SenderAndReceiver::Operator(None),
        }
    }

    /// Returns the number of characters of its text.
    pub(crate) fn width(self) -> usize
        ensures { result ≡ length (sender_and_receiver_text self) }
    {
        match self {
            SenderAndReceiver::Master(master, receiver) => 11
                + digits_of(master)
                + receiver.width(),
            SenderAndReceiver::Operator(None) => 16,
            SenderAndReceiver::Operator(Some(address)) => 18 + digits_of(address),
        }
    }
}

impl fmt::Display for SenderAndReceiver {
    ghost output = { λ sender_and_receiver. Some (sender_and_receiver_text sender_and_receiver) };

    fn fmt<W: fmt::Write>(&self, f: &mut fmt::Formatter<W>) -> fmt::Result {
        match self {
            SenderAndReceiver::Master(master, receiver) => write!(
                f,
                "master {master} -> {receiver}"
            ),
            SenderAndReceiver::Operator(None) => f.write_str("operator -> line"),
            SenderAndReceiver::Operator(Some(address)) => write!(f, "operator -> slave {address}"),
        }
    }
}
