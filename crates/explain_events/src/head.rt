//! The first row of an entry.

ghost use Rattle.std.specs.Prelude.{◌≡◌, Some};
ghost use Rattle.explain_events.specs.Heads.{bit_text, flags_words, busy_words, op_kind_text, event_kind_text, moment_words, front_text, head_text};

use crate::read_event::ReadEvent;
use crate::sender_and_receiver::SenderAndReceiver;
use crate::words::{OctetsWords, PointWords, Spaces, TimeWords, digits_of_long, word_for};
use dp_line::{Event, Op};
use explain_octets::Kind;
use std::fmt;

/// The widths of the columns of the place, and of the sender and the receiver.
const PLACE_COLUMNS: usize = 5;

const SENDER_AND_RECEIVER_COLUMNS: usize = 26;

/// Returns a bit as 0 or 1.
fn bit(is_set: bool) -> &'static str
    ensures { result.now ≡ bit_text is_set }
{
    if is_set { "1" } else { "0" }
}

/// Returns the words for a point that is marked busy or no longer busy.
fn busy_name(on: bool) -> &'static str
    ensures { result.now ≡ busy_words on }
{
    if on { " busy" } else { " no longer busy" }
}

/// The flags of a diagnosis that the operator reports.
#[derive(Clone, Copy)]
struct Flags {
    ext: bool,
    stat: bool,
    overflow: bool,
}

impl fmt::Display for Flags {
    ghost output = { λ s. Some (flags_words s.ext s.stat s.overflow) };

    fn fmt<W: fmt::Write>(&self, f: &mut fmt::Formatter<W>) -> fmt::Result {
        let ext = bit(self.ext);
        let stat = bit(self.stat);
        let overflow = bit(self.overflow);
        write!(
            f,
            "Ext_Diag {ext}, Stat_Diag {stat}, Ext_Diag_Overflow {overflow}"
        )
    }
}

/// A busy mark of a point.
#[derive(Clone, Copy)]
struct Mark {
    point: Option<u8>,
    on: bool,
}

impl fmt::Display for Mark {
    ghost use Rattle.std.specs.Prelude.{◌++◌};
    ghost use Rattle.explain_events.specs.Words.{point_words};

    ghost output = { λ mark. Some (point_words mark.point ++ busy_words mark.on) };

    fn fmt<W: fmt::Write>(&self, f: &mut fmt::Formatter<W>) -> fmt::Result {
        let point = PointWords(self.point);
        let busy = busy_name(self.on);
        write!(f, "{point}{busy}")
    }
}

/// An event of the operator, in words.
#[derive(Clone, Copy)]
struct OpKind<'a>(&'a Op);

impl<'a> fmt::Display for OpKind<'a> {
    ghost output = { λ kind. Some (op_kind_text kind.0.now) };

    fn fmt<W: fmt::Write>(&self, f: &mut fmt::Formatter<W>) -> fmt::Result {
        match self.0 {
            Op::Input { octets, .. } => {
                let octets = OctetsWords(octets.as_slice());
                write!(f, "inputs {octets}")
            }
            Op::Diag {
                ext,
                stat,
                overflow,
                octets,
                ..
            } => {
                let flags = Flags {
                    ext: *ext,
                    stat: *stat,
                    overflow: *overflow,
                };
                let octets = OctetsWords(octets.as_slice());
                write!(f, "diagnosis {flags}; extended {octets}")
            }
            Op::Busy { point, on, .. } => {
                let mark = Mark {
                    point: *point,
                    on: *on,
                };
                write!(f, "{mark}")
            }
            Op::Tick(units) => {
                let word = word_for(*units == 1, "unit", "units");
                let time = TimeWords(u64::from(*units));
                write!(f, "{units} {word} of time, {time}")
            }
            Op::Halt => f.write_str("halt"),
        }
    }
}

/// The kind of an event, in words: the frame and the service of a request, or what the operator did.
#[derive(Clone, Copy)]
pub struct EventKind<'a>(pub &'a ReadEvent<'a>);

impl<'a> fmt::Display for EventKind<'a> {
    ghost output = { λ kind. Some (event_kind_text kind.0.now) };

    fn fmt<W: fmt::Write>(&self, f: &mut fmt::Formatter<W>) -> fmt::Result {
        match self.0.event() {
            Event::Request { .. } => {
                let kind = Kind::from_octets(self.0.request());
                write!(f, "{kind}")
            }
            Event::Operator(op) => {
                let kind = OpKind(op);
                write!(f, "{kind}")
            }
        }
    }
}

/// The time before an event, in units of 10 ms; writes nothing before the first tick.
#[derive(Clone, Copy)]
struct Moment(Option<u64>);

impl fmt::Display for Moment {
    ghost output = { λ moment. Some (moment_words moment.0) };

    fn fmt<W: fmt::Write>(&self, f: &mut fmt::Formatter<W>) -> fmt::Result {
        match self.0 {
            None => Ok(()),
            Some(units) => {
                let time = TimeWords(units);
                write!(f, "  at {time}")
            }
        }
    }
}

/// The place of an event, and its sender and its receiver, each in its column.
#[derive(Clone, Copy)]
struct Front<'a> {
    place: u64,
    event: &'a ReadEvent<'a>,
}

impl<'a> fmt::Display for Front<'a> {
    ghost output = { λ front. Some (front_text front.place front.event.now) };

    fn fmt<W: fmt::Write>(&self, f: &mut fmt::Formatter<W>) -> fmt::Result {
        let place = self.place;
        let before = Spaces(PLACE_COLUMNS.saturating_sub(digits_of_long(place)));
        let sender_and_receiver = SenderAndReceiver::of_read(self.event);
        let behind = Spaces(SENDER_AND_RECEIVER_COLUMNS.saturating_sub(
            sender_and_receiver.width(),
        ));
        write!(f, "{before}{place}  {sender_and_receiver}{behind}")
    }
}

/// The first row of an entry, with its LF.
#[derive(Clone, Copy)]
pub(crate) struct Head<'a> {
    /// The sum of the ticks before the event, in units of 10 ms; None before the first tick.
    pub(crate) time: Option<u64>,
    /// The place of the event, from 1.
    pub(crate) place: u64,
    pub(crate) event: &'a ReadEvent<'a>,
}

impl<'a> fmt::Display for Head<'a> {
    ghost output = { λ head. Some (head_text head.time head.place head.event.now) };

    fn fmt<W: fmt::Write>(&self, f: &mut fmt::Formatter<W>) -> fmt::Result {
        let front = Front {
            place: self.place,
            event: self.event,
        };
        let kind = EventKind(self.event);
        let moment = Moment(self.time);
        write!(f, "{front}{kind}{moment}\n")
    }
}
