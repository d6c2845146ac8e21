//! The reason why nobody replies to a request, in words.

ghost use Rattle.std.specs.Prelude.{Some};
ghost use Rattle.explain_events.specs.Sentences.{line_reason_text, line_reason_text_if_any, no_master_text, station_words};

use crate::line_reasons::LineReason;
use crate::words::NumbersWords;
use std::fmt;

/// The station that sent a frame.
#[derive(Clone, Copy)]
struct StationWords(Option<u8>);

impl fmt::Display for StationWords {
    ghost output = { λ station. Some (station_words station.0) };

    fn fmt<W: fmt::Write>(&self, f: &mut fmt::Formatter<W>) -> fmt::Result {
        match self.0 {
            None => f.write_str("no station"),
            Some(address) => write!(f, "station {address}"),
        }
    }
}

/// The reason that the sender is no master of the line.
#[derive(Clone, Copy)]
struct NoMaster<'a> {
    master: u8,
    masters: &'a [u8],
}

impl<'a> fmt::Display for NoMaster<'a> {
    ghost output = { λ s. Some (no_master_text s.master s.masters.now) };

    fn fmt<W: fmt::Write>(&self, f: &mut fmt::Formatter<W>) -> fmt::Result {
        let master = self.master;
        let masters = NumbersWords(self.masters);
        write!(f, "Master {master} is none of the line's ({masters}).")
    }
}

/// The reason why nobody replies to a request.
#[derive(Clone, Copy)]
pub(crate) struct LineReasonWords<'a> {
    /// The masters of the line.
    pub(crate) masters: &'a [u8],
    pub(crate) reason: LineReason,
}

impl<'a> fmt::Display for LineReasonWords<'a> {
    ghost output = { λ s. Some (line_reason_text s.masters.now s.reason) };

    fn fmt<W: fmt::Write>(&self, f: &mut fmt::Formatter<W>) -> fmt::Result {
        match self.reason {
            LineReason::NoMaster(master) => {
                let words = NoMaster {
                    master,
                    masters: self.masters,
                };
                write!(f, "silence: NoMaster. {words}")
            }
            LineReason::ForeignSender(station) => {
                let station = StationWords(station);
                write!(f, "silence: ForeignSender. The frame is from {station}.")
            }
            LineReason::MasterStation(address) => write!(
                f,
                "silence: NoStation. Station {address} is a master of the line."
            ),
            LineReason::Halted => f.write_str("silence: Halted. The line takes no more."),
            LineReason::NoFrame => f.write_str("silence: NoFrame. The octets are no single frame."),
            LineReason::Token => f.write_str("silence: Token. A token asks for nothing."),
            LineReason::NotRequest => f.write_str(
                "silence: NotRequest. A response asks for nothing.",
            ),
            LineReason::BadFunction => f.write_str(
                "silence: BadFunction. The function is reserved.",
            ),
            LineReason::BadExtension => f.write_str(
                "silence: BadExtension. An extension octet is missing or not plain.",
            ),
            LineReason::BadBroadcast => f.write_str(
                "silence: BadBroadcast. Only a Global_Control goes to all slaves.",
            ),
            LineReason::NoStation => f.write_str("silence: NoStation. No slave has this address."),
            LineReason::LiveListPoll => f.write_str("silence: NoStation. No such station."),
        }
    }
}

/// The reason why nobody replies to a request; writes nothing if there is none.
#[derive(Clone, Copy)]
pub(crate) struct LineWords<'a> {
    /// The masters of the line.
    pub(crate) masters: &'a [u8],
    pub(crate) reason: Option<LineReason>,
}

impl<'a> fmt::Display for LineWords<'a> {
    ghost output = { λ s. Some (line_reason_text_if_any s.masters.now s.reason) };

    fn fmt<W: fmt::Write>(&self, f: &mut fmt::Formatter<W>) -> fmt::Result {
        match self.reason {
            Some(reason) => {
                let words = LineReasonWords {
                    masters: self.masters,
                    reason,
                };
                write!(f, "{words}")
            }
            None => Ok(()),
        }
    }
}
