//! Replies in words.

ghost use Rattle.std.specs.Prelude.{◌≡◌, Some, option_map};
ghost use Rattle.dp_telegram.specs.Access.{parts_of};
ghost use Rattle.dp_telegram.specs.Lent.{frame_lent};
ghost use Rattle.explain_octets.specs.Replies.{acknowledged_text, data_front, data_text, earlier_text, frame_reply, is_earlier as is_earlier_by, label_from, parts_in, plain_text, response_text, sent_text};

use crate::configurations::Configuration;
use crate::diagnoses::Diagnosis;
use crate::points::Point;
use crate::read_octets::ReadOctets;
use crate::words::{Hex, HexPair};
use dp_sap::{GET_CFG, RD_INP, RD_OUTP, SLAVE_DIAG};
use dp_telegram::function_code::{DH, DL, OK, RR, RS, UE};
use dp_telegram::{FrameLent, PartsLent, TelegramLent};
use std::fmt;
use std::marker::Model;

/// A reply to a request, as one row with its label (IEC 61158-4-3, response telegrams).
///
/// Contracts see the text that its `Display` writes, such as `reply       inputs 01 02`; its label has 12 columns.
#[derive(Drop)]
pub struct Reply<'a> {
    is_judged_afterwards: bool,
    is_earlier: bool,
    /// None is a short acknowledgement.
    telegram: Option<TelegramLent<'a>>,
}

impl<'a> Model for Reply<'a> {
    ghost use Rattle.std.specs.Prelude.{ℕ, List};
    ghost use Rattle.explain_octets.specs.Replies.{reply_row};

    ghost Value = { List ℕ };

    ghost view = { λ reply. reply_row reply.is_judged_afterwards reply.is_earlier reply.telegram };
}

impl<'a> Reply<'a> {
    ghost use Rattle.explain_octets.specs.Replies.{reply_text};

    /// Returns the reply that these octets hold; `request` are the octets of the request. None if they are neither a
    /// telegram nor a short acknowledgement.
    ///
    /// If `is_judged_afterwards`, the slave judges the octets of the request only after its reply, and the text of a short
    /// acknowledgement says so.
    #[tactic(auto, unfolding(crate::specs::Replies::reply_text))]
    pub fn from_octets(
        request: &ReadOctets<'_>,
        reply: &ReadOctets<'a>,
        is_judged_afterwards: bool,
    ) -> Option<Reply<'a>>
        ensures { result ≡ reply_text is_judged_afterwards request.now reply.now }
    {
        match reply.frame() {
            Some(frame) => Reply::of_frame(&parts_asked(request), frame, is_judged_afterwards),
            None => None,
        }
    }

    /// Returns the reply that a frame holds; None if it is a token.
    fn of_frame(
        asked: &Option<PartsLent<'_>>,
        frame: FrameLent<'a>,
        is_judged_afterwards: bool,
    ) -> Option<Reply<'a>>
        ensures { result ≡ frame_reply is_judged_afterwards asked.now (frame_lent frame.entry) }
    {
        match frame {
            FrameLent::Token { .. } => None,
            FrameLent::Ack => Some(Reply {
                is_judged_afterwards,
                is_earlier: false,
                telegram: None,
            }),
            FrameLent::Telegram(telegram) => {
                let is_earlier = is_from_another(asked, &telegram.parts());
                Some(Reply {
                    is_judged_afterwards,
                    is_earlier,
                    telegram: Some(telegram),
                })
            }
        }
    }
}

/// Returns the access points and data of octets; None if they are no telegram, or the access points cannot be read.
#[tactic(auto, unfolding(crate::specs::Replies::parts_in))]
fn parts_asked<'a>(request: &ReadOctets<'a>) -> Option<PartsLent<'a>>
    ensures { result ≡ parts_in request.now }
{
    match request.frame() {
        Some(FrameLent::Telegram(telegram)) => telegram.parts(),
        Some(FrameLent::Token { .. }) => None,
        Some(FrameLent::Ack) => None,
        None => None,
    }
}

/// Returns whether a reply comes from another point than the request asked.
fn is_from_another(asked: &Option<PartsLent<'_>>, sent: &Option<PartsLent<'_>>) -> bool
    ensures { result ≡ is_earlier_by asked.now sent.now }
{
    match (asked, sent) {
        (Some(asked), Some(sent)) => asked.dsap() != sent.ssap(),
        (Some(_), None) => false,
        (None, _) => false,
    }
}

impl<'a> fmt::Display for Reply<'a> {
    ghost output = { λ text. Some text };

    fn fmt<W: fmt::Write>(&self, f: &mut fmt::Formatter<W>) -> fmt::Result {
        match &self.telegram {
            Some(telegram) => {
                let response = Response {
                    is_earlier: self.is_earlier,
                    telegram,
                };
                write!(f, "reply       {response}")
            }
            None => {
                let acknowledged = acknowledged(self.is_judged_afterwards);
                write!(f, "reply       {acknowledged}")
            }
        }
    }
}

/// Returns the text of a short acknowledgement.
fn acknowledged(is_judged_afterwards: bool) -> &'static str
    ensures { result.now ≡ acknowledged_text is_judged_afterwards }
{
    if is_judged_afterwards {
        "SC, short acknowledgement (judged afterwards)"
    } else {
        "SC, short acknowledgement"
    }
}

/// A response, in words.
#[derive(Drop)]
struct Response<'a> {
    is_earlier: bool,
    telegram: &'a TelegramLent<'a>,
}

impl<'a> fmt::Display for Response<'a> {
    ghost output = { λ response. Some (response_text response.is_earlier response.telegram.now) };

    #[tactic(auto, unfolding(crate::specs::Replies::response_text))]
    fn fmt<W: fmt::Write>(&self, f: &mut fmt::Formatter<W>) -> fmt::Result {
        if let Some(said) = plain(self.telegram.fc()) {
            return f.write_str(said);
        }
        let Some(front) = front(self.telegram.fc()) else {
            let code = HexPair(self.telegram.fc());
            return write!(f, "FC {code}");
        };
        let sent = Sent {
            is_earlier: self.is_earlier,
            telegram: self.telegram,
        };
        write!(f, "{front}{sent}")
    }
}

/// Returns the name of a response without data; None for any other function code.
fn plain(fc: u8) -> Option<&'static str>
    ensures { option_map (λ said. said.now) result ≡ plain_text fc }
{
    match fc {
        OK => Some("slave station"),
        UE => Some("UE, user error"),
        RR => Some("RR, no resource"),
        RS => Some("RS, not activated"),
        _ => None,
    }
}

/// Returns the words before the data of a response; None if the function code is not one with data.
fn front(fc: u8) -> Option<&'static str>
    ensures { option_map (λ front. front.now) result ≡ data_front fc }
{
    match fc {
        DL => Some(""),
        DH => Some("a diagnosis is due; "),
        _ => None,
    }
}

/// The data of a response.
#[derive(Drop)]
struct Sent<'a> {
    is_earlier: bool,
    telegram: &'a TelegramLent<'a>,
}

impl<'a> fmt::Display for Sent<'a> {
    ghost output = { λ sent. Some (sent_text sent.is_earlier (parts_of sent.telegram.now)) };

    #[tactic(auto, unfolding(crate::specs::Replies::sent_text))]
    fn fmt<W: fmt::Write>(&self, f: &mut fmt::Formatter<W>) -> fmt::Result {
        let Some(parts) = self.telegram.parts() else {
            return f.write_str("extension missing or not plain");
        };
        let earlier = Earlier {
            is_earlier: self.is_earlier,
            point: parts.ssap(),
        };
        let data = Data {
            point: parts.ssap(),
            octets: parts.payload(),
        };
        write!(f, "{earlier}{data}")
    }
}

/// The point of an earlier request; writes nothing if the reply is to the current request.
#[derive(Clone, Copy)]
struct Earlier {
    is_earlier: bool,
    point: Option<u8>,
}

impl fmt::Display for Earlier {
    ghost output = { λ earlier. Some (earlier_text earlier.is_earlier earlier.point) };

    fn fmt<W: fmt::Write>(&self, f: &mut fmt::Formatter<W>) -> fmt::Result {
        if self.is_earlier {
            let point = Point(self.point);
            write!(f, "to an earlier {point}: ")
        } else {
            Ok(())
        }
    }
}

/// Returns the label of data that is shown in hex, by the point that sends it.
fn label(point: Option<u8>) -> &'static str
    ensures { result.now ≡ label_from point }
{
    match point {
        None => "inputs ",
        Some(RD_INP) => "inputs ",
        Some(RD_OUTP) => "outputs ",
        Some(_) => "data ",
    }
}

/// The data that a point sends, in words.
#[derive(Drop)]
struct Data<'a> {
    point: Option<u8>,
    octets: &'a [u8],
}

impl<'a> fmt::Display for Data<'a> {
    ghost output = { λ sent. Some (data_text sent.point sent.octets.now) };

    fn fmt<W: fmt::Write>(&self, f: &mut fmt::Formatter<W>) -> fmt::Result {
        if let [] = self.octets {
            return f.write_str("no data");
        }
        match self.point {
            Some(GET_CFG) => {
                let configuration = Configuration(self.octets);
                write!(f, "{configuration}")
            }
            Some(SLAVE_DIAG) => {
                let diagnosis = Diagnosis(self.octets);
                write!(f, "{diagnosis}")
            }
            point => {
                let label = label(point);
                let octets = Hex(self.octets);
                write!(f, "{label}{octets}")
            }
        }
    }
}
