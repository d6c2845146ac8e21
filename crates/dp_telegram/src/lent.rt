//! Frames, telegrams and their parts, read in place: nothing is copied.
//!
//! [`WholeFrame`] is a type of its own, so that no other call has to require that octets are a
//! frame, and a script or a session judges each frame once.
//!
//! Frames, telegrams and their parts have an owned and a lent form. The definitions use only the
//! owned forms, and each lent form stands for an owned one in contracts, so no definition exists
//! twice.

ghost use Rattle.std.specs.Prelude.{◌≡◌, ◌≤◌, if◌then◌else◌, is_none, length, IsTrue, None, Some};
ghost use Rattle.dp_telegram.specs.Access.{address_of, parts_of, source_of};
ghost use Rattle.dp_telegram.specs.FrameText.{delimiter, fault_of, frame_at, frame_length, frame_of, head_is_right, is_start, telegram_in as telegram_at};
ghost use Rattle.dp_telegram.specs.FunctionCode.{function_of, is_request as is_request_by};
ghost use Rattle.dp_telegram.specs.Lent.{frame_lent};
ghost use Rattle.dp_telegram.specs.declared.frame.Frame.TheVariants as frames;

use crate::access::{Parts, extension};
use crate::address::ADDRESS_BITS;
use crate::decoding::{fault_in, frame_size};
use crate::delimiter::{SC, SD2, SD4};
use crate::frame::{Frame, Telegram};
use crate::function_code::{self, Function};
use arrayvec::ArrayVec;
use std::marker::Model;

/// The octets of one whole frame, lent in place. Contracts see these octets.
#[derive(Debug, Drop)]
pub struct WholeFrame<'a> {
    octets: &'a [u8],
}

impl<'a> Model for WholeFrame<'a> {
    ghost use Rattle.std.specs.Prelude.{◌≡◌, ℕ, List, None};
    ghost use Rattle.dp_telegram.specs.FrameText.{fault_of};

    ghost Value = { List ℕ };

    ghost view = { λ w. w.octets.now };

    ghost invariant = { λ w. fault_of w.octets.now ≡ None };
}

impl<'a> WholeFrame<'a> {
    /// Returns the octets as a frame; `None` exactly if they are not the text of a frame.
    pub fn read(octets: &'a [u8]) -> Option<WholeFrame<'a>>
        ensures { result ≡ (if is_none (fault_of octets.now) then Some octets.now else None) }
    {
        if fault_in(octets).is_some() {
            return None;
        }
        Some(WholeFrame::new(octets))
    }

    /// Returns these octets as a frame. They must be the text of one.
    pub(crate) fn new(octets: &'a [u8]) -> WholeFrame<'a>
        requires { fault_of octets.now ≡ None }
        ensures { result ≡ octets.now }
    {
        WholeFrame { octets }
    }

    /// Returns its octets, 1 to 255 of them.
    pub fn octets(&self) -> &'a [u8]
        ensures octets { result.now ≡ self.now }
        ensures most { length result.now ≤ 255 }
    {
        self.octets
    }

    /// Returns the content of the frame.
    pub fn frame(&self) -> FrameLent<'a>
        ensures { Some (frame_lent result) ≡ frame_of self.now }
    {
        frame_in(self.octets)
    }
}

/// The content of the text of one frame: a [`crate::Frame`] of which nothing is copied.
#[derive(Debug, Drop)]
pub enum FrameLent<'a> {
    /// See [`crate::Frame::Token`].
    Token {
        /// Destination address.
        da: u8,
        /// Source address.
        sa: u8,
    },
    /// See [`crate::Frame::Ack`].
    Ack,
    /// See [`crate::Frame::Telegram`].
    Telegram(TelegramLent<'a>),
}

impl FrameLent<'_> {
    /// Returns the source address, 0 to 127, of a token or a telegram; `None` for a short
    /// acknowledgement.
    pub fn source(&self) -> Option<u8>
        ensures { result ≡ source_of (frame_lent self.now) }
    {
        match self {
            FrameLent::Token { sa, .. } => Some(*sa & ADDRESS_BITS),
            FrameLent::Ack => None,
            FrameLent::Telegram(telegram) => Some(telegram.source()),
        }
    }

    /// Returns the same frame with a copy of the data unit.
    pub(crate) fn copied(&self) -> Frame
        ensures { result ≡ frame_lent self.now }
    {
        match self {
            FrameLent::Token { da, sa } => Frame::Token { da: *da, sa: *sa },
            FrameLent::Ack => Frame::Ack,
            FrameLent::Telegram(telegram) => Frame::Telegram(telegram.copied()),
        }
    }
}

/// A telegram whose data unit is lent. Contracts see it as a [`crate::Telegram`].
#[derive(Debug, Drop)]
pub struct TelegramLent<'a> {
    da: u8,
    sa: u8,
    fc: u8,
    du: &'a [u8],
}

impl<'a> Model for TelegramLent<'a> {
    ghost use Rattle.std.specs.Prelude.{◌≤◌, length};
    ghost use Rattle.dp_telegram.specs.declared.frame.Telegram.{Telegram};

    ghost Value = { Telegram };

    ghost view = { λ t. record { da = t.da; sa = t.sa; fc = t.fc; du = record { items = t.du.now } } };

    ghost invariant = { λ t. length t.du.now ≤ 246 };
}

impl<'a> TelegramLent<'a> {
    /// Returns the same telegram with its data unit lent.
    pub(crate) fn new(telegram: &'a Telegram) -> TelegramLent<'a>
        ensures { result ≡ telegram.now }
    {
        TelegramLent {
            da: telegram.da,
            sa: telegram.sa,
            fc: telegram.fc,
            du: &telegram.du,
        }
    }

    /// Returns DA, the destination address octet.
    pub fn da(&self) -> u8
        ensures { result ≡ self.now.da }
    {
        self.da
    }

    /// Returns SA, the source address octet.
    pub fn sa(&self) -> u8
        ensures { result ≡ self.now.sa }
    {
        self.sa
    }

    /// Returns FC, the function code.
    pub fn fc(&self) -> u8
        ensures { result ≡ self.now.fc }
    {
        self.fc
    }

    /// Returns the destination address. See [`crate::Telegram::destination`].
    pub fn destination(&self) -> u8
        ensures { result ≡ address_of self.now.da }
    {
        self.da & ADDRESS_BITS
    }

    /// Returns the source address. See [`crate::Telegram::source`].
    pub fn source(&self) -> u8
        ensures { result ≡ address_of self.now.sa }
    {
        self.sa & ADDRESS_BITS
    }

    /// Returns whether the telegram is a request. See [`crate::Telegram::is_request`].
    pub fn is_request(&self) -> bool
        ensures { result ≡ is_request_by self.now.fc }
    {
        function_code::is_request(self.fc)
    }

    /// Returns the function that FC names. See [`crate::Telegram::function`].
    pub fn function(&self) -> Function
        ensures { result ≡ function_of self.now.fc }
    {
        Function::from_fc(self.fc)
    }

    /// Returns the same telegram with a copy of the data unit.
    fn copied(&self) -> Telegram
        ensures { result ≡ self.now }
    {
        Telegram {
            da: self.da,
            sa: self.sa,
            fc: self.fc,
            du: ArrayVec::try_from(self.du).unwrap(),
        }
    }

    /// Returns the access points, and the payload lent. See [`crate::Telegram::parts`].
    pub fn parts(&self) -> Option<PartsLent<'a>>
        ensures { result ≡ parts_of self.now }
    {
        let (dsap, rest) = extension(self.da, self.du)?;
        let (ssap, payload) = extension(self.sa, rest)?;
        Some(PartsLent {
            dsap,
            ssap,
            payload,
        })
    }
}

/// A data unit taken apart, whose payload is lent. Contracts see it as [`Parts`].
#[derive(Debug, Drop)]
pub struct PartsLent<'a> {
    dsap: Option<u8>,
    ssap: Option<u8>,
    payload: &'a [u8],
}

impl<'a> Model for PartsLent<'a> {
    ghost use Rattle.std.specs.Prelude.{◌≤◌, length};
    ghost use Rattle.dp_telegram.specs.declared.access.Parts.{Parts};

    ghost Value = { Parts };

    ghost view = { λ p. record { dsap = p.dsap; ssap = p.ssap; payload = record { items = p.payload.now } } };

    ghost invariant = { λ p. length p.payload.now ≤ 246 };
}

impl<'a> PartsLent<'a> {
    /// Returns the same parts with their payload lent.
    pub(crate) fn new(parts: &'a Parts) -> PartsLent<'a>
        ensures { result ≡ parts.now }
    {
        PartsLent {
            dsap: parts.dsap,
            ssap: parts.ssap,
            payload: &parts.payload,
        }
    }

    /// Returns the destination service access point, 0 to 63; `None` is the default point.
    pub fn dsap(&self) -> Option<u8>
        ensures { result ≡ self.now.dsap }
    {
        self.dsap
    }

    /// Returns the source service access point, 0 to 63.
    pub fn ssap(&self) -> Option<u8>
        ensures { result ≡ self.now.ssap }
    {
        self.ssap
    }

    /// Returns the octets after the extension octets, 0 to 246.
    pub fn payload(&self) -> &'a [u8]
        ensures octets { result.now ≡ self.now.payload.items }
        ensures most { length result.now ≤ 246 }
    {
        self.payload
    }

    /// Returns the same parts with a copy of the payload.
    pub(crate) fn copied(&self) -> Parts
        ensures { result ≡ self.now }
    {
        Parts {
            dsap: self.dsap,
            ssap: self.ssap,
            payload: ArrayVec::try_from(self.payload).unwrap(),
        }
    }
}

/// Returns the frame in front. Its head must be right, and all of its octets must be present.
pub(crate) fn frame_in(octets: &[u8]) -> FrameLent<'_>
    requires start { IsTrue (is_start (delimiter octets.now)) }
    requires right { IsTrue (head_is_right octets.now) }
    requires whole { frame_length octets.now ≤ length octets.now }
    ensures { frame_lent result ≡ frame_at octets.now }
{
    let size = frame_size(octets);
    match octets[0] {
        SD2 => telegram_in(&octets[4..size - 2]),
        SD4 => FrameLent::Token {
            da: octets[1],
            sa: octets[2],
        },
        SC => FrameLent::Ack,
        _ => telegram_in(&octets[1..size - 2]),
    }
}

/// Returns the telegram with these octets as DA, SA, FC and the data unit.
fn telegram_in(body: &[u8]) -> FrameLent<'_>
    requires least { 3 ≤ length body.now }
    requires most { length body.now ≤ 249 }
    ensures { frame_lent result ≡ frames.Telegram (telegram_at body.now) }
{
    FrameLent::Telegram(TelegramLent {
        da: body[0],
        sa: body[1],
        fc: body[2],
        du: &body[3..],
    })
}
