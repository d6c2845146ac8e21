//! The kind of a telegram, in words.

ghost use Rattle.std.specs.Prelude.{◌≡◌, Some, None, option_map};
ghost use Rattle.std.specs.Fmt.{WritesOnOk};
ghost use Rattle.dp_telegram.specs.FrameText.{delimiter, frame_of, reading_of};
ghost use Rattle.dp_telegram.specs.FunctionCode.{function_of};
ghost use Rattle.dp_telegram.specs.Lent.{frame_lent};
ghost use Rattle.explain_octets.specs.Kinds.{asked_text, bit_text, count_text, format_text, frame_text, function_name, function_text, is_of_point as is_of_point_by, reading_text, ring_text, service_text, telegram_text};

use crate::faults::{SD2, write_fault};
use crate::points::AccessPoints;
use crate::read_octets::ReadOctets;
use dp_telegram::{
    ADDRESS_BITS, FrameLent, Function, PartsLent, TelegramLent, decode, function_code,
};
use std::fmt;
use std::marker::Model;

/// The start delimiter of a telegram without data (IEC 61158-4-3, start delimiters).
const SD1: u8 = 0x10;

/// The kind of octets: the frame, the function, and the access point (IEC 61158-4-3, frame formats and function code).
///
/// Contracts see the text that its `Display` writes: `SD2 SRD low FCB 1 FCV 0  Slave_Diag (60) from 62`,
/// `SD2 SRD low FCB 0 FCV 1  DSAP 12, SSAP 62`, `SD1 FDL status`, `SD4 token to 3 from 2`, `SC short acknowledgement`, or
/// `no telegram: BadEnd, the check sequence is 4e, not 4f`.
#[derive(Drop)]
pub struct Kind<'a> {
    octets: &'a [u8],
    /// The frame that the octets are the text of, if they are.
    frame: Option<FrameLent<'a>>,
}

impl<'a> Model for Kind<'a> {
    ghost use Rattle.std.specs.Prelude.{◌≡◌, ℕ, List, option_map};
    ghost use Rattle.dp_telegram.specs.FrameText.{frame_of};
    ghost use Rattle.dp_telegram.specs.Lent.{frame_lent};
    ghost use Rattle.explain_octets.specs.Kinds.{kind_text};

    ghost Value = { List ℕ };

    ghost view = { λ kind. kind_text kind.octets.now };

    ghost invariant = { λ kind. option_map frame_lent kind.frame ≡ frame_of kind.octets.now };
}

impl<'a> Kind<'a> {
    ghost use Rattle.explain_octets.specs.Kinds.{kind_text};

    /// Returns the kind of any octets.
    pub fn from_octets(read: &ReadOctets<'a>) -> Kind<'a>
        ensures { result ≡ kind_text read.now }
    {
        Kind {
            octets: read.octets(),
            frame: read.frame(),
        }
    }
}

impl<'a> fmt::Display for Kind<'a> {
    ghost output = { λ text. Some text };

    #[tactic(auto, unfolding(crate::specs::Kinds::kind_text))]
    fn fmt<W: fmt::Write>(&self, f: &mut fmt::Formatter<W>) -> fmt::Result {
        match &self.frame {
            Some(frame) => {
                let frame = Framed {
                    octets: self.octets,
                    frame,
                };
                write!(f, "{frame}")
            }
            None => write_unread(f, self.octets),
        }
    }
}

/// Writes octets that are no frame.
fn write_unread<W: fmt::Write>(f: &mut fmt::Formatter<W>, octets: &[u8]) -> fmt::Result
    requires { frame_of octets.now ≡ None }
    ensures { WritesOnOk W.Write.write_str_gives f.old result (reading_text (reading_of octets.now) octets.now) f.new }
{
    match decode(octets) {
        Ok(_) => Ok(()),
        Err(fault) => write_fault(f, octets, fault),
    }
}

/// A frame, and the octets that it was read from.
#[derive(Drop)]
struct Framed<'a> {
    octets: &'a [u8],
    frame: &'a FrameLent<'a>,
}

impl<'a> fmt::Display for Framed<'a> {
    ghost output = { λ framed. Some (frame_text (delimiter framed.octets.now) (frame_lent framed.frame.now)) };

    fn fmt<W: fmt::Write>(&self, f: &mut fmt::Formatter<W>) -> fmt::Result {
        match self.frame {
            FrameLent::Token { da, sa } => {
                let to = *da & ADDRESS_BITS;
                let from = *sa & ADDRESS_BITS;
                let ring = ring(to, from);
                write!(f, "SD4 token to {to} from {from}{ring}")
            }
            FrameLent::Ack => f.write_str("SC short acknowledgement"),
            FrameLent::Telegram(telegram) => {
                let format = format(self.octets);
                let said = Said(telegram);
                write!(f, "{format} {said}")
            }
        }
    }
}

/// Returns the end of the text of a token with these addresses: a station that passes the token to itself is alone in the
/// ring.
fn ring(to: u8, from: u8) -> &'static str
    ensures { result.now ≡ ring_text to from }
{
    if to == from {
        ", alone in the ring"
    } else {
        ""
    }
}

/// Returns the name of the format of a telegram, by its start delimiter.
fn format(octets: &[u8]) -> &'static str
    ensures { result.now ≡ format_text (delimiter octets.now) }
{
    match octets {
        [SD1, ..] => "SD1",
        [SD2, ..] => "SD2",
        _ => "SD3",
    }
}

/// A telegram without its data, in words.
#[derive(Drop)]
struct Said<'a>(&'a TelegramLent<'a>);

impl<'a> fmt::Display for Said<'a> {
    ghost output = { λ said. Some (telegram_text said.0.now) };

    #[tactic(auto, unfolding(crate::specs::Kinds::telegram_text))]
    fn fmt<W: fmt::Write>(&self, f: &mut fmt::Formatter<W>) -> fmt::Result {
        let telegram = self.0;
        if !telegram.is_request() {
            return f.write_str("response");
        }
        let asked = FunctionWords(telegram.fc());
        let service = Service {
            of_point: is_of_point(telegram.function()),
            parts: &telegram.parts(),
        };
        write!(f, "{asked}{service}")
    }
}

/// The access points of a request and of its sender, if its function uses access points.
#[derive(Drop)]
struct Service<'a> {
    of_point: bool,
    parts: &'a Option<PartsLent<'a>>,
}

impl<'a> fmt::Display for Service<'a> {
    ghost output = { λ service. Some (service_text service.of_point service.parts.now) };

    fn fmt<W: fmt::Write>(&self, f: &mut fmt::Formatter<W>) -> fmt::Result {
        let Some(parts) = self.parts else {
            return f.write_str("  extension missing or not plain");
        };
        if !self.of_point {
            return Ok(());
        }
        let points = AccessPoints {
            dsap: parts.dsap(),
            ssap: parts.ssap(),
        };
        write!(f, "  {points}")
    }
}

/// The function of a request with this FC, with FCB and FCV if it uses them.
#[derive(Clone, Copy)]
struct FunctionWords(u8);

impl fmt::Display for FunctionWords {
    ghost output = { λ fc. Some (asked_text fc.0) };

    #[tactic(auto, unfolding(crate::specs::Kinds::asked_text))]
    fn fmt<W: fmt::Write>(&self, f: &mut fmt::Formatter<W>) -> fmt::Result {
        let words = Words(self.0);
        if is_of_point(Function::from_fc(self.0)) {
            let count = Count(self.0);
            write!(f, "{words}{count}")
        } else {
            write!(f, "{words}")
        }
    }
}

/// Returns whether a function uses access points and the frame count bit, as SRD, SDN and SDA do.
pub(crate) fn is_of_point(function: Function) -> bool
    ensures { result ≡ is_of_point_by function }
{
    match function {
        Function::FdlStatus => false,
        Function::Ident => false,
        Function::LsapStatus => false,
        Function::Reserved => false,
        Function::SdaLow => true,
        Function::SdaHigh => true,
        Function::SdnLow => true,
        Function::SdnHigh => true,
        Function::SrdLow => true,
        Function::SrdHigh => true,
    }
}

/// The function of a request with this FC, by its name or, if it is reserved, by its number.
#[derive(Clone, Copy)]
struct Words(u8);

impl fmt::Display for Words {
    ghost output = { λ fc. Some (function_text (function_name (function_of fc.0)) fc.0) };

    fn fmt<W: fmt::Write>(&self, f: &mut fmt::Formatter<W>) -> fmt::Result {
        match name(Function::from_fc(self.0)) {
            Some(name) => f.write_str(name),
            None => {
                let number = self.0 & 0x0F;
                write!(f, "reserved function {number}")
            }
        }
    }
}

/// Returns the name of a function; None if it is reserved.
fn name(function: Function) -> Option<&'static str>
    ensures { option_map (λ name. name.now) result ≡ function_name function }
{
    match function {
        Function::SdaLow => Some("SDA low"),
        Function::SdnLow => Some("SDN low"),
        Function::SdaHigh => Some("SDA high"),
        Function::SdnHigh => Some("SDN high"),
        Function::FdlStatus => Some("FDL status"),
        Function::SrdLow => Some("SRD low"),
        Function::SrdHigh => Some("SRD high"),
        Function::Ident => Some("ident"),
        Function::LsapStatus => Some("LSAP status"),
        Function::Reserved => None,
    }
}

/// The FCB and FCV of an FC.
#[derive(Clone, Copy)]
struct Count(u8);

impl fmt::Display for Count {
    ghost output = { λ fc. Some (count_text fc.0) };

    fn fmt<W: fmt::Write>(&self, f: &mut fmt::Formatter<W>) -> fmt::Result {
        let fcb = bit(function_code::fcb(self.0));
        let fcv = bit(function_code::fcv(self.0));
        write!(f, " FCB {fcb} FCV {fcv}")
    }
}

/// Returns a bit as a digit.
fn bit(is_set: bool) -> &'static str
    ensures { result.now ≡ bit_text is_set }
{
    if is_set { "1" } else { "0" }
}
