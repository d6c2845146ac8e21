//! The reasons why a document describes no rack: which key of which table isn't accepted, and why.

ghost use Rattle.std.specs.Prelude.{◌≡◌, Some, IfOk, option_map};
ghost use Rattle.rack_file.specs.Misreads.{bad_key, fault_of, cause_text, place_text, stands_for_itself, shown_octet, shown, key_fault_text};
ghost use Rattle.rack_file.specs.Suggestions.{suggested_key};

use crate::fault::RackFault;
use crate::keys::{keys_at, nearest_key};
use dp_line::OpenFault;
use std::alloc::{AllocError, Global};
use std::fmt;
use std::marker::Model;

/// The place of a table in a rack file.
#[derive(Clone, Copy)]
pub(crate) enum Place {
    /// The file itself.
    Rack,
    /// The line at this position of the file, from 1.
    Line(u8),
    /// The slave at this position, from 1, among those of the line at this position of the file.
    Slave(u8, usize),
}

impl fmt::Display for Place {
    ghost output = { λ place. Some (place_text place) };

    fn fmt<W: fmt::Write>(&self, f: &mut fmt::Formatter<W>) -> fmt::Result {
        match self {
            Place::Rack => Ok(()),
            Place::Line(line) => write!(f, "line {line}, "),
            Place::Slave(line, slave) => write!(f, "line {line}, slave {slave}, "),
        }
    }
}

/// A reason why a key isn't accepted.
#[derive(Clone, Copy)]
pub(crate) enum Cause {
    /// The table can't have such a key.
    NoSuchKey,
    /// The table must have this key, but hasn't.
    Missing,
    /// The value isn't a number from the first of these to the second.
    NoNumber(u32, u32),
    /// The value isn't a text.
    NoText,
    /// The value is neither a text nor an array.
    NoTextOrArray,
    /// The text doesn't consist of pairs of hex digits.
    NoHex,
    /// The text writes more than 244 octets.
    ManyOctets,
    /// The value isn't a truth value.
    NoFlag,
    /// The value isn't an array.
    NoArray,
    /// The array has fewer elements than the first of these, or more than the second.
    Count(u8, u8),
    /// An element of the array isn't a table.
    NoTable,
    /// The text isn't the name of a device.
    NoDevice,
}

impl fmt::Display for Cause {
    ghost output = { λ cause. Some (cause_text cause) };

    fn fmt<W: fmt::Write>(&self, f: &mut fmt::Formatter<W>) -> fmt::Result {
        match self {
            Cause::NoSuchKey => f.write_str("no such key"),
            Cause::Missing => f.write_str("missing"),
            Cause::NoNumber(least, most) => write!(f, "expected a number from {least} to {most}"),
            Cause::NoText => f.write_str("expected a text in quotes"),
            Cause::NoTextOrArray => f.write_str("expected a text in quotes or an array of texts"),
            Cause::NoHex => f.write_str("expected pairs of hex digits without spaces, as \"2111\""),
            Cause::ManyOctets => f.write_str("expected at most 244 octets"),
            Cause::NoFlag => f.write_str("expected true or false"),
            Cause::NoArray => f.write_str("expected an array"),
            Cause::Count(least, most) => write!(f, "expected {least} to {most} elements"),
            Cause::NoTable => f.write_str("expected a table as each element"),
            Cause::NoDevice => f.write_str("expected \"still\", \"counter\" or \"mirror\""),
        }
    }
}

/// An octet as it is shown in a text line: printable ASCII other than `"` and `\` stands for itself, and each other
/// octet is written `\xNN`.
#[derive(Drop)]
struct ShownOctet(u8);

impl fmt::Display for ShownOctet {
    ghost output = { λ octet. Some (shown_octet octet.0) };

    fn fmt<W: fmt::Write>(&self, f: &mut fmt::Formatter<W>) -> fmt::Result {
        let octet = self.0;
        if stands_for_itself(octet) {
            f.write_char(char::from(octet))
        } else {
            write!(f, "\\x{octet:02x}")
        }
    }
}

/// Returns whether the octet is printable ASCII, and neither `"` nor `\`.
fn stands_for_itself(octet: u8) -> bool
    ensures { result ≡ stands_for_itself octet }
{
    b' ' <= octet && octet <= b'~' && octet != b'"' && octet != b'\\'
}

/// A text as it is shown in a text line, octet by octet.
#[derive(Drop)]
pub(crate) struct Shown<'a>(pub(crate) &'a str);

impl<'a> fmt::Display for Shown<'a> {
    ghost output = { λ text. Some (shown text.0.now) };

    fn fmt<W: fmt::Write>(&self, f: &mut fmt::Formatter<W>) -> fmt::Result {
        for octet in self.0.as_bytes() {
            let octet = ShownOctet(*octet);
            write!(f, "{octet}")?;
        }
        Ok(())
    }
}

/// A key of a rack file that isn't accepted.
#[derive(Drop)]
pub(crate) struct BadKey<'a> {
    place: Place,
    key: &'a str,
    cause: Cause,
}

impl<'a> Model for BadKey<'a> {
    ghost use Rattle.rack_file.specs.KeyFault.{KeyFault};

    ghost Value = { KeyFault };

    ghost view = { λ bad. record { place = bad.place; key = bad.key.now; cause = bad.cause } };
}

impl<'a> fmt::Display for BadKey<'a> {
    ghost output = { λ bad. Some (key_fault_text bad) };

    fn fmt<W: fmt::Write>(&self, f: &mut fmt::Formatter<W>) -> fmt::Result {
        let place = self.place;
        let key = Shown(self.key);
        let cause = self.cause;
        write!(f, "{place}key \"{key}\": {cause}")
    }
}

impl<'a> BadKey<'a> {
    /// Returns the key that this key may stand for, if the table can't have it. `AllocError` if memory runs out.
    pub(crate) fn suggested(&self, alloc: Global) -> Result<Option<&'static str>, AllocError>
        ensures { IfOk result (λ found. option_map (λ name. name.now) found ≡ suggested_key self.now.place self.now.key self.now.cause) }
    {
        match self.cause {
            Cause::NoSuchKey => nearest_key(alloc, self.key, keys_at(self.place)),
            Cause::Missing => Ok(None),
            Cause::NoNumber(_, _) => Ok(None),
            Cause::NoText => Ok(None),
            Cause::NoTextOrArray => Ok(None),
            Cause::NoHex => Ok(None),
            Cause::ManyOctets => Ok(None),
            Cause::NoFlag => Ok(None),
            Cause::NoArray => Ok(None),
            Cause::Count(_, _) => Ok(None),
            Cause::NoTable => Ok(None),
            Cause::NoDevice => Ok(None),
        }
    }
}

/// A reason why a document describes no rack.
#[derive(Drop)]
pub(crate) enum Misread<'a> {
    /// Memory ran out.
    OutOfMemory,
    /// A key isn't accepted.
    BadKey(BadKey<'a>),
    /// Two lines have the same number.
    TwiceLine,
    /// The line at this position of the file, from 1, can't be opened for this reason.
    Open(u8, OpenFault),
}

impl<'a> Misread<'a> {
    /// Returns that this key of the table in this place isn't accepted, with the cause.
    pub(crate) fn of_key(place: Place, key: &'a str, cause: Cause) -> Misread<'a>
        ensures { result ≡ bad_key place key.entry.now cause }
    {
        Misread::BadKey(BadKey { place, key, cause })
    }

    /// Returns the fault with which the rack file is refused.
    pub(crate) fn fault(self) -> RackFault
        ensures { result ≡ fault_of self.entry }
    {
        match self {
            Misread::OutOfMemory => RackFault::OutOfMemory,
            Misread::BadKey(_) => RackFault::BadKey,
            Misread::TwiceLine => RackFault::TwiceLine,
            Misread::Open(position, fault) => RackFault::Open(position, fault),
        }
    }
}

/// A reason why a value isn't accepted, if reading it takes memory.
#[derive(Drop)]
pub(crate) enum Unread {
    /// Memory ran out.
    OutOfMemory,
    /// The value is wrong.
    Wrong(Cause),
}

impl From<Cause> for Unread {
    ghost use Rattle.std.specs.Prelude.{◌≡◌};
    ghost use Rattle.rack_file.specs.declared.misread.Unread.TheVariants.{Wrong};

    ghost from_gives = { λ cause unread. unread ≡ Wrong cause };

    fn from(cause: Cause) -> Unread {
        Unread::Wrong(cause)
    }
}
