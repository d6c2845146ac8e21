//! The receiver and the octets of an entry, in words.

ghost use Rattle.std.specs.Prelude.{Some};
ghost use Rattle.std.specs.List.{flat_map};
ghost use Rattle.explain_octets.specs.Words.{hex_pair};
ghost use Rattle.judge_findings.specs.Findings.{octets_row, octets_of_entry, receiver_words, slave_json};

use dp_telegram::GLOBAL_ADDRESS;
use explain_octets::{Hex, HexPair};
use judge_rules::Entry;
use std::fmt;

/// The receiver of a request or of a token, with a space before it; nothing for other octets.
#[derive(Clone, Copy)]
pub(crate) struct ReceiverWords<'a>(pub(crate) &'a Entry);

impl<'a> fmt::Display for ReceiverWords<'a> {
    ghost output = { λ s. Some (receiver_words s.0.now) };

    fn fmt<W: fmt::Write>(&self, f: &mut fmt::Formatter<W>) -> fmt::Result {
        match self.0 {
            Entry::Request(request) => {
                let address = request.address;
                if address == GLOBAL_ADDRESS {
                    f.write_str(" all slaves")
                } else {
                    write!(f, " slave {address}")
                }
            }
            Entry::PassedToken(to) => write!(f, " slave {to}"),
            Entry::Stray => Ok(()),
        }
    }
}

/// The octets of a request as a row of their own; nothing for an entry that is no request.
#[derive(Clone, Copy)]
pub(crate) struct OctetsRow<'a>(pub(crate) &'a Entry);

impl<'a> fmt::Display for OctetsRow<'a> {
    ghost output = { λ s. Some (octets_row s.0.now) };

    fn fmt<W: fmt::Write>(&self, f: &mut fmt::Formatter<W>) -> fmt::Result {
        match self.0 {
            Entry::Request(request) => {
                let octets = Hex(request.octets.as_slice());
                write!(f, "  {octets}\n")
            }
            Entry::PassedToken(_) => Ok(()),
            Entry::Stray => Ok(()),
        }
    }
}

/// The address that a request or a token is sent to, as a value of JSON; `null` for other octets.
#[derive(Clone, Copy)]
pub(crate) struct SlaveValue<'a>(pub(crate) &'a Entry);

impl<'a> fmt::Display for SlaveValue<'a> {
    ghost output = { λ s. Some (slave_json s.0.now) };

    fn fmt<W: fmt::Write>(&self, f: &mut fmt::Formatter<W>) -> fmt::Result {
        match self.0 {
            Entry::Request(request) => {
                let address = request.address;
                write!(f, "{address}")
            }
            Entry::PassedToken(to) => write!(f, "{to}"),
            Entry::Stray => f.write_str("null"),
        }
    }
}

/// Octets as pairs of hex digits, with nothing between them.
#[derive(Clone, Copy)]
pub(crate) struct Pairs<'a>(pub(crate) &'a [u8]);

impl<'a> fmt::Display for Pairs<'a> {
    ghost output = { λ s. Some (flat_map hex_pair s.0.now) };

    fn fmt<W: fmt::Write>(&self, f: &mut fmt::Formatter<W>) -> fmt::Result {
        for octet in self.0 {
            let pair = HexPair(*octet);
            write!(f, "{pair}")?;
        }
        Ok(())
    }
}

/// The octets of a request as pairs of hex digits; none for an entry that is no request.
#[derive(Clone, Copy)]
pub(crate) struct EntryPairs<'a>(pub(crate) &'a Entry);

impl<'a> fmt::Display for EntryPairs<'a> {
    ghost output = { λ s. Some (flat_map hex_pair (octets_of_entry s.0.now)) };

    fn fmt<W: fmt::Write>(&self, f: &mut fmt::Formatter<W>) -> fmt::Result {
        match self.0 {
            Entry::Request(request) => {
                let pairs = Pairs(request.octets.as_slice());
                write!(f, "{pairs}")
            }
            Entry::PassedToken(_) => Ok(()),
            Entry::Stray => Ok(()),
        }
    }
}
