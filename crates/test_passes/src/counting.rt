//! A reader that counts its reads.

ghost use Rattle.std.specs.Prelude.{◌≡◌, ◌+◌, ◌≤◌, false, Some, IsOk};
ghost use Rattle.std.specs.Io.{ReadsAtMost};
ghost use Rattle.std.specs.Io.KnownBytes.{ReadConsumes};

use dp_sessions::Reads;
use std::io::{Read, Result};

/// A reader of octets, and the number of reads that were made.
#[derive(Drop)]
pub(crate) struct Counting<'a> {
    left: &'a [u8],
    pub(crate) made: u32,
}

impl<'a> Counting<'a> {
    /// Returns a reader of these octets that has made no read.
    pub(crate) fn new(octets: &'a [u8]) -> Counting<'a>
        ensures left { result.left.now ≡ octets.now }
        ensures made { result.made ≡ 0 }
    {
        Counting {
            left: octets,
            made: 0,
        }
    }
}

impl Read for Counting<'_> {
    ghost remaining = { λ r. Some r.left.now };

    fn read(&mut self, buf: &mut [u8]) -> Result<usize>
        ensures bound { ReadsAtMost result buf.new }
        ensures bytes { ReadConsumes (Some self.old.left.now) (Some self.new.left.now) result buf.new }
        ensures counted { self.new.made ≤ self.old.made + 1 }
        ensures ok { IsOk result }
    {
        self.made = self.made.saturating_add(1);
        self.left.read(buf)
    }
}

/// Reads by the count of a [`Counting`] reader. None of its reads fails.
pub(crate) struct ByCount;

impl<'a> Reads<Counting<'a>> for ByCount {
    ghost reads = { λ r. r.made };

    ghost failed = { λ _. false };

    fn read(reader: &mut Counting<'a>, buf: &mut [u8]) -> Result<usize> {
        reader.read(buf)
    }
}
