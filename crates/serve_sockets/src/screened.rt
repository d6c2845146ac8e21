//! A reader that fails on a web request.

ghost use Rattle.std.specs.Prelude.{◌≡◌, ◌+◌, ◌-◌, ◌≤◌, drop, length, min, take, OnOk};
ghost use Rattle.std.specs.Io.KnownBytes.{IsAtEnd, Keeps};
ghost use Rattle.serve_sockets.specs.Screening.{still_to_come};

use crate::screen::{Screen, Shown};
use arrayvec::ArrayVec;
use serve_log::Client;
use std::io::{Error, ErrorKind, Read, Result};

/// How many octets are read at a time until the client has begun.
const ROOM: usize = 256;

/// A reader whose reads fail with `InvalidData` if its octets begin as a web page makes a browser begin a connection: with an
/// HTTP request of any method (` HTTP/1.` in what came so far), a TLS connection (`16 03` and a version), or a STUN message
/// (`21 12 A4 42` as octets 4 to 7).
///
/// Octets are passed on as they are read, at most 256 at a time, because a master sends its address alone and waits for the
/// acceptance. Of a read that shows a web request none is passed on. Once a master has sent a right telegram, or an operator a
/// whole row, reads are those of the reader itself: the client is no browser.
#[derive(Drop)]
pub struct Screened<R: Drop> {
    reader: R,
    /// The octets that were read last, while it is not known what the client is.
    first: ArrayVec<u8, ROOM>,
    /// The number of these octets that were passed on.
    given: usize,
    shown: Shown,
    screen: Screen,
    ghost within: { given ≤ length first.items },
}

impl<R: Read + Drop> Screened<R> {
    /// Returns a reader of a connection that such a client is expected to begin, and from which nothing was read yet.
    pub fn new(reader: R, client: Client) -> Screened<R>
        ensures { Keeps (R.remaining reader) (still_to_come result.first.items result.given (R.remaining result.reader)) }
    {
        Screened {
            reader,
            first: ArrayVec::new(),
            given: 0,
            shown: Shown::Nothing,
            screen: Screen::new(client),
        }
    }

    /// Reads the next octets, if there are any, and judges them.
    fn read_first(&mut self) -> Result<()>
        requires all { self.old.given ≡ length self.old.first.items }
        ensures within { self.new.given ≤ length self.new.first.items }
        ensures kept { Keeps (still_to_come self.old.first.items self.old.given (R.remaining self.old.reader)) (still_to_come self.new.first.items self.new.given (R.remaining self.new.reader)) }
        ensures end { OnOk result (self.new.given ≡ length self.new.first.items → IsAtEnd (R.remaining self.new.reader)) }
    {
        let mut octets = [0; ROOM];
        let count = self.reader.read(&mut octets)?;
        self.first.clear();
        self.given = 0;
        let _ = self.first.try_extend_from_slice(&octets[..count]);
        self.shown = self.screen.judge(&octets[..count]);
        if self.shown == Shown::WebRequest {
            return Err(Error::from(ErrorKind::InvalidData));
        }
        Ok(())
    }

    /// Copies octets that were read and not passed on yet to `buf`, as many as it takes. Returns their number.
    fn hand_on(&mut self, buf: &mut [u8]) -> usize
        ensures reader { self.new.reader ≡ self.old.reader }
        ensures first { self.new.first ≡ self.old.first }
        ensures count { result ≡ min (length self.old.first.items - self.old.given) (length buf.new) }
        ensures given { self.new.given ≡ self.old.given + result }
        ensures octets { take result buf.new ≡ take result (drop self.old.given self.old.first.items) }
    {
        let (_, waiting) = self.first.split_at(self.given);
        let count = waiting.len().min(buf.len());
        buf[..count].copy_from_slice(&waiting[..count]);
        self.given += count;
        count
    }
}

impl<R: Read + Drop> Read for Screened<R> {
    ghost remaining = { λ s. still_to_come s.first.items s.given (R.remaining s.reader) };

    fn read(&mut self, buf: &mut [u8]) -> Result<usize> {
        if self.shown == Shown::WebRequest {
            return Err(Error::from(ErrorKind::InvalidData));
        }
        if self.given < self.first.len() {
            return Ok(self.hand_on(buf));
        }
        if self.shown == Shown::Other {
            return self.reader.read(buf);
        }
        self.read_first()?;
        Ok(self.hand_on(buf))
    }
}
