//! Whether a connection begins as a web page makes a browser begin one.

use arrayvec::ArrayVec;
use dp_telegram::{Cut, Cutter, Frame};
use serve_log::Client;

/// What every request of HTTP 1 has in its first row, before its headers and its body.
const HTTP_VERSION: [u8; 8] = *b" HTTP/1.";

/// The number of first octets that are compared with the beginnings of TLS and of STUN.
const OPENING: usize = 8;

/// The first octets of a TLS connection: the content type of a handshake, and the major version.
const TLS_HANDSHAKE: [u8; 2] = [0x16, 0x03];

/// The highest minor version of a TLS record.
const MOST_TLS_MINOR: u8 = 4;

/// The octets 4 to 7 of a STUN message: the magic cookie.
const STUN_COOKIE: [u8; 4] = [0x21, 0x12, 0xA4, 0x42];

/// What the octets of a connection so far show.
#[derive(Clone, Copy, Debug, PartialEq, Eq)]
pub(crate) enum Shown {
    /// They may be the beginning of a web request.
    Nothing,
    /// The client has sent its first right telegram or its first whole row, so no web page made this connection.
    Other,
    /// They are the beginning of an HTTP request of any method, of a TLS connection or of a STUN message.
    WebRequest,
}

/// The octets of a connection so far, as far as they decide what it is.
#[derive(Drop)]
pub(crate) struct Screen {
    client: Client,
    opening: ArrayVec<u8, OPENING>,
    /// How many octets of [`HTTP_VERSION`] the last octets are.
    matched: usize,
    cutter: Cutter,
}

impl Screen {
    /// Returns the screen of a connection from which nothing was read yet.
    pub(crate) fn new(client: Client) -> Screen {
        Screen {
            client,
            opening: ArrayVec::new(),
            matched: 0,
            cutter: Cutter::new(),
        }
    }

    /// Returns what the octets so far and these octets behind them show. What decides first counts.
    pub(crate) fn judge(&mut self, octets: &[u8]) -> Shown {
        for octet in octets {
            let shown = self.take(*octet);
            if shown != Shown::Nothing {
                return shown;
            }
        }
        Shown::Nothing
    }

    /// Returns what the octets so far and this one show.
    fn take(&mut self, octet: u8) -> Shown {
        let is_address = self.opening.is_empty();
        let _ = self.opening.try_push(octet);
        self.matched = matched_behind(self.matched, octet);
        if self.matched == HTTP_VERSION.len() || is_tls(&self.opening) || is_stun(&self.opening) {
            return Shown::WebRequest;
        }
        let has_begun = match self.client {
            Client::Operator => octet == b'\n',
            Client::Master => !is_address && self.ends_telegram(octet),
        };
        if has_begun {
            Shown::Other
        } else {
            Shown::Nothing
        }
    }

    /// Returns whether this octet of the stream ends a telegram whose check sequence and end are right. A token and a short
    /// acknowledgement are none.
    fn ends_telegram(&mut self, octet: u8) -> bool {
        let _ = self.cutter.feed(&[octet]);
        while let Some(cut) = self.cutter.next() {
            match cut {
                Cut::Frame {
                    frame: Frame::Telegram(_),
                    ..
                } => return true,
                Cut::Frame { .. } => {}
                Cut::Dropped { .. } => {}
            }
        }
        false
    }
}

/// Returns how many octets of [`HTTP_VERSION`] the last octets are, with this one behind `matched` of them.
fn matched_behind(matched: usize, octet: u8) -> usize {
    match HTTP_VERSION.get(matched) {
        Some(expected) if *expected == octet => matched + 1,
        Some(_) => usize::from(octet == HTTP_VERSION[0]),
        None => usize::from(octet == HTTP_VERSION[0]),
    }
}

/// Returns whether the first octets begin a TLS connection: a handshake record and a version from 3.0 on.
fn is_tls(opening: &[u8]) -> bool {
    opening.starts_with(&TLS_HANDSHAKE)
        && opening.get(2).is_some_and(|minor| *minor <= MOST_TLS_MINOR)
}

/// Returns whether the first octets begin a STUN message.
fn is_stun(opening: &[u8]) -> bool {
    opening.len() == OPENING && opening.ends_with(&STUN_COOKIE)
}
