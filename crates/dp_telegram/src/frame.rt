//! Frames and telegrams, as octets on the wire.

use arrayvec::ArrayVec;

/// The greatest number of octets of a frame: that of the longest SD2 telegram.
pub const MOST_OCTETS: usize = 255;

/// Octets of at most one frame, 0 to 255 of them.
pub type Octets = ArrayVec<u8, MOST_OCTETS>;

/// A telegram with its octets as they stand on the wire (IEC 61158-4-3, telegrams of fixed and of
/// variable length).
#[derive(Clone, Debug, Drop, PartialEq, Eq)]
pub struct Telegram {
    /// Destination address: bits 6 to 0 are the address, bit 7 announces a DSAP octet.
    pub da: u8,
    /// Source address: bits 6 to 0 are the address, bit 7 announces an SSAP octet.
    pub sa: u8,
    /// Function code.
    pub fc: u8,
    /// Data unit, 0 to 246 octets: extension octets first, then the payload.
    pub du: ArrayVec<u8, 246>,
}

/// The content of the text of one frame.
#[derive(Clone, Debug, Drop, PartialEq, Eq)]
pub enum Frame {
    /// SD4: the token is passed on (IEC 61158-4-3, token telegram).
    Token {
        /// Destination address.
        da: u8,
        /// Source address.
        sa: u8,
    },
    /// SC: the short acknowledgement (IEC 61158-4-3, short acknowledgement).
    Ack,
    /// SD1, SD2 or SD3. Which of them the text used is not stored.
    Telegram(Telegram),
}
