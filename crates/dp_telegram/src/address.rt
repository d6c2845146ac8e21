//! The addresses of a telegram.

ghost use Rattle.std.specs.Prelude.{◌≡◌};
ghost use Rattle.dp_telegram.specs.Access.{address_of, is_station as is_station_address, source_of};
ghost use Rattle.dp_telegram.specs.FunctionCode.{function_of, is_request as is_request_by, frame_count_bit, frame_count_is_valid};

use crate::frame::{Frame, Telegram};
use crate::function_code::{self, Function};

/// The global address, which addresses all stations (IEC 61158-4-3, address octets).
pub const GLOBAL_ADDRESS: u8 = 127;

/// The last address that a station may have; the first is 0 (IEC 61158-4-3, address octets).
pub const LAST_STATION: u8 = 126;

/// The bits of an address octet that are the address (IEC 61158-4-3, address octets).
pub const ADDRESS_BITS: u8 = 0x7F;

/// Returns whether a station may have this address: 0 to 126.
pub const fn is_station(address: u8) -> bool
    ensures { result ≡ is_station_address address }
{
    address <= LAST_STATION
}

impl Telegram {
    /// Returns the destination address, 0 to 127: bits 6 to 0 of DA.
    pub const fn destination(&self) -> u8
        ensures { result ≡ address_of self.now.da }
    {
        self.da & ADDRESS_BITS
    }

    /// Returns the source address, 0 to 127: bits 6 to 0 of SA.
    pub const fn source(&self) -> u8
        ensures { result ≡ address_of self.now.sa }
    {
        self.sa & ADDRESS_BITS
    }

    /// Returns whether the telegram is a request, not a response.
    pub const fn is_request(&self) -> bool
        ensures { result ≡ is_request_by self.now.fc }
    {
        function_code::is_request(self.fc)
    }

    /// Returns the function that FC names. It has a meaning only for a request.
    pub const fn function(&self) -> Function
        ensures { result ≡ function_of self.now.fc }
    {
        Function::from_fc(self.fc)
    }

    /// Returns FCB, the frame count bit. It has a meaning only for a request.
    pub const fn fcb(&self) -> bool
        ensures { result ≡ frame_count_bit self.now.fc }
    {
        function_code::fcb(self.fc)
    }

    /// Returns FCV, whether the frame count bit is valid. It has a meaning only for a request.
    pub const fn fcv(&self) -> bool
        ensures { result ≡ frame_count_is_valid self.now.fc }
    {
        function_code::fcv(self.fc)
    }
}

impl Frame {
    /// Returns the source address, 0 to 127, of a token or a telegram; `None` for a short
    /// acknowledgement.
    pub const fn source(&self) -> Option<u8>
        ensures { result ≡ source_of self.now }
    {
        match self {
            Frame::Token { sa, .. } => Some(*sa & ADDRESS_BITS),
            Frame::Ack => None,
            Frame::Telegram(telegram) => Some(telegram.source()),
        }
    }
}
