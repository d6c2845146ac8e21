//! The service access points that a telegram names.

ghost use Rattle.std.specs.Prelude.{◌≡◌, ◌+◌, ◌<◌, ◌≤◌, ◌↔◌, ◌++◌, length, Some, IfSome, option_to_list, option_map};
ghost use Rattle.std.specs.Option.{ForSome};
ghost use Rattle.dp_telegram.specs.Access.{HasParts, parts_of, request_of, request_parts, extension_of, announces, address_of, address_octet as address_octet_of};
ghost use Rattle.dp_telegram.specs.declared.access.Parts.{Parts};
ghost use Rattle.dp_telegram.specs.declared.frame.Telegram.{Telegram};

use crate::frame::{Frame, Telegram};
use crate::lent::{PartsLent, TelegramLent};
use arrayvec::ArrayVec;

/// Bit 7 of an address octet.
const ANNOUNCES: u8 = 0x80;

/// The last service access point.
const LAST_POINT: u8 = 63;

/// A data unit taken apart (IEC 61158-4-3, address extension).
#[derive(Clone, Debug, Drop, PartialEq, Eq)]
pub struct Parts {
    /// Destination service access point, 0 to 63; `None` is the default point.
    pub dsap: Option<u8>,
    /// Source service access point, 0 to 63.
    pub ssap: Option<u8>,
    /// The octets after the extension octets, 0 to 246.
    pub payload: ArrayVec<u8, 246>,
}

impl Parts {
    /// Returns the same parts with their payload lent.
    pub fn lent(&self) -> PartsLent<'_>
        ensures { result ≡ self.now }
    {
        PartsLent::new(self)
    }
}

impl Telegram {
    /// Returns the access points and the payload. The DSAP octet comes first if bit 7 of DA is set,
    /// then the SSAP octet if bit 7 of SA is set.
    ///
    /// `None` exactly if an announced extension octet is missing, or has bit 7 or 6 set (own).
    pub fn parts(&self) -> Option<Parts>
        ensures computed { result ≡ parts_of self.now }
        ensures parts { (parts : Parts) → (result ≡ Some parts) ↔ HasParts self.now parts }
    {
        let telegram = TelegramLent::new(self);
        let parts = telegram.parts()?;
        Some(parts.copied())
    }
}

/// Returns the point that an address octet announces at the front of the octets, and what follows
/// it. `None` if the octet is missing, or has bit 7 or 6 set.
pub(crate) fn extension(address: u8, octets: &[u8]) -> Option<(Option<u8>, &[u8])>
    ensures point { option_map (λ x. (x.0, x.1.now)) result ≡ extension_of (announces address) octets.now }
    ensures fewer { IfSome result (λ x. length x.1.now ≤ length octets.now) }
{
    if address < ANNOUNCES {
        return Some((None, octets));
    }
    let (point, rest) = octets.split_first()?;
    if *point > LAST_POINT {
        return None;
    }
    Some((Some(*point), rest))
}

/// Returns the frame of a request: addresses 0 to 127, any function code, points 0 to 63 or `None`,
/// and a payload. Points and payload have at most 246 octets together (IEC 61158-4-3, address
/// extension).
///
/// Bit 7 of its DA and of its SA announces the extension octet of its point. Addresses and parts
/// can be read back from the frame.
pub fn request(da: u8, sa: u8, fc: u8, dsap: Option<u8>, ssap: Option<u8>, payload: &[u8]) -> Frame
    requires da { da ≤ 127 }
    requires sa { sa ≤ 127 }
    requires dsap { ForSome dsap (λ point. point < 64) }
    requires ssap { ForSome ssap (λ point. point < 64) }
    requires room { length (option_to_list dsap) + length (option_to_list ssap) + length payload.now ≤ 246 }
    ensures frame { result ≡ Frame.Telegram (request_of da sa fc dsap ssap payload.now) }
    ensures parts { (telegram : Telegram) → result ≡ Frame.Telegram telegram → parts_of telegram ≡ Some (request_parts dsap ssap payload.now) }
    ensures addresses { (telegram : Telegram) → result ≡ Frame.Telegram telegram → (address_of telegram.da ≡ da) × (address_of telegram.sa ≡ sa) }
{
    let mut du = ArrayVec::new();
    push_point(&mut du, dsap);
    push_point(&mut du, ssap);
    du.try_extend_from_slice(payload).unwrap();
    Frame::Telegram(Telegram {
        da: address_octet(da, dsap),
        sa: address_octet(sa, ssap),
        fc,
        du,
    })
}

/// Appends the extension octet if there is a point.
pub(crate) fn push_point<const N: usize>(octets: &mut ArrayVec<u8, N>, point: Option<u8>)
    requires { length octets.old.items < N }
    ensures { octets.new.items ≡ octets.old.items ++ option_to_list point }
{
    if let Some(number) = point {
        octets.push(number);
    }
}

/// Returns an address octet: the address, 0 to 127, with bit 7 set if a point is announced.
fn address_octet(address: u8, point: Option<u8>) -> u8
    requires { address ≤ 127 }
    ensures { result ≡ address_octet_of address point }
{
    if point.is_some() {
        address + ANNOUNCES
    } else {
        address
    }
}
