//! The delimiters, and the check sequence.

ghost use Rattle.std.specs.Prelude.{◌≡◌, ◌≤◌, length};
ghost use Rattle.dp_telegram.specs.FrameText.{check_sequence};

/// Telegram of fixed length without a data unit.
pub(crate) const SD1: u8 = 0x10;
/// Telegram of variable length.
pub(crate) const SD2: u8 = 0x68;
/// Telegram of fixed length with eight octets of data unit.
pub(crate) const SD3: u8 = 0xA2;
/// Token.
pub(crate) const SD4: u8 = 0xDC;
/// Short acknowledgement (IEC 61158-4-3, frame formats).
pub const SC: u8 = 0xE5;
/// End delimiter.
pub(crate) const ED: u8 = 0x16;

/// Returns the check sequence of at most 255 octets: their sum modulo 256.
pub(crate) fn check_sum(octets: &[u8]) -> u8
    requires { length octets.now ≤ 255 }
    ensures { result ≡ check_sequence octets.now }
{
    (octets.iter().map(|octet| u32::from(*octet)).sum::<u32>() % 256) as u8
}
