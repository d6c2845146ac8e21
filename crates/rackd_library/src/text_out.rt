//! Copies a text for C.

ghost use Rattle.std.specs.Prelude.{◌≡◌, length};
ghost use Rattle.rackd_library.specs.Answers.{copied, copying_number};

use crate::answer::DONE;

/// The number of the fault that an answer has more octets than there is room for.
pub(crate) const SHORT_ROOM: u32 = 11;

/// Copies a text if there is room for all of it, and sets `count` to the number of its octets. Returns `SHORT_ROOM` if
/// there is not; then nothing is copied.
pub(crate) fn copy_text(text: &[u8], room: &mut [u8], count: &mut usize) -> u32
    ensures done { result ≡ copying_number text.now room.old }
    ensures count { count.new ≡ length text.now }
    ensures room { room.new ≡ copied text.now room.old }
{
    *count = text.len();
    if text.len() > room.len() {
        return SHORT_ROOM;
    }
    room[..text.len()].copy_from_slice(text);
    DONE
}
