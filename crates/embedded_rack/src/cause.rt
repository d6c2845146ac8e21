//! The cause for which a rack text is refused.

ghost use Rattle.std.specs.Prelude.{◌≡◌, ◌≤◌, length};

use rack_file::cause_in;
use std::alloc::{AllocError, Global};

/// Copies the first octets of the cause for which a rack text is refused, as [`cause_in`] gives it, and returns how many
/// octets it has. It has none if there is no cause, or if the text is not UTF-8. Returns `AllocError` if memory runs
/// out.
pub fn set_cause(alloc: Global, text: &[u8], room: &mut [u8]) -> Result<usize, AllocError> {
    let Ok(text) = std::str::from_utf8(text) else {
        return Ok(0);
    };
    let Some(cause) = cause_in(alloc, text)? else {
        return Ok(0);
    };
    let octets = cause.as_bytes();
    let copied = octets.len().min(room.len());
    room[..copied].copy_from_slice(&octets[..copied]);
    Ok(octets.len())
}
