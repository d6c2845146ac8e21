//! Opens and closes racks for C.

ghost use Rattle.std.specs.Prelude.{◌≡◌, ◌≢◌, ◌<◌, None, IsUtf8};
ghost use Rattle.rack_file.specs.Codes.{rack_fault_code};
ghost use Rattle.rack_file.specs.RackFile.{rack_in};
ghost use Rattle.rackd_library.specs.Answers.{IsOpenedAs, opening_number};
ghost use Rattle.rackd_library.specs.Held.{IsOpen};

use crate::answer::DONE;
use crate::handle::{Handle, OUT_OF_MEMORY};
use crate::text_out::SHORT_ROOM;
use embedded_rack::{EmbeddedRack, set_cause};
use rack_file::RackFault;
use std::alloc::Global;

/// Opens the rack that a text describes, with ordinary or endless lines. The handle must be closed. Returns 0, or the
/// number of the fault of the text, or that of `OutOfMemory`; then the handle stays closed.
#[unsafe(no_mangle)]
pub extern "C" fn rackd_open(alloc: Global, rack: &mut Handle, text: &[u8], endless: bool) -> u32
    requires closed { rack.old.rack ≡ None }
    ensures opened { result ≡ 0 → IsOpenedAs endless (rack_in text.now) rack.new.rack }
    ensures refused { 0 < result → rack.new.rack ≡ None }
    ensures number { IsUtf8 text.now → result ≢ OUT_OF_MEMORY → result ≡ opening_number (rack_in text.now) }
{
    match EmbeddedRack::open(alloc, text, endless) {
        Ok(opened) => rack.hold(alloc, opened),
        Err(fault) => number_of_fault(fault),
    }
}

/// Returns the number of a fault of a rack text.
fn number_of_fault(fault: RackFault) -> u32
    ensures { result ≡ rack_fault_code fault }
{
    u32::from(fault.code())
}

/// Closes an open rack, and frees its memory.
#[unsafe(no_mangle)]
pub extern "C" fn rackd_close(alloc: Global, rack: &mut Handle)
    requires open { IsOpen rack.old.rack }
    ensures closed { rack.new.rack ≡ None }
{
    drop(rack.take(alloc));
}

/// Copies the first octets of the cause for which a rack text is refused, and sets `count` to the number of its octets,
/// 0 if there is none. Returns 0, `SHORT_ROOM` if the copy was cut, or the number of `OutOfMemory`.
#[unsafe(no_mangle)]
pub extern "C" fn rackd_cause(
    alloc: Global,
    text: &[u8],
    cause: &mut [u8],
    count: &mut usize,
) -> u32 {
    match set_cause(alloc, text, cause) {
        Ok(octets) => {
            *count = octets;
            if octets <= cause.len() {
                DONE
            } else {
                SHORT_ROOM
            }
        }
        Err(_) => {
            *count = 0;
            OUT_OF_MEMORY
        }
    }
}
