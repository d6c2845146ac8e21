//! Advances time, obeys operators and copies audit texts for C.

ghost use Rattle.std.specs.Prelude.{◌≡◌, IfSome, Some};
ghost use Rattle.embedded_rack.specs.RackCalls.{entries_counted, operated, rowed, ticked};
ghost use Rattle.rackd_library.specs.Answers.{done_number, given_number, text_count, text_number, text_room};
ghost use Rattle.rackd_library.specs.Held.{IsOpen};

use crate::answer::DONE;
use crate::handle::Handle;
use crate::text_out::copy_text;
use embedded_rack::{CallFault, EmbeddedRack};
use std::alloc::Global;

/// Lets time pass on a line, in units of 10 ms. Returns 0, or the number of a fault.
#[unsafe(no_mangle)]
pub extern "C" fn rackd_tick(alloc: Global, rack: &mut Handle, line: u8, units: u32) -> u32
    requires open { IsOpen rack.old.rack }
    ensures rack { IfSome rack.old.rack (λ opened. rack.new.rack ≡ Some (ticked opened line units).rack) }
    ensures done { IfSome rack.old.rack (λ opened. result ≡ done_number (ticked opened line units).result) }
{
    let mut opened = rack.take(alloc);
    let ticked = opened.tick(line, units);
    rack.put(opened);
    number_of(ticked)
}

/// Obeys a line of an operator, without its LF, and copies its answer. Sets `count` to the number of octets of the
/// answer. Returns 0, the number of a fault, or `SHORT_ROOM` if there is no room for the answer; then the line is obeyed.
#[unsafe(no_mangle)]
pub extern "C" fn rackd_operate(
    alloc: Global,
    rack: &mut Handle,
    line: u8,
    command: &[u8],
    answer: &mut [u8],
    count: &mut usize,
) -> u32
    requires open { IsOpen rack.old.rack }
    ensures rack { IfSome rack.old.rack (λ opened. rack.new.rack ≡ Some (operated opened line command.now).rack) }
    ensures done { IfSome rack.old.rack (λ opened. result ≡ text_number (operated opened line command.now) answer.old) }
    ensures count { IfSome rack.old.rack (λ opened. count.new ≡ text_count (operated opened line command.now)) }
    ensures answer { IfSome rack.old.rack (λ opened. answer.new ≡ text_room (operated opened line command.now) answer.old) }
{
    let mut opened = rack.take(alloc);
    let operated = opened.operate(line, command);
    let done = copy_of(operated, &*opened, answer, count);
    rack.put(opened);
    done
}

/// Sets `entries` to the number of entries of the journal of a line. Returns 0, or the number of a fault.
#[unsafe(no_mangle)]
pub extern "C" fn rackd_entries(
    alloc: Global,
    rack: &mut Handle,
    line: u8,
    entries: &mut u32,
) -> u32
    requires open { IsOpen rack.old.rack }
    ensures rack { rack.new.rack ≡ rack.old.rack }
    ensures done { IfSome rack.old.rack (λ opened. result ≡ done_number (entries_counted opened line).result) }
    ensures entries { IfSome rack.old.rack (λ opened. entries.new ≡ given_number (entries_counted opened line).result) }
{
    let opened = rack.take(alloc);
    let counted = opened.entries(line);
    rack.put(opened);
    match counted {
        Ok(count) => {
            *entries = count;
            DONE
        }
        Err(fault) => {
            *entries = 0;
            u32::from(fault.code())
        }
    }
}

/// Copies the row at a place of the audit text of a line: its header at place 0. Sets `count` to the number of its
/// octets. Returns 0, the number of a fault, or `SHORT_ROOM`.
#[unsafe(no_mangle)]
pub extern "C" fn rackd_row(
    alloc: Global,
    rack: &mut Handle,
    line: u8,
    place: u32,
    row: &mut [u8],
    count: &mut usize,
) -> u32
    requires open { IsOpen rack.old.rack }
    ensures rack { IfSome rack.old.rack (λ opened. rack.new.rack ≡ Some (rowed opened line place).rack) }
    ensures done { IfSome rack.old.rack (λ opened. result ≡ text_number (rowed opened line place) row.old) }
    ensures count { IfSome rack.old.rack (λ opened. count.new ≡ text_count (rowed opened line place)) }
    ensures row { IfSome rack.old.rack (λ opened. row.new ≡ text_room (rowed opened line place) row.old) }
{
    let mut opened = rack.take(alloc);
    let found = opened.row(line, place);
    let done = copy_of(found, &*opened, row, count);
    rack.put(opened);
    done
}

/// Returns the number of a call: 0, or that of its fault.
fn number_of(done: Result<(), CallFault>) -> u32
    ensures { result ≡ done_number done }
{
    match done {
        Ok(()) => DONE,
        Err(fault) => u32::from(fault.code()),
    }
}

/// Copies the text of a call that is done, if there is room for all of it.
fn copy_of(
    done: Result<(), CallFault>,
    opened: &EmbeddedRack,
    room: &mut [u8],
    count: &mut usize,
) -> u32
    ensures done { result ≡ text_number (record { rack = opened.now; result = done }) room.old }
    ensures count { count.new ≡ text_count (record { rack = opened.now; result = done }) }
    ensures room { room.new ≡ text_room (record { rack = opened.now; result = done }) room.old }
{
    match done {
        Ok(()) => copy_text(opened.text(), room, count),
        Err(fault) => {
            *count = 0;
            u32::from(fault.code())
        }
    }
}
