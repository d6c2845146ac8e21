//! Takes telegrams of masters for C.

ghost use Rattle.std.specs.Prelude.{◌≡◌, ◌≤◌, ◌<◌, IfSome, Some, length};
ghost use Rattle.embedded_rack.specs.RackCalls.{fed, next_piece, requested};
ghost use Rattle.rackd_library.specs.Answers.{answer_of, done_number, given_number, next_answer, next_number, next_reply, refused_answer, replied, written_over};
ghost use Rattle.rackd_library.specs.Held.{IsOpen};

use crate::answer::{Answer, DONE, MOST_REPLY, answered, refused, set_answer};
use crate::handle::Handle;
use crate::text_out::SHORT_ROOM;
use embedded_rack::{EmbeddedRack, TakenPiece};
use std::alloc::Global;

/// The number of a piece that is a frame.
const FRAME: u8 = 255;

/// Takes one whole telegram of a master, and copies the reply. Sets `count` to the number of octets of the reply, `rule`
/// to the number of the rule that decided, and `place` to that of the entry in the journal; each is 0 if there is none.
/// Returns 0, the number of a fault, or `SHORT_ROOM` if there is no room for 255 octets; then nothing is taken.
#[unsafe(no_mangle)]
pub extern "C" fn rackd_request(
    alloc: Global,
    rack: &mut Handle,
    line: u8,
    master: u8,
    octets: &[u8],
    reply: &mut [u8],
    count: &mut usize,
    rule: &mut u8,
    place: &mut u32,
) -> u32
    requires open { IsOpen rack.old.rack }
    ensures short { length reply.old < MOST_REPLY → rack.new.rack ≡ rack.old.rack }
    ensures short_answer { length reply.old < MOST_REPLY → record { done = result; count = count.new; rule = rule.new; place = place.new } ≡ refused_answer SHORT_ROOM }
    ensures rack { MOST_REPLY ≤ length reply.old → IfSome rack.old.rack (λ opened. rack.new.rack ≡ Some (requested opened line master octets.now).rack) }
    ensures answer { MOST_REPLY ≤ length reply.old → IfSome rack.old.rack (λ opened. record { done = result; count = count.new; rule = rule.new; place = place.new } ≡ answer_of (requested opened line master octets.now)) }
    ensures reply { MOST_REPLY ≤ length reply.old → IfSome rack.old.rack (λ opened. reply.new ≡ written_over (replied (requested opened line master octets.now)) reply.old) }
{
    if reply.len() < MOST_REPLY {
        return set_answer(refused(SHORT_ROOM), count, rule, place);
    }
    let mut opened = rack.take(alloc);
    let answer = request(&mut *opened, line, master, octets, reply);
    rack.put(opened);
    set_answer(answer, count, rule, place)
}

/// Takes one whole telegram of a master, and copies the reply.
fn request(
    opened: &mut EmbeddedRack,
    line: u8,
    master: u8,
    octets: &[u8],
    reply: &mut [u8],
) -> Answer
    requires { MOST_REPLY ≤ length reply.old }
    ensures rack { opened.new ≡ (requested opened.old line master octets.now).rack }
    ensures answer { result ≡ answer_of (requested opened.old line master octets.now) }
    ensures reply { reply.new ≡ written_over (replied (requested opened.old line master octets.now)) reply.old }
{
    match opened.request(line, master, octets) {
        Ok(()) => answered(opened.answer(), reply),
        Err(fault) => refused(u32::from(fault.code())),
    }
}

/// Takes octets of a master's stream, as many as it has room for, and sets `taken` to their number. Returns 0, or the
/// number of a fault.
#[unsafe(no_mangle)]
pub extern "C" fn rackd_feed(
    alloc: Global,
    rack: &mut Handle,
    line: u8,
    master: u8,
    octets: &[u8],
    taken: &mut usize,
) -> u32
    requires open { IsOpen rack.old.rack }
    ensures rack { IfSome rack.old.rack (λ opened. rack.new.rack ≡ Some (fed opened line master octets.now).rack) }
    ensures done { IfSome rack.old.rack (λ opened. result ≡ done_number (fed opened line master octets.now).result) }
    ensures taken { IfSome rack.old.rack (λ opened. taken.new ≡ given_number (fed opened line master octets.now).result) }
{
    let mut opened = rack.take(alloc);
    let fed = opened.feed(line, master, octets);
    rack.put(opened);
    match fed {
        Ok(octets) => {
            *taken = octets;
            DONE
        }
        Err(fault) => {
            *taken = 0;
            u32::from(fault.code())
        }
    }
}

/// Takes the next piece of a master's stream, and sets `piece`: 0 if the octets held can't be judged yet, 255 for a
/// frame, which is answered as [`rackd_request`] answers it, else the reason why `count` octets are dropped. Returns 0,
/// the number of a fault, or `SHORT_ROOM` if there is no room for 255 octets; then nothing is taken.
#[unsafe(no_mangle)]
pub extern "C" fn rackd_next(
    alloc: Global,
    rack: &mut Handle,
    line: u8,
    master: u8,
    piece: &mut u8,
    reply: &mut [u8],
    count: &mut usize,
    rule: &mut u8,
    place: &mut u32,
) -> u32
    requires open { IsOpen rack.old.rack }
    ensures short { length reply.old < MOST_REPLY → rack.new.rack ≡ rack.old.rack }
    ensures short_answer { length reply.old < MOST_REPLY → record { done = result; count = count.new; rule = rule.new; place = place.new } ≡ refused_answer SHORT_ROOM }
    ensures rack { MOST_REPLY ≤ length reply.old → IfSome rack.old.rack (λ opened. rack.new.rack ≡ Some (next_piece opened line master).rack) }
    ensures piece { MOST_REPLY ≤ length reply.old → IfSome rack.old.rack (λ opened. piece.new ≡ next_number (next_piece opened line master)) }
    ensures answer { MOST_REPLY ≤ length reply.old → IfSome rack.old.rack (λ opened. record { done = result; count = count.new; rule = rule.new; place = place.new } ≡ next_answer (next_piece opened line master)) }
    ensures reply { MOST_REPLY ≤ length reply.old → IfSome rack.old.rack (λ opened. reply.new ≡ written_over (next_reply (next_piece opened line master)) reply.old) }
{
    if reply.len() < MOST_REPLY {
        *piece = 0;
        return set_answer(refused(SHORT_ROOM), count, rule, place);
    }
    let mut opened = rack.take(alloc);
    let answer = next(&mut *opened, line, master, piece, reply);
    rack.put(opened);
    set_answer(answer, count, rule, place)
}

/// Takes the next piece of a master's stream, sets its number, and copies the reply to a frame.
fn next(opened: &mut EmbeddedRack, line: u8, master: u8, piece: &mut u8, reply: &mut [u8]) -> Answer
    requires { MOST_REPLY ≤ length reply.old }
    ensures rack { opened.new ≡ (next_piece opened.old line master).rack }
    ensures piece { piece.new ≡ next_number (next_piece opened.old line master) }
    ensures answer { result ≡ next_answer (next_piece opened.old line master) }
    ensures reply { reply.new ≡ written_over (next_reply (next_piece opened.old line master)) reply.old }
{
    match opened.next(line, master) {
        Ok(Some(TakenPiece::Frame)) => {
            *piece = FRAME;
            answered(opened.answer(), reply)
        }
        Ok(Some(TakenPiece::Dropped { fault, count })) => {
            *piece = fault.code();
            dropped(count)
        }
        Ok(None) => {
            *piece = 0;
            refused(DONE)
        }
        Err(fault) => {
            *piece = 0;
            refused(u32::from(fault.code()))
        }
    }
}

/// Returns the answer to octets that are dropped.
fn dropped(count: u8) -> Answer
    ensures { result ≡ record { done = 0; count = count; rule = 0; place = 0 } }
{
    Answer {
        done: DONE,
        count: usize::from(count),
        rule: 0,
        place: 0,
    }
}
