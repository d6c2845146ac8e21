//! Explains entries for C.

ghost use Rattle.std.specs.Prelude.{◌≡◌, IfSome};
ghost use Rattle.rackd_library.specs.Held.{IsOpen};
ghost use Rattle.rackd_library.specs.Why.{IsWhy, reason_fault_number, why_answer};

use crate::facts::{Facts, blank_facts, facts_of_entry};
use crate::handle::{Handle, OUT_OF_MEMORY};
use crate::text_out::copy_text;
use embedded_rack::{CallFault, EntryReason, ReasonFault};
use std::alloc::Global;

/// Gives the reason for the outcome of the entry at a place of the journal of a line: copies the sentence that
/// `rackd explain` writes of it, and sets `count` to the number of its octets, and `facts` to its facts. Returns 0, the
/// number of a fault, or `SHORT_ROOM` if there is no room for the sentence; then the facts are set.
#[unsafe(no_mangle)]
pub extern "C" fn rackd_why(
    alloc: Global,
    rack: &mut Handle,
    line: u8,
    place: u32,
    sentence: &mut [u8],
    count: &mut usize,
    facts: &mut Facts,
) -> u32
    requires open { IsOpen rack.old.rack }
    ensures rack { rack.new.rack ≡ rack.old.rack }
    ensures why { IfSome rack.old.rack (λ opened. IsWhy opened line place sentence.old (record { done = result; count = count.new; facts = facts.new; room = sentence.new })) }
{
    let opened = rack.take(alloc);
    let mut text = Vec::new(alloc);
    let explained = opened.explain(alloc, line, place, &mut text);
    rack.put(opened);
    set_reason(explained, text.as_slice(), sentence, count, facts)
}

/// Copies the sentence of a reason, and sets its facts.
fn set_reason(
    explained: Result<EntryReason, ReasonFault>,
    text: &[u8],
    sentence: &mut [u8],
    count: &mut usize,
    facts: &mut Facts,
) -> u32
    ensures { record { done = result; count = count.new; facts = facts.new; room = sentence.new } ≡ why_answer explained text.now sentence.old }
{
    match explained {
        Ok(reason) => {
            *facts = facts_of_entry(reason);
            copy_text(text, sentence, count)
        }
        Err(fault) => {
            *facts = blank_facts(0);
            *count = 0;
            number_of(fault)
        }
    }
}

/// Returns the number of a fault.
fn number_of(fault: ReasonFault) -> u32
    ensures { result ≡ reason_fault_number fault }
{
    match fault {
        ReasonFault::NoLine => u32::from(CallFault::NoLine.code()),
        ReasonFault::NoEntry => u32::from(CallFault::NoEntry.code()),
        ReasonFault::OutOfMemory => OUT_OF_MEMORY,
    }
}
