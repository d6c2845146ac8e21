//! Reads the entry of a master out of an event of a line and its outcome.

ghost use Rattle.std.specs.Prelude.{◌≡◌};
ghost use Rattle.dp_telegram.specs.FrameText.{frame_of};
ghost use Rattle.judge_rules.specs.Reading.{entry_of_frame, entry_of_telegram, entry_of_token, entry_read, is_passed_on, request_of};

use crate::answers::answer_of;
use crate::entry::{Entry, Request};
use crate::services::{payload_of, service_of};
use dp_line::{Event, Outcome};
use dp_telegram::{FrameLent, GLOBAL_ADDRESS, Octets, PartsLent, TelegramLent, function_code};
use explain_octets::ReadOctets;

/// The bits of an address octet that are the address (IEC 61158-4-3, address octets).
const ADDRESS_BITS: u8 = 0x7F;

/// Returns the master of an event and its entry; None for an event of the operator. `time` is the sum of the ticks before
/// the event, in units of 10 ms.
pub fn entry_read(event: &Event, outcome: &Outcome, time: u64) -> Option<(u8, Entry)>
    ensures { result ≡ entry_read event.now outcome.now time }
{
    match event {
        Event::Request { master, octets } => {
            Some((*master, entry_of_octets(*master, octets, outcome, time)))
        }
        Event::Operator(_) => None,
    }
}

/// Returns the entry of these octets of a master.
fn entry_of_octets(master: u8, octets: &Octets, outcome: &Outcome, time: u64) -> Entry
    ensures { result ≡ entry_of_frame master octets.now outcome.now time (frame_of octets.now.items) }
{
    let read = ReadOctets::new(octets.as_slice());
    match read.frame() {
        Some(FrameLent::Telegram(telegram)) => {
            entry_of_telegram(master, octets, outcome, time, &telegram)
        }
        Some(FrameLent::Token { da, sa }) => entry_of_token(master, da, sa),
        Some(FrameLent::Ack) => Entry::Stray,
        None => Entry::Stray,
    }
}

/// Returns the entry of a token of a master with these octets as DA and SA.
fn entry_of_token(master: u8, da: u8, sa: u8) -> Entry
    ensures { result ≡ entry_of_token master da sa }
{
    if is_passed_on(master, da, sa) {
        Entry::PassedToken(da & ADDRESS_BITS)
    } else {
        Entry::Stray
    }
}

/// Returns whether the source of a token is the master, and its destination a station, also the master itself.
fn is_passed_on(master: u8, da: u8, sa: u8) -> bool
    ensures { result ≡ is_passed_on master da sa }
{
    sa & ADDRESS_BITS == master && da & ADDRESS_BITS < GLOBAL_ADDRESS
}

/// Returns the entry of a telegram of a master.
fn entry_of_telegram(
    master: u8,
    octets: &Octets,
    outcome: &Outcome,
    time: u64,
    telegram: &TelegramLent<'_>,
) -> Entry
    ensures { result ≡ entry_of_telegram master octets.now outcome.now time telegram.now }
{
    if !telegram.is_request() || telegram.source() != master {
        return Entry::Stray;
    }
    match telegram.parts() {
        Some(parts) => Entry::Request(request_of(master, octets, outcome, time, telegram, &parts)),
        None => Entry::Stray,
    }
}

/// Returns the request of a telegram with these parts.
fn request_of(
    master: u8,
    octets: &Octets,
    outcome: &Outcome,
    time: u64,
    telegram: &TelegramLent<'_>,
    parts: &PartsLent<'_>,
) -> Request
    ensures { result ≡ request_of master octets.now outcome.now time telegram.now parts.now }
{
    let service = service_of(parts.dsap(), parts.payload());
    Request {
        address: telegram.destination(),
        function: telegram.function(),
        fcb: function_code::fcb(telegram.fc()),
        fcv: function_code::fcv(telegram.fc()),
        service,
        ssap: parts.ssap(),
        payload: payload_of(parts.payload()),
        octets: octets.clone().unwrap(),
        time,
        answer: answer_of(master, service, outcome),
    }
}
