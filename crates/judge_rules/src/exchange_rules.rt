//! The rules of Data_Exchange (IEC 61158-6-3, Data_Exchange), of the watchdog, and of retries.

ghost use Rattle.std.specs.Prelude.{◌≡◌};
ghost use Rattle.judge_rules.specs.ExchangeRules.{diag_not_read, extension_missing, is_gap, is_past, is_stray_often, length_repeated, outputs_in_clear, retry_limit, watchdog_short};

use crate::bus::Bus;
use crate::entry::Request;
use crate::station::{Last, Station};

/// How many Data_Exchanges after a DH may come before Slave_Diag.
const EXCHANGES_BEFORE_DIAG: u8 = 3;

/// How many stray octets a master may send among its last entries.
const MOST_STRAYS: u8 = 3;

/// Returns whether a Data_Exchange is refused by UE, not for the first time since the last Set_Prm that was acknowledged.
pub(crate) fn length_repeated(station: &Station, request: &Request) -> bool
    ensures { result ≡ length_repeated station.now request.now }
{
    request.asks_exchange() && request.answer.is_ue() && station.wrong_length
}

/// Returns whether a Data_Exchange whose data begin with the points of a slave and of a master is refused: by UE, or by RS
/// before the station was ready. A station that exchanges data refuses right outputs by RS if it was lost.
pub(crate) fn extension_missing(station: &Station, request: &Request) -> bool
    ensures { result ≡ extension_missing station.now request.now }
{
    request.asks_exchange()
        && request.payload.has_points
        && (request.answer.is_ue() || (request.answer.is_rs() && !station.stage.may_exchange()))
}

/// Returns whether a Data_Exchange has outputs that are not all 0, after Clear_Data to all slaves.
pub(crate) fn outputs_in_clear(bus: &Bus, request: &Request) -> bool
    ensures { result ≡ outputs_in_clear bus.now request.now }
{
    request.asks_exchange() && bus.is_clear && !request.payload.is_zero
}

/// Returns whether the fourth Data_Exchange after a DH comes, with no Slave_Diag since.
pub(crate) fn diag_not_read(station: &Station, request: &Request) -> bool
    ensures { result ≡ diag_not_read station.now request.now }
{
    match station.unread {
        Some(exchanges) => request.asks_exchange() && exchanges == EXCHANGES_BEFORE_DIAG,
        None => false,
    }
}

/// Returns whether an SRD comes after a gap as long as the watchdog of a station that has parameters, or longer. A
/// Global_Control to all stations ends a gap.
pub(crate) fn watchdog_short(bus: &Bus, station: &Station, request: &Request) -> bool
    ensures { result ≡ watchdog_short bus.now station.now request.now }
{
    request.is_srd()
        && station.stage.is_parametrized()
        && is_past(
            station.watchdog,
            bus.controlled,
            &station.last,
            request.time,
        )
}

/// Returns whether the watchdog time has passed since the last SRD, and since this time of a Global_Control.
fn is_past(watchdog: Option<u32>, controlled: u64, last: &Option<Last>, time: u64) -> bool
    ensures { result ≡ is_past watchdog controlled last.now time }
{
    match watchdog {
        Some(watchdog) => is_gap(watchdog, controlled, last, time),
        None => false,
    }
}

/// Returns whether this time has passed since the last SRD, and since this time of a Global_Control.
fn is_gap(watchdog: u32, controlled: u64, last: &Option<Last>, time: u64) -> bool
    ensures { result ≡ is_gap watchdog controlled last.now time }
{
    match last {
        Some(last) => { u64::from(watchdog) <= time.saturating_sub(last.time.max(controlled)) }
        None => false,
    }
}

/// Returns whether the request is the first retry after as many as are allowed.
pub(crate) fn retry_limit(limit: u8, bus: &Bus, request: &Request) -> bool
    ensures { result ≡ retry_limit limit bus.now request.now }
{
    bus.is_retry(request) && bus.retries == limit
}

/// Returns whether one more entry that is no request is the fourth in a window.
pub(crate) fn is_stray_often(bus: &Bus) -> bool
    ensures { result ≡ is_stray_often bus.now }
{
    bus.window.strays == MOST_STRAYS
}
