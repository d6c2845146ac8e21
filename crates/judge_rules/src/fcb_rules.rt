//! The rules of the frame count bit (IEC 61158-4-3, frame count bit).

ghost use Rattle.std.specs.Prelude.{◌≡◌};
ghost use Rattle.judge_rules.specs.FcbRules.{counts_alike, is_counted, fcb_first, fcb_not_allowed, fcb_not_alternated, fcb_repeated, fcv_not_set, has_no_count};

use crate::bus::same_octets;
use crate::entry::Request;
use crate::station::{Last, Station};
use dp_telegram::{Function, GLOBAL_ADDRESS};

/// Returns whether the frame count bit of a request is judged: of an SRD to one station.
fn is_counted(request: &Request) -> bool
    ensures { result ≡ is_counted request.now }
{
    request.is_srd() && request.address != GLOBAL_ADDRESS
}

/// Returns whether a slave takes the request, an SRD with FCV 1, as a repeat of the last SRD: it remembers its FCB.
fn counts_alike(last: &Last, request: &Request) -> bool
    ensures { result ≡ counts_alike last.now request.now }
{
    is_counted(request) && request.fcv && (last.fcv || last.fcb) && last.fcb == request.fcb
}

/// Returns whether the FCB is that of the last SRD to the station, which was answered, and another telegram.
pub(crate) fn fcb_repeated(station: &Station, request: &Request) -> bool
    ensures { result ≡ fcb_repeated station.now request.now }
{
    match &station.last {
        Some(last) => {
            counts_alike(last, request)
                && !same_octets(last.octets.as_slice(), request.octets.as_slice())
                && last.answered
        }
        None => false,
    }
}

/// Returns whether the same SRD as the last one to the station comes again, though that was answered.
pub(crate) fn fcb_not_alternated(station: &Station, request: &Request) -> bool
    ensures { result ≡ fcb_not_alternated station.now request.now }
{
    match &station.last {
        Some(last) => {
            counts_alike(last, request)
                && same_octets(last.octets.as_slice(), request.octets.as_slice())
                && last.answered
        }
        None => false,
    }
}

/// Returns whether an SRD has FCV 1, though none to the station with FCV 0 was answered before it.
pub(crate) fn fcb_first(station: &Station, request: &Request) -> bool
    ensures { result ≡ fcb_first station.now request.now }
{
    match &station.last {
        Some(last) => is_counted(request) && request.fcv && !(last.fcv || last.answered),
        None => is_counted(request) && request.fcv,
    }
}

/// Returns whether an SRD has FCV 0, though the last one to the station, another telegram, had FCV 0 and was answered.
pub(crate) fn fcv_not_set(station: &Station, request: &Request) -> bool
    ensures { result ≡ fcv_not_set station.now request.now }
{
    match &station.last {
        Some(last) => {
            is_counted(request)
                && !request.fcv
                && !last.fcv
                && !same_octets(last.octets.as_slice(), request.octets.as_slice())
                && last.answered
        }
        None => false,
    }
}

/// Returns whether FCB or FCV is set, though the function has neither.
pub(crate) fn fcb_not_allowed(request: &Request) -> bool
    ensures { result ≡ fcb_not_allowed request.now }
{
    has_no_count(request.function) && (request.fcb || request.fcv)
}

/// Returns whether a function has no frame count.
fn has_no_count(function: Function) -> bool
    ensures { result ≡ has_no_count function }
{
    match function {
        Function::SdnLow => true,
        Function::SdnHigh => true,
        Function::FdlStatus => true,
        Function::Ident => true,
        Function::LsapStatus => true,
        Function::SdaLow => false,
        Function::SdaHigh => false,
        Function::SrdLow => false,
        Function::SrdHigh => false,
        Function::Reserved => false,
    }
}
