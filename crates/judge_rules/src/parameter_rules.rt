//! The rules of Set_Prm and of Global_Control (IEC 61158-6-3, Set_Prm request and Global_Control request).

ghost use Rattle.std.specs.Prelude.{◌≡◌};
ghost use Rattle.judge_rules.specs.Entries.{control_asked, control_in};
ghost use Rattle.judge_rules.specs.ParameterRules.{control_both, control_length, control_not_asked, control_reserved, group_not_set, has_low_min_tsdr, has_short, is_short, lock_and_unlock, min_tsdr_low, prm_of_other, prm_reserved, prm_short, watchdog_zero};

use crate::bus::Bus;
use crate::entry::{Asked, Control, Parameters, Request, Service};
use crate::stage::Stage;
use crate::station::Station;

/// The octets of a Global_Control: Control_Command and Group_Select.
const CONTROL_OCTETS: usize = 2;

/// The least min TSDR, in bit times.
const LEAST_MIN_TSDR: u8 = 11;

/// Returns whether Set_Prm is sent to a slave that the last diagnosis showed as another master's.
pub(crate) fn prm_of_other(station: &Station, request: &Request) -> bool
    ensures { result ≡ prm_of_other station.now request.now }
{
    request.asks_prm().is_some() && matches!(station.stage, Stage::Taken)
}

/// Returns whether Set_Prm has fewer than seven octets.
pub(crate) fn prm_short(request: &Request) -> bool
    ensures { result ≡ prm_short request.now }
{
    has_short(request.asks_prm())
}

fn has_short(parameters: Option<Parameters>) -> bool
    ensures { result ≡ has_short parameters }
{
    match parameters {
        Some(parameters) => is_short(parameters.asked),
        None => false,
    }
}

fn is_short(asked: Asked) -> bool
    ensures { result ≡ is_short asked }
{
    matches!(asked, Asked::Short)
}

/// Returns whether Set_Prm sets a reserved bit of its first octet.
pub(crate) fn prm_reserved(request: &Request) -> bool
    ensures { result ≡ prm_reserved request.now }
{
    match request.asks_prm() {
        Some(parameters) => parameters.reserved,
        None => false,
    }
}

/// Returns whether Set_Prm sets Lock_Req and Unlock_Req.
pub(crate) fn lock_and_unlock(request: &Request) -> bool
    ensures { result ≡ lock_and_unlock request.now }
{
    match request.asks_prm() {
        Some(parameters) => parameters.locks_and_unlocks,
        None => false,
    }
}

/// Returns whether Set_Prm sets WD_On, and a factor of the watchdog is 0.
pub(crate) fn watchdog_zero(request: &Request) -> bool
    ensures { result ≡ watchdog_zero request.now }
{
    match request.asks_prm() {
        Some(parameters) => parameters.has_zero_factor && !is_short(parameters.asked),
        None => false,
    }
}

/// Returns whether Set_Prm has a min TSDR of 1 to 10.
pub(crate) fn min_tsdr_low(request: &Request) -> bool
    ensures { result ≡ min_tsdr_low request.now }
{
    has_low_min_tsdr(request.asks_prm())
}

/// Returns whether these parameters have a min TSDR of 1 to 10.
fn has_low_min_tsdr(parameters: Option<Parameters>) -> bool
    ensures { result ≡ has_low_min_tsdr parameters }
{
    match parameters {
        Some(parameters) => parameters.min_tsdr != 0 && parameters.min_tsdr < LEAST_MIN_TSDR,
        None => false,
    }
}

/// Returns whether the groups of a Global_Control are those of no slave that its sender holds.
pub(crate) fn group_not_set(request: &Request) -> bool
    ensures { result ≡ group_not_set request.now }
{
    control_asked(request).is_some() && request.answer.is_none_selected()
}

/// Returns whether a Global_Control sets both bits of Freeze and Unfreeze, or of Sync and Unsync.
pub(crate) fn control_both(request: &Request) -> bool
    ensures { result ≡ control_both request.now }
{
    match control_asked(request) {
        Some(control) => control.freeze && control.unfreeze || control.sync && control.unsync,
        None => false,
    }
}

/// Returns whether a Global_Control sets a reserved bit.
pub(crate) fn control_reserved(request: &Request) -> bool
    ensures { result ≡ control_reserved request.now }
{
    match control_asked(request) {
        Some(control) => control.reserved,
        None => false,
    }
}

/// Returns whether a Global_Control has other than two octets.
pub(crate) fn control_length(request: &Request) -> bool
    ensures { result ≡ control_length request.now }
{
    control_asked(request).is_some() && request.payload.count != CONTROL_OCTETS
}

/// Returns whether a Global_Control has Freeze or Sync that no Set_Prm of the master asked for. Both bits of a pair change
/// nothing.
pub(crate) fn control_not_asked(bus: &Bus, request: &Request) -> bool
    ensures { result ≡ control_not_asked bus.now request.now }
{
    match control_asked(request) {
        Some(control) => {
            control.freeze && !control.unfreeze && !bus.freeze_asked
                || control.sync && !control.unsync && !bus.sync_asked
        }
        None => false,
    }
}

/// Returns the bits of a Global_Control; None if the request is no SDN to its point.
pub(crate) fn control_asked(request: &Request) -> Option<Control>
    ensures { result ≡ control_asked request.now }
{
    if request.function.is_sdn() {
        control_in(request.service)
    } else {
        None
    }
}

/// Returns the bits of a Global_Control; None for every other service.
fn control_in(service: Service) -> Option<Control>
    ensures { result ≡ control_in service }
{
    match service {
        Service::GlobalControl(control) => Some(control),
        Service::DataExchange => None,
        Service::MasterToMaster => None,
        Service::SetSlaveAdd => None,
        Service::RdInp => None,
        Service::RdOutp => None,
        Service::GetCfg => None,
        Service::SlaveDiag => None,
        Service::SetPrm(_) => None,
        Service::ChkCfg => None,
        Service::Unknown => None,
    }
}
