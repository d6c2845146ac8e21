//! The rules of a telegram on its own: its function, its point, and its destination.

ghost use Rattle.std.specs.Prelude.{◌≡◌};
ghost use Rattle.judge_rules.specs.TelegramRules.{broadcast_needs_reply, control_with_srd, has_no_data, has_reply, is_answered_function, is_asked_by_62, is_global_control, is_point_62, is_sda, is_unknown, octets_not_allowed, sda_not_allowed, sdn_needs_reply, source_point, unknown_point};

use crate::entry::{Request, Service};
use crate::services::MASTER_POINT;
use dp_telegram::{Function, GLOBAL_ADDRESS};

/// Returns whether an SDN, which has no reply, names the point of a service that has one.
pub(crate) fn sdn_needs_reply(request: &Request) -> bool
    ensures { result ≡ sdn_needs_reply request.now }
{
    request.function.is_sdn() && has_reply(request.service)
}

/// Returns whether a request to all stations, which has no reply, has a function with one.
pub(crate) fn broadcast_needs_reply(request: &Request) -> bool
    ensures { result ≡ broadcast_needs_reply request.now }
{
    request.address == GLOBAL_ADDRESS && is_answered_function(request.function)
}

/// Returns whether the function is SDA, which no service of DP uses.
pub(crate) fn sda_not_allowed(request: &Request) -> bool
    ensures { result ≡ sda_not_allowed request.now }
{
    is_sda(request.function)
}

/// Returns whether the function is SDA, of either priority.
fn is_sda(function: Function) -> bool
    ensures { result ≡ is_sda function }
{
    matches!(function, Function::SdaLow | Function::SdaHigh)
}

/// Returns whether an SRD or an SDN names a point that DP-V0 does not have.
pub(crate) fn unknown_point(request: &Request) -> bool
    ensures { result ≡ unknown_point request.now }
{
    (request.is_srd() || request.function.is_sdn()) && is_unknown(request.service)
}

/// Returns whether an SRD or an SDN names a point of a slave, and an SSAP other than 62, or none.
pub(crate) fn source_point(request: &Request) -> bool
    ensures { result ≡ source_point request.now }
{
    (request.is_srd() || request.function.is_sdn())
        && is_asked_by_62(request.service)
        && !is_point_62(request.ssap)
}

/// Returns whether this is the access point of a master.
fn is_point_62(ssap: Option<u8>) -> bool
    ensures { result ≡ is_point_62 ssap }
{
    match ssap {
        Some(point) => point == MASTER_POINT,
        None => false,
    }
}

/// Returns whether an SRD has data, and its service has none.
pub(crate) fn octets_not_allowed(request: &Request) -> bool
    ensures { result ≡ octets_not_allowed request.now }
{
    request.is_srd() && has_no_data(request.service) && request.payload.count != 0
}

/// Returns whether an SRD to one station names the point of Global_Control, which has no reply.
pub(crate) fn control_with_srd(request: &Request) -> bool
    ensures { result ≡ control_with_srd request.now }
{
    request.is_srd() && request.address != GLOBAL_ADDRESS && is_global_control(request.service)
}

/// Returns whether a master asks for the service from its point 62.
fn is_asked_by_62(service: Service) -> bool
    ensures { result ≡ is_asked_by_62 service }
{
    match service {
        Service::DataExchange => false,
        Service::MasterToMaster => false,
        Service::Unknown => false,
        Service::SetSlaveAdd => true,
        Service::RdInp => true,
        Service::RdOutp => true,
        Service::GlobalControl(_) => true,
        Service::GetCfg => true,
        Service::SlaveDiag => true,
        Service::SetPrm(_) => true,
        Service::ChkCfg => true,
    }
}

/// Returns whether a request for the service has no data.
fn has_no_data(service: Service) -> bool
    ensures { result ≡ has_no_data service }
{
    match service {
        Service::SlaveDiag => true,
        Service::GetCfg => true,
        Service::RdInp => true,
        Service::RdOutp => true,
        Service::DataExchange => false,
        Service::MasterToMaster => false,
        Service::SetSlaveAdd => false,
        Service::GlobalControl(_) => false,
        Service::SetPrm(_) => false,
        Service::ChkCfg => false,
        Service::Unknown => false,
    }
}

/// Returns whether the service is Global_Control.
fn is_global_control(service: Service) -> bool
    ensures { result ≡ is_global_control service }
{
    matches!(service, Service::GlobalControl(_))
}

/// Returns whether a request with this function has a reply; false for a reserved one, of which it is not known.
fn is_answered_function(function: Function) -> bool
    ensures { result ≡ is_answered_function function }
{
    match function {
        Function::SdnLow => false,
        Function::SdnHigh => false,
        Function::Reserved => false,
        Function::SdaLow => true,
        Function::SdaHigh => true,
        Function::SrdLow => true,
        Function::SrdHigh => true,
        Function::FdlStatus => true,
        Function::Ident => true,
        Function::LsapStatus => true,
    }
}

/// Returns whether each request for the service has a reply. Some of the functions between masters have none.
fn has_reply(service: Service) -> bool
    ensures { result ≡ has_reply service }
{
    match service {
        Service::GlobalControl(_) => false,
        Service::MasterToMaster => false,
        Service::Unknown => false,
        Service::DataExchange => true,
        Service::SetSlaveAdd => true,
        Service::RdInp => true,
        Service::RdOutp => true,
        Service::GetCfg => true,
        Service::SlaveDiag => true,
        Service::SetPrm(_) => true,
        Service::ChkCfg => true,
    }
}

/// Returns whether the service is none of DP-V0.
fn is_unknown(service: Service) -> bool
    ensures { result ≡ is_unknown service }
{
    matches!(service, Service::Unknown)
}
