//! Reads the service that a request asks for.

ghost use Rattle.std.specs.Prelude.{◌≡◌, ◌==◌, ◌<◌, slice_index};
ghost use Rattle.std.specs.List.{list_all};
ghost use Rattle.dp_telegram.specs.FunctionCode.{is_set as is_set_of};
ghost use Rattle.judge_rules.specs.Reading.{asked_in, control_of, payload_of, has_points, has_zero_factor, parameters_in, service_of, watchdog_in};

use crate::entry::{Asked, Control, Parameters, Payload, Service};
use dp_sap::{CHK_CFG, GET_CFG, GLOBAL_CONTROL, RD_INP, RD_OUTP, SET_PRM, SLAVE_DIAG};

/// The point of the functions between masters (IEC 61158-6-3, service access points).
const MASTER_TO_MASTER: u8 = 54;

/// The point Set_Slave_Add (IEC 61158-6-3, service access points).
const SET_SLAVE_ADD: u8 = 55;

/// The access point of a master (IEC 61158-6-3, service access points).
pub(crate) const MASTER_POINT: u8 = 62;

/// The least number of octets of a Set_Prm.
const PRM_OCTETS: usize = 7;

/// Returns the service of an access point, with what the payload says.
pub(crate) fn service_of(point: Option<u8>, payload: &[u8]) -> Service
    ensures { result ≡ service_of point payload.now }
{
    match point {
        None => Service::DataExchange,
        Some(MASTER_TO_MASTER) => Service::MasterToMaster,
        Some(SET_SLAVE_ADD) => Service::SetSlaveAdd,
        Some(RD_INP) => Service::RdInp,
        Some(RD_OUTP) => Service::RdOutp,
        Some(GLOBAL_CONTROL) => {
            Service::GlobalControl(control_of(octet_at(payload, 0), octet_at(payload, 1)))
        }
        Some(GET_CFG) => Service::GetCfg,
        Some(SLAVE_DIAG) => Service::SlaveDiag,
        Some(SET_PRM) => Service::SetPrm(parameters_in(payload)),
        Some(CHK_CFG) => Service::ChkCfg,
        Some(_) => Service::Unknown,
    }
}

/// Returns the bits of Control_Command, and whether Group_Select is 0.
fn control_of(octet: u8, groups: u8) -> Control
    ensures { result ≡ control_of octet groups }
{
    Control {
        clear: is_set(1, octet),
        unfreeze: is_set(2, octet),
        freeze: is_set(3, octet),
        unsync: is_set(4, octet),
        sync: is_set(5, octet),
        reserved: is_set(0, octet) || is_set(6, octet) || is_set(7, octet),
        is_to_all_groups: groups == 0,
    }
}

/// Returns what the octets of a Set_Prm ask for.
fn parameters_in(payload: &[u8]) -> Parameters
    ensures { result ≡ parameters_in payload.now }
{
    let status = octet_at(payload, 0);
    Parameters {
        asked: asked_in(payload),
        min_tsdr: octet_at(payload, 3),
        watchdog: watchdog_in(payload),
        has_zero_factor: has_zero_factor(payload),
        freeze: is_set(4, status),
        sync: is_set(5, status),
        locks_and_unlocks: is_set(6, status) && is_set(7, status),
        reserved: is_set(0, status) || is_set(1, status) || is_set(2, status),
    }
}

/// Returns what a Set_Prm asks for, by Lock_Req and Unlock_Req.
fn asked_in(payload: &[u8]) -> Asked
    ensures { result ≡ asked_in payload.now }
{
    if payload.len() < PRM_OCTETS {
        return Asked::Short;
    }
    let status = octet_at(payload, 0);
    if is_set(6, status) {
        Asked::Unlock
    } else if is_set(7, status) {
        Asked::Lock
    } else {
        Asked::MinTsdr
    }
}

/// Returns the watchdog time, in units of 10 ms, the product of both factors; None without WD_On, or with a factor 0.
fn watchdog_in(payload: &[u8]) -> Option<u32>
    ensures { result ≡ watchdog_in payload.now }
{
    if !is_set(3, octet_at(payload, 0)) {
        return None;
    }
    let product = u32::from(octet_at(payload, 1)) * u32::from(octet_at(payload, 2));
    if product == 0 { None } else { Some(product) }
}

/// Returns whether WD_On is set, and a factor of the watchdog is 0.
fn has_zero_factor(payload: &[u8]) -> bool
    ensures { result ≡ has_zero_factor payload.now }
{
    is_set(3, octet_at(payload, 0)) && (octet_at(payload, 1) == 0 || octet_at(payload, 2) == 0)
}

/// Returns what the rules read of the octets behind the access points.
pub(crate) fn payload_of(payload: &[u8]) -> Payload
    ensures { result ≡ payload_of payload.now }
{
    Payload {
        count: payload.len(),
        is_zero: are_zero(payload),
        has_points: has_points(payload),
    }
}

/// Returns whether each octet is 0.
fn are_zero(octets: &[u8]) -> bool
    ensures { result ≡ list_all (λ octet. octet == 0) octets.now }
{
    octets.iter().all(|octet| *octet == 0)
}

/// Returns whether these octets begin with a point of a slave, 55 to 62, and the point of a master.
fn has_points(octets: &[u8]) -> bool
    ensures { result ≡ has_points octets.now }
{
    let point = octet_at(octets, 0);
    SET_SLAVE_ADD <= point && point <= CHK_CFG && octet_at(octets, 1) == MASTER_POINT
}

/// Returns the octet at this index, from 0; 0 if there are fewer octets.
pub(crate) fn octet_at(octets: &[u8], index: usize) -> u8
    ensures { result ≡ slice_index octets.now index }
{
    match octets.get(index) {
        Some(octet) => *octet,
        None => 0,
    }
}

/// Returns whether the bit of this number, 0 to 7, is 1.
pub(crate) fn is_set(number: u32, octet: u8) -> bool
    requires { number < 8 }
    ensures { result ≡ is_set_of number octet }
{
    octet >> number & 1 == 1
}
