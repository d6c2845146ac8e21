//! Which rules an entry breaks, by what the entries before it left.

ghost use Rattle.std.specs.Prelude.{◌≡◌};
ghost use Rattle.judge_rules.specs.Rules.{broken_by, broken_by_stray};
ghost use Rattle.judge_rules.specs.TokenRules.{broken_by_token};

use crate::bring_up_rules::{
    cfg_before_prm, exchange_after_rs, exchange_before_ready, exchange_of_other,
    exchange_without_diag, prm_before_diag, prm_without_lock,
};
use crate::bus::Bus;
use crate::entry::Request;
use crate::exchange_rules::{
    diag_not_read, extension_missing, is_stray_often, length_repeated, outputs_in_clear,
    retry_limit, watchdog_short,
};
use crate::fcb_rules::{fcb_first, fcb_not_allowed, fcb_not_alternated, fcb_repeated, fcv_not_set};
use crate::parameter_rules::{
    control_both, control_length, control_not_asked, control_reserved, group_not_set,
    lock_and_unlock, min_tsdr_low, prm_of_other, prm_reserved, prm_short, watchdog_zero,
};
use crate::rule::JudgeRule;
use crate::station::Station;
use crate::telegram_rules::{
    broadcast_needs_reply, control_with_srd, octets_not_allowed, sda_not_allowed, sdn_needs_reply,
    source_point, unknown_point,
};

/// Returns whether a request breaks the rule, by what the entries before it left.
pub(crate) fn broken_by(
    limit: u8,
    bus: &Bus,
    station: &Station,
    request: &Request,
    rule: JudgeRule,
) -> bool
    ensures { result ≡ broken_by limit bus.now station.now request.now rule }
{
    match rule {
        JudgeRule::FcbRepeated => fcb_repeated(station, request),
        JudgeRule::FcbNotAlternated => fcb_not_alternated(station, request),
        JudgeRule::FcbFirst => fcb_first(station, request),
        JudgeRule::FcvNotSet => fcv_not_set(station, request),
        JudgeRule::FcbNotAllowed => fcb_not_allowed(request),
        JudgeRule::RetryLimit => retry_limit(limit, bus, request),
        JudgeRule::PrmBeforeDiag => prm_before_diag(station, request),
        JudgeRule::PrmWithoutLock => prm_without_lock(station, request),
        JudgeRule::CfgBeforePrm => cfg_before_prm(station, request),
        JudgeRule::ExchangeBeforeReady => exchange_before_ready(station, request),
        JudgeRule::ExchangeWithoutDiag => exchange_without_diag(station, request),
        JudgeRule::ExchangeAfterRs => exchange_after_rs(station, request),
        JudgeRule::ExchangeOfOther => exchange_of_other(station, request),
        JudgeRule::LengthRepeated => length_repeated(station, request),
        JudgeRule::DiagNotRead => diag_not_read(station, request),
        JudgeRule::ExtensionMissing => extension_missing(station, request),
        JudgeRule::OutputsInClear => outputs_in_clear(bus, request),
        JudgeRule::PrmOfOther => prm_of_other(station, request),
        JudgeRule::PrmShort => prm_short(request),
        JudgeRule::PrmReserved => prm_reserved(request),
        JudgeRule::LockAndUnlock => lock_and_unlock(request),
        JudgeRule::MinTsdr => min_tsdr_low(request),
        JudgeRule::WatchdogZero => watchdog_zero(request),
        JudgeRule::WatchdogShort => watchdog_short(bus, station, request),
        JudgeRule::GroupNotSet => group_not_set(request),
        JudgeRule::ControlBoth => control_both(request),
        JudgeRule::ControlReserved => control_reserved(request),
        JudgeRule::ControlLength => control_length(request),
        JudgeRule::ControlNotAsked => control_not_asked(bus, request),
        JudgeRule::ControlWithSrd => control_with_srd(request),
        JudgeRule::SdnNeedsReply => sdn_needs_reply(request),
        JudgeRule::BroadcastNeedsReply => broadcast_needs_reply(request),
        JudgeRule::SdaNotAllowed => sda_not_allowed(request),
        JudgeRule::UnknownPoint => unknown_point(request),
        JudgeRule::SourcePoint => source_point(request),
        JudgeRule::OctetsNotAllowed => octets_not_allowed(request),
        JudgeRule::TokenToSlave => false,
        JudgeRule::NoRequest => false,
    }
}

/// Returns whether a token that is passed on to the station breaks the rule, by what the entries before it left.
pub(crate) fn broken_by_token(station: &Station, rule: JudgeRule) -> bool
    ensures { result ≡ broken_by_token station.now.has_answered rule }
{
    matches!(rule, JudgeRule::TokenToSlave) && station.has_answered
}

/// Returns whether octets that are no request break the rule, by what the entries before them left.
pub(crate) fn broken_by_stray(bus: &Bus, rule: JudgeRule) -> bool
    ensures { result ≡ broken_by_stray bus.now rule }
{
    matches!(rule, JudgeRule::NoRequest) && is_stray_often(bus)
}
