//! The rules that a master is judged by.

ghost use Rattle.std.specs.Prelude.{◌≡◌, ◌<◌};
ghost use Rattle.judge_rules.specs.RuleNames.{rule_name, rule_number, rule_severity, rule_subject, rule_text};

use crate::rule_rows::Severity;

/// The number of rules.
pub const RULES: usize = 38;

/// A rule that a master is judged by. Its row has its name, its severity, its source, and what it says.
#[derive(Clone, Copy, Debug, PartialEq, Eq)]
pub enum JudgeRule {
    /// `fcb-repeated`.
    FcbRepeated,
    /// `fcb-not-alternated`.
    FcbNotAlternated,
    /// `fcb-first`.
    FcbFirst,
    /// `fcv-not-set`.
    FcvNotSet,
    /// `fcb-not-allowed`.
    FcbNotAllowed,
    /// `retry-limit`.
    RetryLimit,
    /// `prm-before-diag`.
    PrmBeforeDiag,
    /// `prm-without-lock`.
    PrmWithoutLock,
    /// `cfg-before-prm`.
    CfgBeforePrm,
    /// `exchange-before-ready`.
    ExchangeBeforeReady,
    /// `exchange-without-diag`.
    ExchangeWithoutDiag,
    /// `exchange-after-rs`.
    ExchangeAfterRs,
    /// `exchange-of-other`.
    ExchangeOfOther,
    /// `length-repeated`.
    LengthRepeated,
    /// `diag-not-read`.
    DiagNotRead,
    /// `extension-missing`.
    ExtensionMissing,
    /// `outputs-in-clear`.
    OutputsInClear,
    /// `prm-of-other`.
    PrmOfOther,
    /// `prm-short`.
    PrmShort,
    /// `prm-reserved`.
    PrmReserved,
    /// `lock-and-unlock`.
    LockAndUnlock,
    /// `min-tsdr`.
    MinTsdr,
    /// `watchdog-zero`.
    WatchdogZero,
    /// `watchdog-short`.
    WatchdogShort,
    /// `group-not-set`.
    GroupNotSet,
    /// `control-both`.
    ControlBoth,
    /// `control-reserved`.
    ControlReserved,
    /// `control-length`.
    ControlLength,
    /// `control-not-asked`.
    ControlNotAsked,
    /// `control-with-srd`.
    ControlWithSrd,
    /// `sdn-needs-reply`.
    SdnNeedsReply,
    /// `broadcast-needs-reply`.
    BroadcastNeedsReply,
    /// `sda-not-allowed`.
    SdaNotAllowed,
    /// `unknown-point`.
    UnknownPoint,
    /// `source-point`.
    SourcePoint,
    /// `octets-not-allowed`.
    OctetsNotAllowed,
    /// `token-to-slave`.
    TokenToSlave,
    /// `no-request`.
    NoRequest,
}

impl JudgeRule {
    /// All rules, in the order in which an entry is judged.
    pub const ALL: [JudgeRule; RULES] = [
        JudgeRule::FcbRepeated,
        JudgeRule::FcbNotAlternated,
        JudgeRule::FcbFirst,
        JudgeRule::FcvNotSet,
        JudgeRule::FcbNotAllowed,
        JudgeRule::RetryLimit,
        JudgeRule::PrmBeforeDiag,
        JudgeRule::PrmWithoutLock,
        JudgeRule::CfgBeforePrm,
        JudgeRule::ExchangeBeforeReady,
        JudgeRule::ExchangeWithoutDiag,
        JudgeRule::ExchangeAfterRs,
        JudgeRule::ExchangeOfOther,
        JudgeRule::LengthRepeated,
        JudgeRule::DiagNotRead,
        JudgeRule::ExtensionMissing,
        JudgeRule::OutputsInClear,
        JudgeRule::PrmOfOther,
        JudgeRule::PrmShort,
        JudgeRule::PrmReserved,
        JudgeRule::LockAndUnlock,
        JudgeRule::MinTsdr,
        JudgeRule::WatchdogZero,
        JudgeRule::WatchdogShort,
        JudgeRule::GroupNotSet,
        JudgeRule::ControlBoth,
        JudgeRule::ControlReserved,
        JudgeRule::ControlLength,
        JudgeRule::ControlNotAsked,
        JudgeRule::ControlWithSrd,
        JudgeRule::SdnNeedsReply,
        JudgeRule::BroadcastNeedsReply,
        JudgeRule::SdaNotAllowed,
        JudgeRule::UnknownPoint,
        JudgeRule::SourcePoint,
        JudgeRule::OctetsNotAllowed,
        JudgeRule::TokenToSlave,
        JudgeRule::NoRequest,
    ];

    /// Returns its number, from 0: its index in [`JudgeRule::ALL`].
    pub const fn number(self) -> usize
        ensures number { result ≡ rule_number self }
        ensures few { result < RULES }
    {
        self as usize
    }

    /// Returns its name.
    pub const fn name(self) -> &'static str
        ensures { result.now ≡ rule_name self }
    {
        self.row().name
    }

    /// Returns how bad it is to break it.
    pub const fn severity(self) -> Severity
        ensures { result ≡ rule_severity self }
    {
        self.row().severity
    }

    /// Returns the part and the subject of the standard.
    pub const fn subject(self) -> &'static str
        ensures { result.now ≡ rule_subject self }
    {
        self.row().source.name()
    }

    /// Returns what a master does that breaks it.
    pub const fn text(self) -> &'static str
        ensures { result.now ≡ rule_text self }
    {
        self.row().text
    }
}
