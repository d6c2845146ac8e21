//! The table of the rules: a row of each has all that is written of it.

ghost use Rattle.std.specs.Prelude.{◌≡◌};
ghost use Rattle.judge_rules.specs.RuleNames.{rule_row, severity_name, source_name};

use crate::rule::JudgeRule;

/// How bad it is that a master breaks a rule.
#[derive(Clone, Copy, Debug, PartialEq, Eq)]
pub enum Severity {
    /// The master does what the standard rules out.
    Error,
    /// The master may be right, but what it does is unusual.
    Warning,
}

/// The part and the subject of the standard that a rule is of.
#[derive(Clone, Copy, Debug, PartialEq, Eq)]
pub(crate) enum Source {
    /// IEC 61158-4-3, frame count bit.
    FrameCountBit,
    /// IEC 61158-4-3, retry.
    Retry,
    /// IEC 61158-4-3, function code of a request.
    FunctionCode,
    /// IEC 61158-4-3, token passing.
    TokenPassing,
    /// IEC 61158-4-3, address extension.
    AddressExtension,
    /// IEC 61158-6-3, bring-up of a slave.
    BringUp,
    /// IEC 61158-6-3, Data_Exchange.
    DataExchange,
    /// IEC 61158-6-3, Set_Prm request.
    SetPrm,
    /// IEC 61158-6-3, Global_Control request.
    GlobalControl,
    /// IEC 61158-6-3, service access points.
    AccessPoints,
}

/// What is written of a rule.
#[derive(Clone, Copy)]
pub(crate) struct RuleRow {
    /// Its name, by which the command line and the findings call it.
    pub(crate) name: &'static str,
    /// How bad it is to break it.
    pub(crate) severity: Severity,
    /// The part and the subject of the standard.
    pub(crate) source: Source,
    /// What a master does that breaks it.
    pub(crate) text: &'static str,
}

impl Severity {
    /// Returns its name.
    pub const fn name(self) -> &'static str
        ensures { result.now ≡ severity_name self }
    {
        match self {
            Severity::Error => "error",
            Severity::Warning => "warning",
        }
    }
}

impl Source {
    /// Returns the part and the subject.
    pub(crate) const fn name(self) -> &'static str
        ensures { result.now ≡ source_name self }
    {
        match self {
            Source::FrameCountBit => "IEC 61158-4-3, frame count bit",
            Source::Retry => "IEC 61158-4-3, retry",
            Source::FunctionCode => "IEC 61158-4-3, function code of a request",
            Source::TokenPassing => "IEC 61158-4-3, token passing",
            Source::AddressExtension => "IEC 61158-4-3, address extension",
            Source::BringUp => "IEC 61158-6-3, bring-up of a slave",
            Source::DataExchange => "IEC 61158-6-3, Data_Exchange",
            Source::SetPrm => "IEC 61158-6-3, Set_Prm request",
            Source::GlobalControl => "IEC 61158-6-3, Global_Control request",
            Source::AccessPoints => "IEC 61158-6-3, service access points",
        }
    }
}

impl JudgeRule {
    /// Returns its row.
    pub(crate) const fn row(self) -> RuleRow
        ensures name { result.name.now ≡ (rule_row self).name }
        ensures severity { result.severity ≡ (rule_row self).severity }
        ensures source { result.source ≡ (rule_row self).source }
        ensures text { result.text.now ≡ (rule_row self).text }
    {
        match self {
            JudgeRule::FcbRepeated => RuleRow {
                name: "fcb-repeated",
                severity: Severity::Error,
                source: Source::FrameCountBit,
                text: "the FCB of the request before to this slave, with another telegram",
            },
            JudgeRule::FcbNotAlternated => RuleRow {
                name: "fcb-not-alternated",
                severity: Severity::Error,
                source: Source::FrameCountBit,
                text: "the request before to this slave again, though it was answered",
            },
            JudgeRule::FcbFirst => RuleRow {
                name: "fcb-first",
                severity: Severity::Error,
                source: Source::FrameCountBit,
                text: "FCV 1 in the first request to this slave, or after one with FCV 0 and no answer",
            },
            JudgeRule::FcvNotSet => RuleRow {
                name: "fcv-not-set",
                severity: Severity::Error,
                source: Source::FrameCountBit,
                text: "FCV 0 again, though the request before to this slave, another telegram, was answered",
            },
            JudgeRule::FcbNotAllowed => RuleRow {
                name: "fcb-not-allowed",
                severity: Severity::Error,
                source: Source::FrameCountBit,
                text: "FCB or FCV is set, and the function has neither",
            },
            JudgeRule::RetryLimit => RuleRow {
                name: "retry-limit",
                severity: Severity::Warning,
                source: Source::Retry,
                text: "one retry more than the limit allows, with no answer to any",
            },
            JudgeRule::PrmBeforeDiag => RuleRow {
                name: "prm-before-diag",
                severity: Severity::Error,
                source: Source::BringUp,
                text: "Set_Prm, though this slave never answered Slave_Diag",
            },
            JudgeRule::PrmWithoutLock => RuleRow {
                name: "prm-without-lock",
                severity: Severity::Warning,
                source: Source::BringUp,
                text: "Set_Prm without Lock_Req, though this slave needs parameters",
            },
            JudgeRule::CfgBeforePrm => RuleRow {
                name: "cfg-before-prm",
                severity: Severity::Error,
                source: Source::BringUp,
                text: "Chk_Cfg, though no Set_Prm was acknowledged since the slave needed parameters",
            },
            JudgeRule::ExchangeBeforeReady => RuleRow {
                name: "exchange-before-ready",
                severity: Severity::Error,
                source: Source::BringUp,
                text: "Data_Exchange, though the slave did not report that it is ready",
            },
            JudgeRule::ExchangeWithoutDiag => RuleRow {
                name: "exchange-without-diag",
                severity: Severity::Error,
                source: Source::BringUp,
                text: "Data_Exchange after Chk_Cfg, with no Slave_Diag between them",
            },
            JudgeRule::ExchangeAfterRs => RuleRow {
                name: "exchange-after-rs",
                severity: Severity::Error,
                source: Source::DataExchange,
                text: "Data_Exchange goes on after RS",
            },
            JudgeRule::ExchangeOfOther => RuleRow {
                name: "exchange-of-other",
                severity: Severity::Error,
                source: Source::DataExchange,
                text: "Data_Exchange, though the diagnosis showed another master",
            },
            JudgeRule::LengthRepeated => RuleRow {
                name: "length-repeated",
                severity: Severity::Error,
                source: Source::DataExchange,
                text: "a wrong length again: UE, as for an earlier Data_Exchange",
            },
            JudgeRule::DiagNotRead => RuleRow {
                name: "diag-not-read",
                severity: Severity::Error,
                source: Source::DataExchange,
                text: "the fourth Data_Exchange after DH, with no Slave_Diag since",
            },
            JudgeRule::ExtensionMissing => RuleRow {
                name: "extension-missing",
                severity: Severity::Error,
                source: Source::AddressExtension,
                text: "a refused Data_Exchange whose data begin with access points: bit 7 of DA and SA is not set",
            },
            JudgeRule::OutputsInClear => RuleRow {
                name: "outputs-in-clear",
                severity: Severity::Error,
                source: Source::GlobalControl,
                text: "outputs other than zero after Clear_Data to all slaves",
            },
            JudgeRule::PrmOfOther => RuleRow {
                name: "prm-of-other",
                severity: Severity::Error,
                source: Source::SetPrm,
                text: "Set_Prm, though the diagnosis showed another master",
            },
            JudgeRule::PrmShort => RuleRow {
                name: "prm-short",
                severity: Severity::Error,
                source: Source::SetPrm,
                text: "Set_Prm of less than seven octets",
            },
            JudgeRule::PrmReserved => RuleRow {
                name: "prm-reserved",
                severity: Severity::Error,
                source: Source::SetPrm,
                text: "a reserved bit of the first octet of Set_Prm is set",
            },
            JudgeRule::LockAndUnlock => RuleRow {
                name: "lock-and-unlock",
                severity: Severity::Warning,
                source: Source::SetPrm,
                text: "Set_Prm with Lock_Req and Unlock_Req: the slave is released",
            },
            JudgeRule::MinTsdr => RuleRow {
                name: "min-tsdr",
                severity: Severity::Error,
                source: Source::SetPrm,
                text: "min TSDR is 1 to 10, and 11 is the least",
            },
            JudgeRule::WatchdogZero => RuleRow {
                name: "watchdog-zero",
                severity: Severity::Error,
                source: Source::SetPrm,
                text: "WD_On is set, and a factor of the watchdog is 0",
            },
            JudgeRule::WatchdogShort => RuleRow {
                name: "watchdog-short",
                severity: Severity::Warning,
                source: Source::SetPrm,
                text: "no SRD to this slave for its watchdog time or longer",
            },
            JudgeRule::GroupNotSet => RuleRow {
                name: "group-not-set",
                severity: Severity::Warning,
                source: Source::GlobalControl,
                text: "no slave that the master holds has one of these groups in its parameters",
            },
            JudgeRule::ControlBoth => RuleRow {
                name: "control-both",
                severity: Severity::Warning,
                source: Source::GlobalControl,
                text: "Freeze with Unfreeze, or Sync with Unsync",
            },
            JudgeRule::ControlReserved => RuleRow {
                name: "control-reserved",
                severity: Severity::Error,
                source: Source::GlobalControl,
                text: "a reserved bit of Control_Command is set",
            },
            JudgeRule::ControlLength => RuleRow {
                name: "control-length",
                severity: Severity::Error,
                source: Source::GlobalControl,
                text: "Global_Control of other than two octets",
            },
            JudgeRule::ControlNotAsked => RuleRow {
                name: "control-not-asked",
                severity: Severity::Warning,
                source: Source::GlobalControl,
                text: "Sync or Freeze, though no Set_Prm asked for it",
            },
            JudgeRule::ControlWithSrd => RuleRow {
                name: "control-with-srd",
                severity: Severity::Error,
                source: Source::GlobalControl,
                text: "Global_Control by SRD, and it has no reply",
            },
            JudgeRule::SdnNeedsReply => RuleRow {
                name: "sdn-needs-reply",
                severity: Severity::Error,
                source: Source::FunctionCode,
                text: "SDN, which has no reply, to a service that has one",
            },
            JudgeRule::BroadcastNeedsReply => RuleRow {
                name: "broadcast-needs-reply",
                severity: Severity::Error,
                source: Source::FunctionCode,
                text: "a function with a reply, to all stations",
            },
            JudgeRule::SdaNotAllowed => RuleRow {
                name: "sda-not-allowed",
                severity: Severity::Error,
                source: Source::FunctionCode,
                text: "SDA, and the services of DP are SRD and SDN",
            },
            JudgeRule::UnknownPoint => RuleRow {
                name: "unknown-point",
                severity: Severity::Warning,
                source: Source::AccessPoints,
                text: "a point that DP-V0 does not have",
            },
            JudgeRule::SourcePoint => RuleRow {
                name: "source-point",
                severity: Severity::Error,
                source: Source::AccessPoints,
                text: "the access point of the master is not 62",
            },
            JudgeRule::OctetsNotAllowed => RuleRow {
                name: "octets-not-allowed",
                severity: Severity::Error,
                source: Source::AccessPoints,
                text: "data in a request that has none: Slave_Diag, Get_Cfg, RD_Inp or RD_Outp",
            },
            JudgeRule::TokenToSlave => RuleRow {
                name: "token-to-slave",
                severity: Severity::Error,
                source: Source::TokenPassing,
                text: "the token to a slave: the station has answered a request, and slaves take no token",
            },
            JudgeRule::NoRequest => RuleRow {
                name: "no-request",
                severity: Severity::Warning,
                source: Source::FunctionCode,
                text: "the fourth of a hundred entries that is no request of this master",
            },
        }
    }
}
