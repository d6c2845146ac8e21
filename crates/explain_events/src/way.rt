//! The ways in which a request is answered.

ghost use Rattle.std.specs.Prelude.{◌≡◌};
ghost use Rattle.explain_events.specs.Ways.{is_fault_rule, is_fault_way, is_judged_afterwards, way_name};

use dp_responder::Rule;

/// The way in which a request was answered: its rule, or what is known beyond the rule (own).
#[derive(Clone, Copy)]
pub enum Answered {
    /// By this rule, about which nothing more is known. It is never Repeat.
    ByRule(Rule),
    /// By NoStation: an FDL status request to an address that no slave has.
    LiveListPoll,
    /// By Repeat: it has the octets of the request whose reply it got, or this request is not known.
    Retry,
    /// By Repeat: it has other octets than the request whose reply it got.
    OtherRepeat,
    /// By Done: a Set_Prm with wrong parameters.
    WrongSetPrm,
    /// By Done: a Chk_Cfg with a wrong configuration.
    WrongChkCfg,
    /// By Done: a Global_Control with a Sync or a Freeze for which the parameters of the slave did not ask.
    NotAskedFor,
    /// By NotSelected: a Global_Control whose group selects no slave that it reached.
    NoneSelected,
}

impl Answered {
    /// Returns whether the way shows a fault of the bus (own).
    pub fn is_fault(self) -> bool
        ensures { result ≡ is_fault_way self }
    {
        match self {
            Answered::ByRule(rule) => is_fault_rule(rule),
            Answered::LiveListPoll => false,
            Answered::Retry => false,
            Answered::OtherRepeat => true,
            Answered::WrongSetPrm => true,
            Answered::WrongChkCfg => true,
            Answered::NotAskedFor => true,
            Answered::NoneSelected => true,
        }
    }

    /// Returns whether the slave replied before it found the request wrong.
    pub fn is_judged_afterwards(self) -> bool
        ensures { result ≡ is_judged_afterwards self }
    {
        match self {
            Answered::WrongSetPrm => true,
            Answered::WrongChkCfg => true,
            Answered::ByRule(_) => false,
            Answered::LiveListPoll => false,
            Answered::Retry => false,
            Answered::OtherRepeat => false,
            Answered::NotAskedFor => false,
            Answered::NoneSelected => false,
        }
    }

    /// Returns its name in a table.
    pub fn name(self) -> &'static str
        ensures { result.now ≡ way_name self }
    {
        match self {
            Answered::ByRule(rule) => rule.name(),
            Answered::LiveListPoll => "live-list poll",
            Answered::Retry => "Repeat (retry)",
            Answered::OtherRepeat => "Repeat (other)",
            Answered::WrongSetPrm => "wrong Set_Prm",
            Answered::WrongChkCfg => "wrong Chk_Cfg",
            Answered::NotAskedFor => "not asked for",
            Answered::NoneSelected => "none selected",
        }
    }
}

/// Returns whether the rule alone shows a fault of the bus (own).
pub(crate) fn is_fault_rule(rule: Rule) -> bool
    ensures { result ≡ is_fault_rule rule }
{
    match rule {
        Rule::Token | Rule::Status | Rule::Repeat | Rule::NotSelected | Rule::Done => false,
        Rule::Halted
        | Rule::NoFrame
        | Rule::NoMaster
        | Rule::ForeignSender
        | Rule::NotRequest
        | Rule::BadFunction
        | Rule::BadExtension
        | Rule::BadBroadcast
        | Rule::NoStation
        | Rule::NoService
        | Rule::NotActive
        | Rule::NotHolder
        | Rule::NotListed
        | Rule::Busy
        | Rule::Length => true,
    }
}
