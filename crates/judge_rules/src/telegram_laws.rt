//! Laws of the rules that judge a telegram on its own: each is the contract of an empty function.

ghost use Rattle.std.specs.Prelude.{◌≡◌, ◌==◌, ◌≤◌, ◌&&◌, ◌||◌, not, ◌++◌, ◌∷◌, ℕ, true, false, List, None, Some};
ghost use Rattle.std.specs.List.{list_all};
ghost use Rattle.dp_telegram.specs.Access.{global_address};
ghost use Rattle.dp_telegram.specs.declared.function_code.Function.TheVariants as functions;
ghost use Rattle.dp_telegram.specs.FunctionCode.{asks_sdn};
ghost use Rattle.judge_rules.specs.declared.entry.Control.{Control};
ghost use Rattle.judge_rules.specs.declared.entry.Entry.{Entry};
ghost use Rattle.judge_rules.specs.declared.entry.Entry.TheVariants as entries;
ghost use Rattle.judge_rules.specs.declared.entry.Parameters.{Parameters};
ghost use Rattle.judge_rules.specs.declared.entry.Request.{Request};
ghost use Rattle.judge_rules.specs.declared.entry.Service.TheVariants as services;
ghost use Rattle.judge_rules.specs.declared.rule.JudgeRule.{JudgeRule};
ghost use Rattle.judge_rules.specs.declared.rule.JudgeRule.TheVariants as rules;
ghost use Rattle.judge_rules.specs.Entries.{control_asked, is_answered, is_none_selected, is_srd, prm_asked};
ghost use Rattle.judge_rules.specs.LawWords.{is_of_the_telegram};
ghost use Rattle.judge_rules.specs.TelegramRules.{has_reply, is_answered_function};
ghost use Rattle.judge_rules.specs.TokenRules.{is_answered_by};
ghost use Rattle.judge_rules.specs.Rules.{breaks};

/// Whether a request breaks one of these rules depends neither on the entries before it nor on the number of
/// retries that are allowed.
pub fn what_lies_before_a_telegram_does_not_matter()
    ensures { (limit other : ℕ) (past before : List Entry) (request : Request) (rule : JudgeRule)
        → is_of_the_telegram rule ≡ true
        → breaks limit past (entries.Request request) rule ≡ breaks other before (entries.Request request) rule }
{}

/// A token that is passed on breaks no rule but `token-to-slave`, and octets that are no request break no rule but
/// `no-request`. No request breaks one of these two.
pub fn only_requests_break_the_other_rules()
    ensures token { (limit to : ℕ) (past : List Entry) (rule : JudgeRule)
        → breaks limit past (entries.PassedToken to) rule ≡ true
        → rule ≡ rules.TokenToSlave }
    ensures stray { (limit : ℕ) (past : List Entry) (rule : JudgeRule)
        → breaks limit past entries.Stray rule ≡ true
        → rule ≡ rules.NoRequest }
    ensures request { (limit : ℕ) (past : List Entry) (request : Request)
        → breaks limit past (entries.Request request) rules.NoRequest ≡ false }
    ensures no_token { (limit : ℕ) (past : List Entry) (request : Request)
        → breaks limit past (entries.Request request) rules.TokenToSlave ≡ false }
{}

/// `token-to-slave`: a token that is passed on is reported exactly if the station that it is passed to is a slave:
/// it answered a request of the master, which no other master of a rack does.
pub fn the_token_goes_to_no_slave()
    ensures slave { (limit : ℕ) (front back : List Entry) (request : Request)
        → is_answered request.answer ≡ true
        → breaks limit (front ++ entries.Request request ∷ back) (entries.PassedToken request.address) rules.TokenToSlave ≡ true }
    ensures other { (limit to : ℕ) (past : List Entry)
        → list_all (λ entry. not (is_answered_by to entry)) past ≡ true
        → breaks limit past (entries.PassedToken to) rules.TokenToSlave ≡ false }
{}

/// `sda-not-allowed`: a request is reported exactly if its function is SDA, of low or high priority.
pub fn dp_uses_no_sda()
    ensures low { (limit : ℕ) (past : List Entry) (request : Request)
        → request.function ≡ functions.SdaLow
        → breaks limit past (entries.Request request) rules.SdaNotAllowed ≡ true }
    ensures high { (limit : ℕ) (past : List Entry) (request : Request)
        → request.function ≡ functions.SdaHigh
        → breaks limit past (entries.Request request) rules.SdaNotAllowed ≡ true }
    ensures srd { (limit : ℕ) (past : List Entry) (request : Request)
        → is_srd request ≡ true
        → breaks limit past (entries.Request request) rules.SdaNotAllowed ≡ false }
    ensures sdn { (limit : ℕ) (past : List Entry) (request : Request)
        → asks_sdn request.function ≡ true
        → breaks limit past (entries.Request request) rules.SdaNotAllowed ≡ false }
    ensures status { (limit : ℕ) (past : List Entry) (request : Request)
        → request.function ≡ functions.FdlStatus
        → breaks limit past (entries.Request request) rules.SdaNotAllowed ≡ false }
{}

/// `fcb-not-allowed`: an SDN, and a request for the FDL status, the ident or the LSAP status, is reported exactly if
/// FCB or FCV is set. An SRD is never reported.
pub fn only_an_acknowledged_function_has_a_frame_count_bit()
    ensures sdn { (limit : ℕ) (past : List Entry) (request : Request)
        → asks_sdn request.function ≡ true
        → breaks limit past (entries.Request request) rules.FcbNotAllowed ≡ (request.fcb || request.fcv) }
    ensures status { (limit : ℕ) (past : List Entry) (request : Request)
        → request.function ≡ functions.FdlStatus
        → breaks limit past (entries.Request request) rules.FcbNotAllowed ≡ (request.fcb || request.fcv) }
    ensures ident { (limit : ℕ) (past : List Entry) (request : Request)
        → request.function ≡ functions.Ident
        → breaks limit past (entries.Request request) rules.FcbNotAllowed ≡ (request.fcb || request.fcv) }
    ensures points { (limit : ℕ) (past : List Entry) (request : Request)
        → request.function ≡ functions.LsapStatus
        → breaks limit past (entries.Request request) rules.FcbNotAllowed ≡ (request.fcb || request.fcv) }
    ensures srd { (limit : ℕ) (past : List Entry) (request : Request)
        → is_srd request ≡ true
        → breaks limit past (entries.Request request) rules.FcbNotAllowed ≡ false }
{}

/// `min-tsdr`: a Set_Prm to one station, which was not taken as a repeat, is reported exactly if its min TSDR is 1 to
/// 10 bit times. No other request is reported.
pub fn min_tsdr_is_0_or_at_least_11()
    ensures low { (limit : ℕ) (past : List Entry) (request : Request) (parameters : Parameters)
        → prm_asked request ≡ Some parameters
        → 1 ≤ parameters.min_tsdr
        → parameters.min_tsdr ≤ 10
        → breaks limit past (entries.Request request) rules.MinTsdr ≡ true }
    ensures zero { (limit : ℕ) (past : List Entry) (request : Request) (parameters : Parameters)
        → prm_asked request ≡ Some parameters
        → parameters.min_tsdr ≡ 0
        → breaks limit past (entries.Request request) rules.MinTsdr ≡ false }
    ensures high { (limit : ℕ) (past : List Entry) (request : Request) (parameters : Parameters)
        → prm_asked request ≡ Some parameters
        → 11 ≤ parameters.min_tsdr
        → breaks limit past (entries.Request request) rules.MinTsdr ≡ false }
    ensures other { (limit : ℕ) (past : List Entry) (request : Request)
        → prm_asked request ≡ None
        → breaks limit past (entries.Request request) rules.MinTsdr ≡ false }
{}

/// A Global_Control, an SDN to point 58, is reported as `control-both` exactly if it has Freeze and Unfreeze, or Sync
/// and Unsync; as `control-reserved` exactly if a reserved bit is set; and as `group-not-set` exactly if its sender
/// holds a slave, and none that it holds is in one of the groups that are selected. No other request breaks these
/// rules.
pub fn a_global_control_is_judged_by_its_bits_and_groups()
    ensures both { (limit : ℕ) (past : List Entry) (request : Request) (control : Control)
        → control_asked request ≡ Some control
        → breaks limit past (entries.Request request) rules.ControlBoth
        ≡ (control.freeze && control.unfreeze || control.sync && control.unsync) }
    ensures reserved { (limit : ℕ) (past : List Entry) (request : Request) (control : Control)
        → control_asked request ≡ Some control
        → breaks limit past (entries.Request request) rules.ControlReserved ≡ control.reserved }
    ensures group { (limit : ℕ) (past : List Entry) (request : Request) (control : Control)
        → control_asked request ≡ Some control
        → breaks limit past (entries.Request request) rules.GroupNotSet ≡ is_none_selected request.answer }
    ensures not_both { (limit : ℕ) (past : List Entry) (request : Request)
        → control_asked request ≡ None
        → breaks limit past (entries.Request request) rules.ControlBoth ≡ false }
    ensures not_reserved { (limit : ℕ) (past : List Entry) (request : Request)
        → control_asked request ≡ None
        → breaks limit past (entries.Request request) rules.ControlReserved ≡ false }
    ensures no_group { (limit : ℕ) (past : List Entry) (request : Request)
        → control_asked request ≡ None
        → breaks limit past (entries.Request request) rules.GroupNotSet ≡ false }
{}

/// `sdn-needs-reply`: an SDN is reported exactly if the service of its point has a reply. `broadcast-needs-reply`: a
/// request to all stations is reported exactly if its function has a reply. No other request breaks these rules.
pub fn what_has_a_reply_is_asked_of_one_station_with_srd()
    ensures sdn { (limit : ℕ) (past : List Entry) (request : Request)
        → asks_sdn request.function ≡ true
        → breaks limit past (entries.Request request) rules.SdnNeedsReply ≡ has_reply request.service }
    ensures no_sdn { (limit : ℕ) (past : List Entry) (request : Request)
        → asks_sdn request.function ≡ false
        → breaks limit past (entries.Request request) rules.SdnNeedsReply ≡ false }
    ensures all { (limit : ℕ) (past : List Entry) (request : Request)
        → (request.address == global_address) ≡ true
        → breaks limit past (entries.Request request) rules.BroadcastNeedsReply
        ≡ is_answered_function request.function }
    ensures one { (limit : ℕ) (past : List Entry) (request : Request)
        → (request.address == global_address) ≡ false
        → breaks limit past (entries.Request request) rules.BroadcastNeedsReply ≡ false }
{}

/// `unknown-point`: an SRD or an SDN is reported exactly if DP-V0 does not have its point. No other request is
/// reported.
pub fn a_point_of_dp_v0_is_known()
    ensures unknown { (limit : ℕ) (past : List Entry) (request : Request)
        → (is_srd request || asks_sdn request.function) ≡ true
        → request.service ≡ services.Unknown
        → breaks limit past (entries.Request request) rules.UnknownPoint ≡ true }
    ensures only { (limit : ℕ) (past : List Entry) (request : Request)
        → breaks limit past (entries.Request request) rules.UnknownPoint ≡ true
        → request.service ≡ services.Unknown }
    ensures other { (limit : ℕ) (past : List Entry) (request : Request)
        → (is_srd request || asks_sdn request.function) ≡ false
        → breaks limit past (entries.Request request) rules.UnknownPoint ≡ false }
{}
