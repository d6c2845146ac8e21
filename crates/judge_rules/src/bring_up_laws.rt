//! Laws of the rules of the bring-up: each is the contract of an empty function.

ghost use Rattle.std.specs.Prelude.{◌≡◌, ◌++◌, ◌∷◌, ◌&&◌, ◌||◌, ℕ, true, false, List, Some};
ghost use Rattle.judge_rules.specs.declared.entry.Asked.TheVariants as asks;
ghost use Rattle.judge_rules.specs.declared.entry.Entry.{Entry};
ghost use Rattle.judge_rules.specs.declared.entry.Entry.TheVariants as entries;
ghost use Rattle.judge_rules.specs.declared.entry.Parameters.{Parameters};
ghost use Rattle.judge_rules.specs.declared.entry.Request.{Request};
ghost use Rattle.judge_rules.specs.declared.entry.Answer.TheVariants as answers;
ghost use Rattle.judge_rules.specs.declared.rule.JudgeRule.{JudgeRule};
ghost use Rattle.judge_rules.specs.declared.rule.JudgeRule.TheVariants as rules;
ghost use Rattle.judge_rules.specs.BringUpRules.{is_without_lock};
ghost use Rattle.judge_rules.specs.LawWords.{is_of_a_service, is_of_a_station, is_of_the_bring_up};
ghost use Rattle.judge_rules.specs.Effects.{asks_prm, changes_parameters, configures, effect, ends_readiness, exchanges, gives_parameters, goes_on, goes_on_or_is_ready, have_no_effect, is_configured_by, is_request_to, is_refused, may_lose_parameters, refuses, shows_any, shows_or_refuses, shows_other, shows_own, shows_ready, shows_state, shows_unready, starts, starts_again, takes_parameters};
ghost use Rattle.judge_rules.specs.Entries.{chk_cfg_asked, exchange_asked, prm_asked};
ghost use Rattle.judge_rules.specs.Rules.{breaks};

/// `prm-before-diag`: a Set_Prm to a station is reported exactly if before it no Slave_Diag of the station was
/// answered, no Set_Prm to it was acknowledged that locks or releases, and no Data_Exchange with it was answered with
/// data.
pub fn set_prm_needs_a_reply_before()
    ensures none { (limit : ℕ) (past : List Entry) (request : Request)
        → have_no_effect shows_state request.address past ≡ true
        → breaks limit past (entries.Request request) rules.PrmBeforeDiag ≡ asks_prm request }
    ensures some { (limit : ℕ) (front back : List Entry) (before request : Request)
        → before.address ≡ request.address
        → shows_state (effect before) ≡ true
        → breaks limit (front ++ entries.Request before ∷ back) (entries.Request request) rules.PrmBeforeDiag ≡ false }
{}

/// `exchange-of-other` and `prm-of-other`: of the requests to the station that show its state, let this be the last
/// one. A Data_Exchange or a Set_Prm is reported exactly if that one is a Slave_Diag that shows another master. If
/// there is none, neither is reported.
pub fn the_last_reply_shows_whose_the_station_is()
    ensures exchange { (limit : ℕ) (front back : List Entry) (before request : Request)
        → before.address ≡ request.address
        → shows_state (effect before) ≡ true
        → have_no_effect shows_state request.address back ≡ true
        → breaks limit (front ++ entries.Request before ∷ back) (entries.Request request) rules.ExchangeOfOther
        ≡ (exchange_asked request && shows_other (effect before)) }
    ensures prm { (limit : ℕ) (front back : List Entry) (before request : Request)
        → before.address ≡ request.address
        → shows_state (effect before) ≡ true
        → have_no_effect shows_state request.address back ≡ true
        → breaks limit (front ++ entries.Request before ∷ back) (entries.Request request) rules.PrmOfOther
        ≡ (asks_prm request && shows_other (effect before)) }
    ensures no_exchange { (limit : ℕ) (past : List Entry) (request : Request)
        → have_no_effect shows_state request.address past ≡ true
        → breaks limit past (entries.Request request) rules.ExchangeOfOther ≡ false }
    ensures no_prm { (limit : ℕ) (past : List Entry) (request : Request)
        → have_no_effect shows_state request.address past ≡ true
        → breaks limit past (entries.Request request) rules.PrmOfOther ≡ false }
{}

/// `cfg-before-prm`: a Chk_Cfg is reported if the station never got parameters (a Set_Prm with Lock_Req was
/// acknowledged, or a Data_Exchange was answered with data), or has lost them since: by a Set_Prm that releases it, by
/// a Slave_Diag that shows another master or Prm_Req, or by RS to a Data_Exchange. It is not reported if nothing of
/// that came after the parameters. RS to a Data_Exchange that itself was too early (`exchange-before-ready`) changes
/// nothing.
pub fn chk_cfg_needs_parameters()
    ensures none { (limit : ℕ) (past : List Entry) (request : Request)
        → have_no_effect gives_parameters request.address past ≡ true
        → breaks limit past (entries.Request request) rules.CfgBeforePrm ≡ chk_cfg_asked request }
    ensures given { (limit : ℕ) (front back : List Entry) (before request : Request)
        → before.address ≡ request.address
        → gives_parameters (effect before) ≡ true
        → have_no_effect may_lose_parameters request.address back ≡ true
        → breaks limit (front ++ entries.Request before ∷ back) (entries.Request request) rules.CfgBeforePrm ≡ false }
    ensures lost { (limit : ℕ) (front back : List Entry) (before request : Request)
        → before.address ≡ request.address
        → takes_parameters (effect before) ≡ true
        → have_no_effect gives_parameters request.address back ≡ true
        → breaks limit (front ++ entries.Request before ∷ back) (entries.Request request) rules.CfgBeforePrm
        ≡ chk_cfg_asked request }
    ensures refused { (limit : ℕ) (front back : List Entry) (before request : Request)
        → before.address ≡ request.address
        → effect before ≡ refuses
        → breaks limit front (entries.Request before) rules.ExchangeBeforeReady ≡ false
        → have_no_effect gives_parameters request.address back ≡ true
        → breaks limit (front ++ entries.Request before ∷ back) (entries.Request request) rules.CfgBeforePrm
        ≡ chk_cfg_asked request }
    ensures early { (limit : ℕ) (front back : List Entry) (before request : Request)
        → before.address ≡ request.address
        → effect before ≡ refuses
        → breaks limit front (entries.Request before) rules.ExchangeBeforeReady ≡ true
        → have_no_effect changes_parameters request.address back ≡ true
        → breaks limit (front ++ entries.Request before ∷ back) (entries.Request request) rules.CfgBeforePrm
        ≡ breaks limit front (entries.Request request) rules.CfgBeforePrm }
{}

/// `prm-without-lock`: a Set_Prm with neither Lock_Req nor Unlock_Req gives no parameters. It is reported exactly if the
/// station has none, so that a Chk_Cfg in its place would be reported as `cfg-before-prm`. No other request is reported.
pub fn a_set_prm_without_lock_gives_no_parameters()
    ensures asked { (limit : ℕ) (past : List Entry) (configuration request : Request) (parameters : Parameters)
        → prm_asked request ≡ Some parameters
        → parameters.asked ≡ asks.MinTsdr
        → configuration.address ≡ request.address
        → chk_cfg_asked configuration ≡ true
        → breaks limit past (entries.Request request) rules.PrmWithoutLock
        ≡ breaks limit past (entries.Request configuration) rules.CfgBeforePrm }
    ensures other { (limit : ℕ) (past : List Entry) (request : Request)
        → is_without_lock (prm_asked request) ≡ false
        → breaks limit past (entries.Request request) rules.PrmWithoutLock ≡ false }
{}

/// `exchange-after-rs`: a Data_Exchange is reported if an earlier one was refused by RS, and after that no Slave_Diag
/// was answered, no Set_Prm acknowledged that locks or releases, and no Data_Exchange answered with data. RS to a
/// Data_Exchange that itself was too early (`exchange-before-ready`), or with another master's slave
/// (`exchange-of-other`), does not count. Without RS since the last such reply, nothing is reported.
pub fn an_exchange_after_rs_needs_a_new_bring_up()
    ensures none { (limit : ℕ) (past : List Entry) (request : Request)
        → have_no_effect is_refused request.address past ≡ true
        → breaks limit past (entries.Request request) rules.ExchangeAfterRs ≡ false }
    ensures refused { (limit : ℕ) (front back : List Entry) (before request : Request)
        → before.address ≡ request.address
        → effect before ≡ refuses
        → (breaks limit front (entries.Request before) rules.ExchangeBeforeReady
        || breaks limit front (entries.Request before) rules.ExchangeOfOther) ≡ false
        → have_no_effect shows_state request.address back ≡ true
        → breaks limit (front ++ entries.Request before ∷ back) (entries.Request request) rules.ExchangeAfterRs
        ≡ exchange_asked request }
    ensures early { (limit : ℕ) (front back : List Entry) (before request : Request)
        → before.address ≡ request.address
        → effect before ≡ refuses
        → (breaks limit front (entries.Request before) rules.ExchangeBeforeReady
        || breaks limit front (entries.Request before) rules.ExchangeOfOther) ≡ true
        → have_no_effect is_refused request.address back ≡ true
        → breaks limit (front ++ entries.Request before ∷ back) (entries.Request request) rules.ExchangeAfterRs
        ≡ false }
    ensures answered { (limit : ℕ) (front back : List Entry) (before request : Request)
        → before.address ≡ request.address
        → shows_state (effect before) ≡ true
        → have_no_effect is_refused request.address back ≡ true
        → breaks limit (front ++ entries.Request before ∷ back) (entries.Request request) rules.ExchangeAfterRs
        ≡ false }
{}

/// `exchange-without-diag`: a Data_Exchange is reported if a Chk_Cfg was acknowledged that was not itself reported, and
/// after it no Slave_Diag was answered, no Set_Prm acknowledged that locks or releases, and no Data_Exchange answered
/// with data or refused by RS. It is not reported if there was no Chk_Cfg since, or the Chk_Cfg came before the
/// parameters.
pub fn an_exchange_after_chk_cfg_needs_a_diagnosis()
    ensures none { (limit : ℕ) (past : List Entry) (request : Request)
        → have_no_effect is_configured_by request.address past ≡ true
        → breaks limit past (entries.Request request) rules.ExchangeWithoutDiag ≡ false }
    ensures configured { (limit : ℕ) (front back : List Entry) (before request : Request)
        → before.address ≡ request.address
        → effect before ≡ configures
        → breaks limit front (entries.Request before) rules.CfgBeforePrm ≡ false
        → have_no_effect shows_or_refuses request.address back ≡ true
        → breaks limit (front ++ entries.Request before ∷ back) (entries.Request request) rules.ExchangeWithoutDiag
        ≡ exchange_asked request }
    ensures early { (limit : ℕ) (front back : List Entry) (before request : Request)
        → before.address ≡ request.address
        → effect before ≡ configures
        → breaks limit front (entries.Request before) rules.CfgBeforePrm ≡ true
        → have_no_effect gives_parameters request.address back ≡ true
        → breaks limit (front ++ entries.Request before ∷ back) (entries.Request request) rules.ExchangeWithoutDiag
        ≡ false }
    ensures answered { (limit : ℕ) (front back : List Entry) (before request : Request)
        → before.address ≡ request.address
        → shows_or_refuses (effect before) ≡ true
        → have_no_effect is_configured_by request.address back ≡ true
        → breaks limit (front ++ entries.Request before ∷ back) (entries.Request request) rules.ExchangeWithoutDiag
        ≡ false }
{}

/// `exchange-before-ready`: a Data_Exchange is reported if the bring-up never went on (no Chk_Cfg was acknowledged, no
/// Data_Exchange answered with data, and no other master shown), or has not since it started; if a Slave_Diag showed
/// that the station is not ready, and the bring-up has not gone on since; and if the last reply of the station that
/// shows anything was RS to a Data_Exchange that was reported itself.
pub fn an_exchange_before_the_station_is_ready_is_reported()
    ensures none { (limit : ℕ) (past : List Entry) (request : Request)
        → have_no_effect goes_on request.address past ≡ true
        → breaks limit past (entries.Request request) rules.ExchangeBeforeReady ≡ exchange_asked request }
    ensures started { (limit : ℕ) (front back : List Entry) (before request : Request)
        → before.address ≡ request.address
        → starts (effect before) ≡ true
        → have_no_effect goes_on request.address back ≡ true
        → breaks limit (front ++ entries.Request before ∷ back) (entries.Request request) rules.ExchangeBeforeReady
        ≡ exchange_asked request }
    ensures unready { (limit : ℕ) (front back : List Entry) (before request : Request)
        → before.address ≡ request.address
        → shows_unready (effect before) ≡ true
        → have_no_effect goes_on_or_is_ready request.address back ≡ true
        → breaks limit (front ++ entries.Request before ∷ back) (entries.Request request) rules.ExchangeBeforeReady
        ≡ exchange_asked request }
    ensures refused { (limit : ℕ) (front back : List Entry) (before request : Request)
        → before.address ≡ request.address
        → effect before ≡ refuses
        → have_no_effect shows_any request.address back ≡ true
        → breaks limit (front ++ entries.Request before ∷ back) (entries.Request request) rules.ExchangeBeforeReady
        ≡ (exchange_asked request && breaks limit front (entries.Request before) rules.ExchangeBeforeReady) }
{}

/// `exchange-before-ready` is not reported once a Chk_Cfg that was not itself reported was acknowledged, then a
/// Slave_Diag showed that the station is ready, and the bring-up has not started again. Nor is it reported right after
/// such a Chk_Cfg, where `exchange-without-diag` is, nor once a Data_Exchange was answered with data.
pub fn an_exchange_with_a_ready_station_is_right()
    ensures ready { (limit : ℕ) (front middle back : List Entry) (configuration diagnosis request : Request)
        → configuration.address ≡ request.address
        → effect configuration ≡ configures
        → breaks limit front (entries.Request configuration) rules.CfgBeforePrm ≡ false
        → have_no_effect starts_again request.address middle ≡ true
        → diagnosis.address ≡ request.address
        → shows_ready (effect diagnosis) ≡ true
        → have_no_effect ends_readiness request.address back ≡ true
        → breaks limit (front ++ entries.Request configuration ∷ middle ++ entries.Request diagnosis ∷ back) (entries.Request request) rules.ExchangeBeforeReady
        ≡ false }
    ensures configured { (limit : ℕ) (front back : List Entry) (before request : Request)
        → before.address ≡ request.address
        → effect before ≡ configures
        → breaks limit front (entries.Request before) rules.CfgBeforePrm ≡ false
        → have_no_effect ends_readiness request.address back ≡ true
        → breaks limit (front ++ entries.Request before ∷ back) (entries.Request request) rules.ExchangeBeforeReady
        ≡ false }
    ensures exchanged { (limit : ℕ) (front back : List Entry) (before request : Request)
        → before.address ≡ request.address
        → effect before ≡ exchanges
        → have_no_effect ends_readiness request.address back ≡ true
        → breaks limit (front ++ entries.Request before ∷ back) (entries.Request request) rules.ExchangeBeforeReady
        ≡ false }
{}

/// Of `exchange-before-ready`, `exchange-without-diag`, `exchange-after-rs` and `exchange-of-other`, a request breaks
/// at most one.
pub fn a_data_exchange_comes_too_early_in_one_way()
    ensures before_ready { (limit : ℕ) (past : List Entry) (request : Request)
        → breaks limit past (entries.Request request) rules.ExchangeBeforeReady ≡ true
        → (breaks limit past (entries.Request request) rules.ExchangeWithoutDiag
        || breaks limit past (entries.Request request) rules.ExchangeAfterRs
        || breaks limit past (entries.Request request) rules.ExchangeOfOther) ≡ false }
    ensures without_diag { (limit : ℕ) (past : List Entry) (request : Request)
        → breaks limit past (entries.Request request) rules.ExchangeWithoutDiag ≡ true
        → (breaks limit past (entries.Request request) rules.ExchangeAfterRs
        || breaks limit past (entries.Request request) rules.ExchangeOfOther) ≡ false }
    ensures after_rs { (limit : ℕ) (past : List Entry) (request : Request)
        → breaks limit past (entries.Request request) rules.ExchangeAfterRs ≡ true
        → breaks limit past (entries.Request request) rules.ExchangeOfOther ≡ false }
{}

/// After a diagnosis that shows another master, and after RS to a Data_Exchange that was neither too early nor with
/// another master's slave, the next Slave_Diag that shows no other master starts the bring-up again, whatever else it
/// shows: a Data_Exchange is reported as `exchange-before-ready` until the bring-up has gone on.
pub fn a_diagnosis_after_rs_or_another_master_starts_the_bring_up()
    ensures other { (limit : ℕ) (front middle back : List Entry) (before diagnosis request : Request)
        → before.address ≡ request.address
        → shows_other (effect before) ≡ true
        → have_no_effect shows_state request.address middle ≡ true
        → diagnosis.address ≡ request.address
        → shows_own (effect diagnosis) ≡ true
        → have_no_effect goes_on request.address back ≡ true
        → breaks limit (front ++ entries.Request before ∷ middle ++ entries.Request diagnosis ∷ back) (entries.Request request) rules.ExchangeBeforeReady
        ≡ exchange_asked request }
    ensures refused { (limit : ℕ) (front middle back : List Entry) (before diagnosis request : Request)
        → before.address ≡ request.address
        → effect before ≡ refuses
        → (breaks limit front (entries.Request before) rules.ExchangeBeforeReady
        || breaks limit front (entries.Request before) rules.ExchangeOfOther) ≡ false
        → have_no_effect shows_state request.address middle ≡ true
        → diagnosis.address ≡ request.address
        → shows_own (effect diagnosis) ≡ true
        → have_no_effect goes_on request.address back ≡ true
        → breaks limit (front ++ entries.Request before ∷ middle ++ entries.Request diagnosis ∷ back) (entries.Request request) rules.ExchangeBeforeReady
        ≡ exchange_asked request }
{}

/// A request that is answered by the reply to the one before it asks for no service: it breaks no rule of the bring-up,
/// of Data_Exchange or of Set_Prm, and changes nothing for the requests after it that are judged by these rules.
pub fn a_repeat_asks_for_no_service()
    ensures judged { (limit : ℕ) (past : List Entry) (request : Request) (rule : JudgeRule)
        → request.answer ≡ answers.Repeat
        → is_of_a_service rule ≡ true
        → breaks limit past (entries.Request request) rule ≡ false }
    ensures after { (limit : ℕ) (front back : List Entry) (repeat request : Request) (rule : JudgeRule)
        → repeat.answer ≡ answers.Repeat
        → is_of_a_service rule ≡ true
        → breaks limit (front ++ entries.Request repeat ∷ back) (entries.Request request) rule
        ≡ breaks limit (front ++ back) (entries.Request request) rule }
{}

/// What a master sends to another station, a token that it passes on and octets that are no request change nothing for
/// the rules of a station: those of the frame count bit, of the bring-up, of Data_Exchange and of Set_Prm.
pub fn a_station_is_judged_by_the_requests_to_it()
    ensures { (limit : ℕ) (front back : List Entry) (entry : Entry) (request : Request) (rule : JudgeRule)
        → is_request_to (λ any. true) request.address entry ≡ false
        → is_of_a_station rule ≡ true
        → breaks limit (front ++ entry ∷ back) (entries.Request request) rule
        ≡ breaks limit (front ++ back) (entries.Request request) rule }
{}

/// A Chk_Cfg that was reported as `cfg-before-prm`, and a Data_Exchange that was reported as `exchange-before-ready` and
/// refused by RS, change nothing for the rules of the bring-up.
pub fn what_came_too_early_changes_nothing()
    ensures chk_cfg { (limit : ℕ) (front back : List Entry) (before request : Request) (rule : JudgeRule)
        → effect before ≡ configures
        → breaks limit front (entries.Request before) rules.CfgBeforePrm ≡ true
        → is_of_the_bring_up rule ≡ true
        → breaks limit (front ++ entries.Request before ∷ back) (entries.Request request) rule
        ≡ breaks limit (front ++ back) (entries.Request request) rule }
    ensures exchange { (limit : ℕ) (front back : List Entry) (before request : Request) (rule : JudgeRule)
        → effect before ≡ refuses
        → breaks limit front (entries.Request before) rules.ExchangeBeforeReady ≡ true
        → is_of_the_bring_up rule ≡ true
        → breaks limit (front ++ entries.Request before ∷ back) (entries.Request request) rule
        ≡ breaks limit (front ++ back) (entries.Request request) rule }
{}
