//! Laws of the rules of Data_Exchange and of the watchdog: each is the contract of an empty function.

ghost use Rattle.std.specs.Prelude.{◌≡◌, ◌++◌, ◌∷◌, ◌==◌, ◌-◌, ◌&&◌, max, nat_le, ℕ, true, false, List, None, Some};
ghost use Rattle.judge_rules.specs.declared.entry.Entry.{Entry};
ghost use Rattle.judge_rules.specs.declared.entry.Entry.TheVariants as entries;
ghost use Rattle.judge_rules.specs.declared.entry.Parameters.{Parameters};
ghost use Rattle.judge_rules.specs.declared.entry.Request.{Request};
ghost use Rattle.judge_rules.specs.declared.rule.JudgeRule.TheVariants as rules;
ghost use Rattle.judge_rules.specs.Effects.{effect, have_no_effect, have_none, is_request_to, locks, releases};
ghost use Rattle.judge_rules.specs.Entries.{chk_cfg_asked, exchange_asked, is_srd, prm_asked};
ghost use Rattle.judge_rules.specs.BusWords.{have_no_control_to_all, is_control_to_all};
ghost use Rattle.judge_rules.specs.Laws.{have_no_srd_to, is_srd_to};
ghost use Rattle.judge_rules.specs.Stations.{is_acknowledged_prm};
ghost use Rattle.judge_rules.specs.StationWords.{announces_diagnosis, ends_announcement, exchanges_to, is_wrong_length, sets_watchdog};
ghost use Rattle.judge_rules.specs.Rules.{breaks};

/// `length-repeated`: a Data_Exchange that UE refuses is reported exactly if UE refused an earlier one to the station,
/// with no acknowledged Set_Prm to it between them. No other request is reported.
pub fn a_wrong_length_is_reported_from_the_second_on()
    ensures none { (limit : ℕ) (past : List Entry) (request : Request)
        → have_none is_wrong_length request.address past ≡ true
        → breaks limit past (entries.Request request) rules.LengthRepeated ≡ false }
    ensures again { (limit : ℕ) (front back : List Entry) (before request : Request)
        → before.address ≡ request.address
        → is_wrong_length before ≡ true
        → have_none is_acknowledged_prm request.address back ≡ true
        → breaks limit (front ++ entries.Request before ∷ back) (entries.Request request) rules.LengthRepeated
        ≡ is_wrong_length request }
    ensures acknowledged { (limit : ℕ) (front back : List Entry) (before request : Request)
        → before.address ≡ request.address
        → is_acknowledged_prm before ≡ true
        → have_none is_wrong_length request.address back ≡ true
        → breaks limit (front ++ entries.Request before ∷ back) (entries.Request request) rules.LengthRepeated ≡ false }
{}

/// `diag-not-read`: after the first DH that no Slave_Diag that was answered with a diagnosis or RR has followed, and no
/// acknowledged Set_Prm, a Data_Exchange is reported exactly if it is the fourth since. Without such a DH none is
/// reported.
pub fn the_fourth_exchange_after_dh_needs_a_diagnosis()
    ensures none { (limit : ℕ) (past : List Entry) (request : Request)
        → have_none announces_diagnosis request.address past ≡ true
        → breaks limit past (entries.Request request) rules.DiagNotRead ≡ false }
    ensures read { (limit : ℕ) (front back : List Entry) (reading request : Request)
        → reading.address ≡ request.address
        → ends_announcement reading ≡ true
        → have_none announces_diagnosis request.address back ≡ true
        → breaks limit (front ++ entries.Request reading ∷ back) (entries.Request request) rules.DiagNotRead ≡ false }
    ensures first { (limit : ℕ) (front back : List Entry) (announcing request : Request)
        → have_none announces_diagnosis request.address front ≡ true
        → announcing.address ≡ request.address
        → announces_diagnosis announcing ≡ true
        → have_none ends_announcement request.address back ≡ true
        → breaks limit (front ++ entries.Request announcing ∷ back) (entries.Request request) rules.DiagNotRead
        ≡ (exchange_asked request && (exchanges_to request.address back == 3)) }
    ensures since { (limit : ℕ) (front middle back : List Entry) (reading announcing request : Request)
        → reading.address ≡ request.address
        → ends_announcement reading ≡ true
        → have_none announces_diagnosis request.address middle ≡ true
        → announcing.address ≡ request.address
        → announces_diagnosis announcing ≡ true
        → have_none ends_announcement request.address back ≡ true
        → breaks limit (front ++ entries.Request reading ∷ middle ++ entries.Request announcing ∷ back) (entries.Request request) rules.DiagNotRead
        ≡ (exchange_asked request && (exchanges_to request.address back == 3)) }
{}

/// `watchdog-short`: an SRD to a station that has parameters, so that a Chk_Cfg in its place would not be reported as
/// `cfg-before-prm`, is reported exactly if the last acknowledged Set_Prm that locked or released the station set a
/// watchdog time, and at least that time has passed since the later of two: the last SRD to the station, and the last
/// Global_Control to all stations. What was answered does not matter.
pub fn a_gap_of_the_watchdog_time_is_reported()
    ensures gap { (limit watchdog : ℕ) (past front back earlier later : List Entry) (setting before configuration request : Request)
        (parameters : Parameters)
        → past ≡ front ++ entries.Request setting ∷ back
        → setting.address ≡ request.address
        → effect setting ≡ locks
        → prm_asked setting ≡ Some parameters
        → parameters.watchdog ≡ Some watchdog
        → have_no_effect sets_watchdog request.address back ≡ true
        → past ≡ earlier ++ entries.Request before ∷ later
        → is_srd_to request.address (entries.Request before) ≡ true
        → have_no_srd_to request.address later ≡ true
        → have_no_control_to_all past ≡ true
        → configuration.address ≡ request.address
        → chk_cfg_asked configuration ≡ true
        → breaks limit past (entries.Request configuration) rules.CfgBeforePrm ≡ false
        → breaks limit past (entries.Request request) rules.WatchdogShort
        ≡ (is_srd request && nat_le watchdog (request.time - before.time)) }
    ensures controlled { (limit watchdog : ℕ) (past front back earlier later others behind : List Entry)
        (setting before control configuration request : Request) (parameters : Parameters)
        → past ≡ front ++ entries.Request setting ∷ back
        → setting.address ≡ request.address
        → effect setting ≡ locks
        → prm_asked setting ≡ Some parameters
        → parameters.watchdog ≡ Some watchdog
        → have_no_effect sets_watchdog request.address back ≡ true
        → past ≡ earlier ++ entries.Request before ∷ later
        → is_srd_to request.address (entries.Request before) ≡ true
        → have_no_srd_to request.address later ≡ true
        → past ≡ others ++ entries.Request control ∷ behind
        → is_control_to_all (entries.Request control) ≡ true
        → have_no_control_to_all behind ≡ true
        → configuration.address ≡ request.address
        → chk_cfg_asked configuration ≡ true
        → breaks limit past (entries.Request configuration) rules.CfgBeforePrm ≡ false
        → breaks limit past (entries.Request request) rules.WatchdogShort
        ≡ (is_srd request && nat_le watchdog (request.time - max before.time control.time)) }
    ensures no_watchdog { (limit : ℕ) (front back : List Entry) (setting request : Request) (parameters : Parameters)
        → setting.address ≡ request.address
        → effect setting ≡ locks
        → prm_asked setting ≡ Some parameters
        → parameters.watchdog ≡ None
        → have_no_effect sets_watchdog request.address back ≡ true
        → breaks limit (front ++ entries.Request setting ∷ back) (entries.Request request) rules.WatchdogShort ≡ false }
    ensures released { (limit : ℕ) (front back : List Entry) (setting request : Request)
        → setting.address ≡ request.address
        → effect setting ≡ releases
        → have_no_effect sets_watchdog request.address back ≡ true
        → breaks limit (front ++ entries.Request setting ∷ back) (entries.Request request) rules.WatchdogShort ≡ false }
    ensures never_set { (limit : ℕ) (past : List Entry) (request : Request)
        → have_no_effect sets_watchdog request.address past ≡ true
        → breaks limit past (entries.Request request) rules.WatchdogShort ≡ false }
    ensures no_parameters { (limit : ℕ) (past : List Entry) (configuration request : Request)
        → configuration.address ≡ request.address
        → breaks limit past (entries.Request configuration) rules.CfgBeforePrm ≡ true
        → breaks limit past (entries.Request request) rules.WatchdogShort ≡ false }
{}

/// What a master sends to another station changes nothing for `watchdog-short`, but for a Global_Control to all stations.
pub fn only_a_global_control_to_all_matters_to_a_gap()
    ensures { (limit : ℕ) (front back : List Entry) (entry : Entry) (request : Request)
        → is_request_to (λ any. true) request.address entry ≡ false
        → is_control_to_all entry ≡ false
        → breaks limit (front ++ entry ∷ back) (entries.Request request) rules.WatchdogShort
        ≡ breaks limit (front ++ back) (entries.Request request) rules.WatchdogShort }
{}
