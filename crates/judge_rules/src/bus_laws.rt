//! Laws of the rules that depend on all entries of a master, whatever the station: each is the contract of an empty
//! function.

ghost use Rattle.std.specs.Prelude.{◌≡◌, ◌++◌, ◌∷◌, ◌==◌, ◌*◌, ◌<◌, ◌&&◌, ◌||◌, not, ℕ, true, false, List, [], None, Some};
ghost use Rattle.judge_rules.specs.declared.entry.Control.{Control};
ghost use Rattle.judge_rules.specs.declared.entry.Entry.{Entry};
ghost use Rattle.judge_rules.specs.declared.entry.Entry.TheVariants as entries;
ghost use Rattle.judge_rules.specs.declared.entry.Request.{Request};
ghost use Rattle.judge_rules.specs.declared.rule.JudgeRule.TheVariants as rules;
ghost use Rattle.judge_rules.specs.BusWords.{are_retries, entry_count, have_no_clear_to_all, have_no_freeze_prm, have_no_operate, have_no_sync_prm, is_clear_to_all, is_operate, is_retry_of, last_request, stray_count};
ghost use Rattle.judge_rules.specs.Entries.{control_asked, exchange_asked, is_srd};
ghost use Rattle.judge_rules.specs.Rules.{breaks};

/// `no-request`: the entries of a master are taken in windows of one hundred, one after another; a passed token is not
/// counted. Octets that are no request are reported exactly if there are three such before them in their window, so
/// once in a window.
pub fn the_fourth_stray_of_a_hundred_entries_is_reported()
    ensures { (limit windows : ℕ) (front back : List Entry)
        → entry_count front ≡ windows * 100
        → entry_count back < 100
        → breaks limit (front ++ back) entries.Stray rules.NoRequest ≡ (stray_count back == 3) }
{}

/// `retry-limit`: if a request that is not a retry itself, and so is reported under no limit, is followed by retries
/// alone, then the next request is reported exactly if it is one more retry and as many retries as the limit allows
/// came before. So it is reported once. Between requests with FCV 1 tokens may be passed on. The limit is less than
/// 255.
pub fn one_retry_more_than_the_limit_is_reported()
    ensures retries { (limit : ℕ) (front : List Entry) (first : Request) (retries : List Entry) (request : Request)
        → is_srd first ≡ true
        → ((any : ℕ) → breaks any front (entries.Request first) rules.RetryLimit ≡ false)
        → are_retries first retries ≡ true
        → limit < 255
        → breaks limit (front ++ entries.Request first ∷ retries) (entries.Request request) rules.RetryLimit
        ≡ (is_retry_of (last_request first retries) request && (entry_count retries == limit)) }
    ensures new { (limit : ℕ) (front : List Entry) (before request : Request)
        → is_srd before ≡ true
        → is_retry_of before request ≡ false
        → breaks limit (front ++ entries.Request before ∷ []) (entries.Request request) rules.RetryLimit ≡ false }
    ensures no_srd { (limit : ℕ) (front : List Entry) (before request : Request)
        → is_srd before ≡ false
        → breaks limit (front ++ entries.Request before ∷ []) (entries.Request request) rules.RetryLimit ≡ false }
    ensures after_stray { (limit : ℕ) (front : List Entry) (request : Request)
        → breaks limit (front ++ entries.Stray ∷ []) (entries.Request request) rules.RetryLimit ≡ false }
    ensures start { (limit : ℕ) (request : Request)
        → breaks limit [] (entries.Request request) rules.RetryLimit ≡ false }
{}

/// A passed token after an SRD with FCV 1 changes nothing of `retry-limit`. After a passed token an SRD with FCV 0 is a
/// new one, whatever was before.
pub fn a_passed_token_ends_the_retries_of_an_srd_with_fcv_0()
    ensures valid { (limit to : ℕ) (front : List Entry) (before request : Request)
        → is_srd before ≡ true
        → before.fcv ≡ true
        → breaks limit (front ++ entries.Request before ∷ entries.PassedToken to ∷ []) (entries.Request request) rules.RetryLimit
        ≡ breaks limit (front ++ entries.Request before ∷ []) (entries.Request request) rules.RetryLimit }
    ensures invalid { (limit to : ℕ) (front : List Entry) (before request : Request)
        → before.fcv ≡ false
        → breaks limit (front ++ entries.Request before ∷ entries.PassedToken to ∷ []) (entries.Request request) rules.RetryLimit
        ≡ false }
    ensures again { (limit to next : ℕ) (front : List Entry) (request : Request)
        → breaks limit (front ++ entries.PassedToken to ∷ entries.PassedToken next ∷ []) (entries.Request request) rules.RetryLimit
        ≡ breaks limit (front ++ entries.PassedToken to ∷ []) (entries.Request request) rules.RetryLimit }
{}

/// `outputs-in-clear`: after a Global_Control with Clear_Data to all stations and all groups, and before one without
/// Clear_Data, whichever stations that is for, a Data_Exchange is reported exactly if an octet of its outputs is not 0.
/// After one without Clear_Data, and before the next with it, and if there is none with it, nothing is reported.
pub fn outputs_are_zero_after_clear_data()
    ensures clear { (limit : ℕ) (front back : List Entry) (control request : Request)
        → is_clear_to_all (entries.Request control) ≡ true
        → have_no_operate back ≡ true
        → breaks limit (front ++ entries.Request control ∷ back) (entries.Request request) rules.OutputsInClear
        ≡ (exchange_asked request && not request.payload.is_zero) }
    ensures operate { (limit : ℕ) (front back : List Entry) (control request : Request)
        → is_operate (entries.Request control) ≡ true
        → have_no_clear_to_all back ≡ true
        → breaks limit (front ++ entries.Request control ∷ back) (entries.Request request) rules.OutputsInClear ≡ false }
    ensures never { (limit : ℕ) (past : List Entry) (request : Request)
        → have_no_clear_to_all past ≡ true
        → breaks limit past (entries.Request request) rules.OutputsInClear ≡ false }
{}

/// `control-not-asked`: a Global_Control is reported exactly if it has Freeze without Unfreeze and no Set_Prm before it had
/// Freeze_Req, or Sync without Unsync and none had Sync_Req. No other request is reported.
pub fn a_global_control_needs_its_request_bit()
    ensures control { (limit : ℕ) (past : List Entry) (request : Request) (control : Control)
        → control_asked request ≡ Some control
        → breaks limit past (entries.Request request) rules.ControlNotAsked
        ≡ (control.freeze && not control.unfreeze && have_no_freeze_prm past || control.sync && not control.unsync && have_no_sync_prm past) }
    ensures other { (limit : ℕ) (past : List Entry) (request : Request)
        → control_asked request ≡ None
        → breaks limit past (entries.Request request) rules.ControlNotAsked ≡ false }
{}
