//! Laws of the rules that judge how the octets of a request are coded: each is the contract of an empty function.

ghost use Rattle.std.specs.Prelude.{◌≡◌, ◌==◌, ◌&&◌, ◌||◌, not, nat_lt, ℕ, true, false, List, length, slice_index, None, Some};
ghost use Rattle.dp_telegram.specs.Access.{global_address};
ghost use Rattle.dp_telegram.specs.FunctionCode.{asks_sdn, is_set};
ghost use Rattle.judge_rules.specs.declared.entry.Control.{Control};
ghost use Rattle.judge_rules.specs.declared.entry.Entry.{Entry};
ghost use Rattle.judge_rules.specs.declared.entry.Entry.TheVariants as entries;
ghost use Rattle.judge_rules.specs.declared.entry.Request.{Request};
ghost use Rattle.judge_rules.specs.declared.entry.Service.TheVariants as services;
ghost use Rattle.judge_rules.specs.declared.rule.JudgeRule.TheVariants as rules;
ghost use Rattle.judge_rules.specs.Entries.{control_asked, exchange_asked, is_rs, is_served, is_srd, is_ue, prm_asked};
ghost use Rattle.judge_rules.specs.Reading.{payload_of, has_points, parameters_in};
ghost use Rattle.judge_rules.specs.Stations.{station_of};
ghost use Rattle.judge_rules.specs.ExchangeRules.{may_exchange};
ghost use Rattle.judge_rules.specs.TelegramRules.{has_no_data, is_asked_by_62, is_global_control, is_point_62};
ghost use Rattle.judge_rules.specs.Rules.{breaks};

/// A Set_Prm to one station with these octets, which was not answered as a repeat, breaks `prm-short` exactly if there are
/// fewer than seven; `prm-reserved` exactly if bit 0, 1 or 2 of the first is set; `lock-and-unlock` exactly if its bits 6
/// and 7 are both set; and `watchdog-zero` exactly if there are seven, bit 3 of the first is set, and the second or the
/// third is 0. No other request breaks these rules.
pub fn a_set_prm_is_judged_by_its_octets()
    ensures short { (limit : ℕ) (past : List Entry) (request : Request) (octets : List ℕ)
        → is_served request ≡ true
        → request.service ≡ services.SetPrm (parameters_in octets)
        → breaks limit past (entries.Request request) rules.PrmShort ≡ nat_lt (length octets) 7 }
    ensures reserved { (limit : ℕ) (past : List Entry) (request : Request) (octets : List ℕ)
        → is_served request ≡ true
        → request.service ≡ services.SetPrm (parameters_in octets)
        → breaks limit past (entries.Request request) rules.PrmReserved
        ≡ (is_set 0 (slice_index octets 0) || is_set 1 (slice_index octets 0) || is_set 2 (slice_index octets 0)) }
    ensures both { (limit : ℕ) (past : List Entry) (request : Request) (octets : List ℕ)
        → is_served request ≡ true
        → request.service ≡ services.SetPrm (parameters_in octets)
        → breaks limit past (entries.Request request) rules.LockAndUnlock
        ≡ (is_set 6 (slice_index octets 0) && is_set 7 (slice_index octets 0)) }
    ensures watchdog { (limit : ℕ) (past : List Entry) (request : Request) (octets : List ℕ)
        → is_served request ≡ true
        → request.service ≡ services.SetPrm (parameters_in octets)
        → breaks limit past (entries.Request request) rules.WatchdogZero
        ≡ (is_set 3 (slice_index octets 0) && (slice_index octets 1 == 0 || slice_index octets 2 == 0) && not (nat_lt (length octets) 7)) }
    ensures other { (limit : ℕ) (past : List Entry) (request : Request)
        → prm_asked request ≡ None
        → (breaks limit past (entries.Request request) rules.PrmShort
        || breaks limit past (entries.Request request) rules.PrmReserved
        || breaks limit past (entries.Request request) rules.LockAndUnlock
        || breaks limit past (entries.Request request) rules.WatchdogZero) ≡ false }
{}

/// `control-length`: a Global_Control, an SDN to point 58, is reported exactly if it has other than two octets. No other
/// request is reported.
pub fn a_global_control_has_two_octets()
    ensures control { (limit : ℕ) (past : List Entry) (request : Request) (control : Control)
        → control_asked request ≡ Some control
        → breaks limit past (entries.Request request) rules.ControlLength ≡ not (request.payload.count == 2) }
    ensures other { (limit : ℕ) (past : List Entry) (request : Request)
        → control_asked request ≡ None
        → breaks limit past (entries.Request request) rules.ControlLength ≡ false }
{}

/// `control-with-srd`: an SRD to one station is reported exactly if it names the point of Global_Control. No other request
/// is reported.
pub fn a_global_control_is_no_srd()
    ensures srd { (limit : ℕ) (past : List Entry) (request : Request)
        → is_srd request ≡ true
        → (request.address == global_address) ≡ false
        → breaks limit past (entries.Request request) rules.ControlWithSrd ≡ is_global_control request.service }
    ensures other { (limit : ℕ) (past : List Entry) (request : Request)
        → (is_srd request && not (request.address == global_address)) ≡ false
        → breaks limit past (entries.Request request) rules.ControlWithSrd ≡ false }
{}

/// `source-point`: an SRD or an SDN for a service of a slave, which names its point, is reported exactly if its SSAP is
/// missing, or is not 62. No other request is reported.
pub fn the_point_of_a_master_is_62()
    ensures asked { (limit : ℕ) (past : List Entry) (request : Request)
        → (is_srd request || asks_sdn request.function) ≡ true
        → is_asked_by_62 request.service ≡ true
        → breaks limit past (entries.Request request) rules.SourcePoint ≡ not (is_point_62 request.ssap) }
    ensures other { (limit : ℕ) (past : List Entry) (request : Request)
        → ((is_srd request || asks_sdn request.function) && is_asked_by_62 request.service) ≡ false
        → breaks limit past (entries.Request request) rules.SourcePoint ≡ false }
{}

/// `octets-not-allowed`: an SRD for Slave_Diag, Get_Cfg, RD_Inp or RD_Outp is reported exactly if it has data. No other
/// request is reported.
pub fn a_request_without_data_has_none()
    ensures asked { (limit : ℕ) (past : List Entry) (request : Request)
        → is_srd request ≡ true
        → has_no_data request.service ≡ true
        → breaks limit past (entries.Request request) rules.OctetsNotAllowed ≡ not (request.payload.count == 0) }
    ensures other { (limit : ℕ) (past : List Entry) (request : Request)
        → (is_srd request && has_no_data request.service) ≡ false
        → breaks limit past (entries.Request request) rules.OctetsNotAllowed ≡ false }
{}

/// `extension-missing`: a Data_Exchange with these octets is reported exactly if they begin with a point from 55 to 62 and
/// the point 62, and it was refused by UE, or by RS while the station was not ready for it. No other request is reported.
pub fn a_telegram_without_its_extension_is_a_data_exchange()
    ensures exchange { (limit : ℕ) (past : List Entry) (request : Request) (octets : List ℕ)
        → exchange_asked request ≡ true
        → request.payload ≡ payload_of octets
        → breaks limit past (entries.Request request) rules.ExtensionMissing
        ≡ (has_points octets
        && (is_ue request.answer || is_rs request.answer && not (may_exchange (station_of request.address past).stage))) }
    ensures other { (limit : ℕ) (past : List Entry) (request : Request)
        → exchange_asked request ≡ false
        → breaks limit past (entries.Request request) rules.ExtensionMissing ≡ false }
{}
