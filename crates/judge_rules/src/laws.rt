//! Laws of the rules: each is the contract of an empty function.

ghost use Rattle.std.specs.Prelude.{◌≡◌, ◌==◌, ◌++◌, ◌∷◌, ◌&&◌, not, ℕ, true, false, List, Some};
ghost use Rattle.judge_rules.specs.declared.entry.Entry.{Entry};
ghost use Rattle.judge_rules.specs.declared.entry.Entry.TheVariants as entries;
ghost use Rattle.judge_rules.specs.declared.entry.Request.{Request};
ghost use Rattle.judge_rules.specs.declared.rule.JudgeRule.TheVariants as rules;
ghost use Rattle.dp_telegram.specs.Access.{global_address};
ghost use Rattle.judge_rules.specs.Before.{srd_before};
ghost use Rattle.judge_rules.specs.Entries.{is_answered, is_srd};
ghost use Rattle.judge_rules.specs.Laws.{has_fcb_of, has_octets_of, have_no_srd_to, is_counted_too_early, is_srd_to, stays_without_fcv};
ghost use Rattle.judge_rules.specs.Rules.{breaks};

/// An SRD is compared with the last SRD of the master to the same station, whatever lies between; one to all stations is
/// not judged. `fcb-repeated` is reported exactly if both have the same valid FCB and are other telegrams, and the first
/// was answered, `fcb-not-alternated` exactly if they are the same telegram and the first was answered, and `fcb-first` exactly if the new one is counted though the first was
/// neither counted nor answered. `fcv-not-set` is reported exactly if both have FCV 0 and are other telegrams, and the first
/// was answered. The telegram that is shown with a finding is that last SRD.
pub fn an_srd_is_compared_with_the_last_one()
    ensures repeated { (limit : ℕ) (front back : List Entry) (before request : Request)
        → is_srd_to request.address (entries.Request before) ≡ true
        → have_no_srd_to request.address back ≡ true
        → breaks limit (front ++ entries.Request before ∷ back) (entries.Request request) rules.FcbRepeated
        ≡ (has_fcb_of before request && not (has_octets_of before request) && is_answered before.answer) }
    ensures alternated { (limit : ℕ) (front back : List Entry) (before request : Request)
        → is_srd_to request.address (entries.Request before) ≡ true
        → have_no_srd_to request.address back ≡ true
        → breaks limit (front ++ entries.Request before ∷ back) (entries.Request request) rules.FcbNotAlternated
        ≡ (has_fcb_of before request && has_octets_of before request && is_answered before.answer) }
    ensures first { (limit : ℕ) (front back : List Entry) (before request : Request)
        → is_srd_to request.address (entries.Request before) ≡ true
        → have_no_srd_to request.address back ≡ true
        → breaks limit (front ++ entries.Request before ∷ back) (entries.Request request) rules.FcbFirst
        ≡ is_counted_too_early before request }
    ensures uncounted { (limit : ℕ) (front back : List Entry) (before request : Request)
        → is_srd_to request.address (entries.Request before) ≡ true
        → have_no_srd_to request.address back ≡ true
        → breaks limit (front ++ entries.Request before ∷ back) (entries.Request request) rules.FcvNotSet
        ≡ stays_without_fcv before request }
    ensures shown { (front back : List Entry) (before request : Request)
        → is_srd_to request.address (entries.Request before) ≡ true
        → have_no_srd_to request.address back ≡ true
        → srd_before (front ++ entries.Request before ∷ back) (entries.Request request) ≡ Some before.octets.items }
{}

/// The first SRD of a master to a station repeats nothing, may have FCV 0, and breaks `fcb-first` exactly if it has FCV 1 and is not sent
/// to all stations.
pub fn the_first_srd_has_fcv_0()
    ensures first { (limit : ℕ) (past : List Entry) (request : Request)
        → have_no_srd_to request.address past ≡ true
        → breaks limit past (entries.Request request) rules.FcbFirst
        ≡ (is_srd request && not (request.address == global_address) && request.fcv) }
    ensures repeated { (limit : ℕ) (past : List Entry) (request : Request)
        → have_no_srd_to request.address past ≡ true
        → breaks limit past (entries.Request request) rules.FcbRepeated ≡ false }
    ensures uncounted { (limit : ℕ) (past : List Entry) (request : Request)
        → have_no_srd_to request.address past ≡ true
        → breaks limit past (entries.Request request) rules.FcvNotSet ≡ false }
{}
