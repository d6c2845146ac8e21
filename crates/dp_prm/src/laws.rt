//! Laws of parameter telegrams: each is the contract of an empty function.

ghost use Rattle.std.specs.Prelude.{◌≡◌, ◌<◌, ◌≤◌, ◌↔◌, ◌⊎◌, ℕ, true, false, List, All, IfSome, length};
ghost use Rattle.dp_prm.specs.declared.limits.Limits.{Limits};
ghost use Rattle.dp_prm.specs.declared.prm.Prm.{Prm};
ghost use Rattle.dp_prm.specs.declared.prm.PrmVerdict.{PrmVerdict};
ghost use Rattle.dp_prm.specs.Meaning.{is_not_supported, meaning_of, min_tsdr, most_octets, most_user_parameters, parameters};
ghost use Rattle.dp_prm.specs.Requests.{AsksUnsupported, IsAcceptable, IsForMinTsdr, IsLocking, IsUnlocking};

/// One of these cases always applies: the octets are too few, unlock, set min TSDR, or are a
/// locking request, which is acceptable or not.
pub fn some_case_always_applies()
    ensures { (octets : List ℕ) (limits : Limits)
        → (length octets < 7)
        ⊎ IsUnlocking octets
        ⊎ IsForMinTsdr octets
        ⊎ (IsLocking octets × IsAcceptable octets limits)
        ⊎ (IsLocking octets × ¬ IsAcceptable octets limits) }
{}

/// Fewer than seven octets are a fault whatever their bits, and report nothing as not supported.
pub fn short_is_a_fault()
    ensures { (octets : List ℕ) (limits : Limits)
        → length octets < 7
        → meaning_of octets limits ≡ PrmVerdict.Fault false }
{}

/// Octets unlock exactly if they are seven or more with Unlock_Req, whatever Lock_Req is.
pub fn unlock_goes_before_lock()
    ensures { (octets : List ℕ) (limits : Limits)
        → (meaning_of octets limits ≡ PrmVerdict.Unlock) ↔ IsUnlocking octets }
{}

/// Octets set min TSDR exactly if they are seven or more with neither Lock_Req nor Unlock_Req.
pub fn neither_sets_min_tsdr()
    ensures { (octets : List ℕ) (limits : Limits) (tsdr : ℕ)
        → (meaning_of octets limits ≡ PrmVerdict.MinTsdr tsdr) ↔ (IsForMinTsdr octets × (tsdr ≡ min_tsdr octets)) }
{}

/// A locking request locks exactly if it is acceptable; if not, it is a fault. Nothing else locks.
pub fn lock_or_fault()
    ensures lock { (octets : List ℕ) (limits : Limits) (prm : Prm)
        → (meaning_of octets limits ≡ PrmVerdict.Lock prm)
        ↔ (IsLocking octets × IsAcceptable octets limits × (prm ≡ parameters octets)) }
    ensures fault { (octets : List ℕ) (limits : Limits)
        → IsLocking octets
        → ¬ IsAcceptable octets limits
        → meaning_of octets limits ≡ PrmVerdict.Fault (is_not_supported octets limits) }
{}

/// A fault reports `not_supported` exactly if a locking request asks for a Sync or a Freeze that
/// the slave does not support.
pub fn not_supported_is_sync_or_freeze()
    ensures { (octets : List ℕ) (limits : Limits)
        → (meaning_of octets limits ≡ PrmVerdict.Fault true)
        ↔ (IsLocking octets × AsksUnsupported octets limits) }
{}

/// The watchdog of an accepted locking request, if it has one, runs 1 to 65,025 units of 10 ms.
pub fn watchdog_runs_1_to_65025_units()
    ensures { (octets : List ℕ) (limits : Limits) (prm : Prm)
        → All (λ octet. octet < 256) octets
        → meaning_of octets limits ≡ PrmVerdict.Lock prm
        → IfSome prm.watchdog (λ time. (1 ≤ time) × (time ≤ 65025)) }
{}

/// The user parameters of an accepted locking request are at most 237 octets, as many as a telegram
/// has room for.
pub fn user_parameters_are_at_most_237()
    ensures { (octets : List ℕ) (limits : Limits) (prm : Prm)
        → length octets ≤ most_octets
        → meaning_of octets limits ≡ PrmVerdict.Lock prm
        → length prm.user.items ≤ most_user_parameters }
{}
