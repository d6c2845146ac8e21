//! Reads the octets of a parameter telegram.

ghost use Rattle.std.specs.Prelude.{◌≡◌, ◌<◌, ◌≤◌, ◌*◌, ◌&&◌, ◌||◌, ◌==◌, Some, None, if◌then◌else◌, not, length};
ghost use Rattle.dp_prm.specs.Meaning.{meaning_of, most_octets, most_user_parameters, is_set as is_set_of};
ghost use Rattle.dp_prm.specs.Lent.{user_lent, verdict_lent};

use crate::lent::{PrmLent, PrmVerdictLent};
use crate::limits::Limits;
use crate::prm::PrmVerdict;

/// The greatest number of octets of a parameter telegram (IEC 61158-6-3, data unit).
///
/// dp_prm uses no other crate of rackd, so it defines this limit, which dp_sap and dp_cfg have too,
/// and `is_set`, which dp_telegram has too.
pub const MOST_OCTETS: usize = 244;

/// The bit of the first octet that locks the slave (IEC 61158-6-3, Set_Prm request, Station_status).
pub const LOCK_REQ: u32 = 7;

/// The bit of the first octet that unlocks the slave (IEC 61158-6-3, Set_Prm request, Station_status).
pub const UNLOCK_REQ: u32 = 6;

/// The bit of the first octet that asks for Sync mode (IEC 61158-6-3, Set_Prm request, Station_status).
pub const SYNC_REQ: u32 = 5;

/// The bit of the first octet that asks for Freeze mode (IEC 61158-6-3, Set_Prm request, Station_status).
pub const FREEZE_REQ: u32 = 4;

/// The bit of the first octet that turns the watchdog on (IEC 61158-6-3, Set_Prm request, Station_status).
pub const WD_ON: u32 = 3;

/// The meaning of too few octets.
const TOO_SHORT: PrmVerdictLent<'static> = PrmVerdictLent::Fault {
    not_supported: false,
};

/// Returns what the octets of a parameter telegram, 0 to 244 of them, mean to a slave with these
/// limits (IEC 61158-6-3, Set_Prm request).
///
/// The first of these cases decides (own order):
/// 1. Fewer than 7 octets are a `Fault`, whatever their bits.
/// 2. Unlock_Req is `Unlock`, whatever Lock_Req is.
/// 3. No Lock_Req is `MinTsdr`.
/// 4. Another ident number, WD_On with a factor 0, Sync_Req or Freeze_Req that the slave does not
///    support, or more user parameters than `user_max` is a `Fault`. Its `not_supported` is true if
///    there was such a Sync_Req or Freeze_Req, also beside another reason.
/// 5. All else is `Lock`.
pub fn read(octets: &[u8], limits: &Limits) -> PrmVerdict
    requires { length octets.now ≤ most_octets }
    ensures { result ≡ meaning_of octets.now limits.now }
{
    match read_lent(octets, limits) {
        PrmVerdictLent::MinTsdr(min_tsdr) => PrmVerdict::MinTsdr(min_tsdr),
        PrmVerdictLent::Unlock => PrmVerdict::Unlock,
        PrmVerdictLent::Lock(prm) => PrmVerdict::Lock(prm.kept()),
        PrmVerdictLent::Fault { not_supported } => PrmVerdict::Fault { not_supported },
    }
}

/// Returns the meaning as [`read`] does, but lends the user parameters, 0 to 237 octets, without a
/// copy.
pub fn read_lent<'a>(octets: &'a [u8], limits: &Limits) -> PrmVerdictLent<'a>
    requires { length octets.now ≤ most_octets }
    ensures verdict { verdict_lent result ≡ meaning_of octets.now limits.now }
    ensures few { length (user_lent result) ≤ most_user_parameters }
{
    let [
        status,
        wd_fact_1,
        wd_fact_2,
        min_tsdr,
        ident_high,
        ident_low,
        group,
        user @ ..,
    ] = octets
    else {
        return TOO_SHORT;
    };
    if is_set(UNLOCK_REQ, *status) {
        return PrmVerdictLent::Unlock;
    }
    if !is_set(LOCK_REQ, *status) {
        return PrmVerdictLent::MinTsdr(*min_tsdr);
    }
    let ident = u16::from_be_bytes([*ident_high, *ident_low]);
    let factor_0 = has_factor_0(*status, *wd_fact_1, *wd_fact_2);
    let not_supported = is_not_supported(*status, limits);
    let too_many = user.len() > usize::from(limits.user_max);
    if ident != limits.ident || factor_0 || not_supported || too_many {
        return PrmVerdictLent::Fault { not_supported };
    }
    PrmVerdictLent::Lock(PrmLent {
        watchdog: watchdog_time(*status, *wd_fact_1, *wd_fact_2),
        sync_req: is_set(SYNC_REQ, *status),
        freeze_req: is_set(FREEZE_REQ, *status),
        min_tsdr: *min_tsdr,
        group: *group,
        user,
    })
}

/// Returns whether a watchdog is to run and a factor of its time is 0.
const fn has_factor_0(status: u8, wd_fact_1: u8, wd_fact_2: u8) -> bool
    ensures { result ≡ (is_set_of WD_ON status && (wd_fact_1 == 0 || wd_fact_2 == 0)) }
{
    is_set(WD_ON, status) && (wd_fact_1 == 0 || wd_fact_2 == 0)
}

/// Returns whether Sync or Freeze is to be used and the slave does not support it.
const fn is_not_supported(status: u8, limits: &Limits) -> bool
    ensures { result ≡ (is_set_of SYNC_REQ status && not limits.now.sync || is_set_of FREEZE_REQ status && not limits.now.freeze) }
{
    is_set(SYNC_REQ, status) && !limits.sync || is_set(FREEZE_REQ, status) && !limits.freeze
}

/// Returns the watchdog time in units of 10 ms; `None` if no watchdog is to run.
fn watchdog_time(status: u8, wd_fact_1: u8, wd_fact_2: u8) -> Option<u32>
    ensures { result ≡ (if is_set_of WD_ON status then Some (wd_fact_1 * wd_fact_2) else None) }
{
    is_set(WD_ON, status).then_some(u32::from(wd_fact_1) * u32::from(wd_fact_2))
}

/// Returns whether the bit of this number, 0 to 7, is 1.
const fn is_set(number: u32, octet: u8) -> bool
    requires { number < 8 }
    ensures { result ≡ is_set_of number octet }
{
    octet >> number & 1 == 1
}
