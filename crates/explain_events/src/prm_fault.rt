//! The reasons why parameters are wrong.

ghost use Rattle.std.specs.Prelude.{◌≡◌, ◌≤◌, ◌<◌, [], ◌∷◌, ◌++◌, ◌+◌, ◌==◌, ◌&&◌, nat_lt, not, length, Some};
ghost use Rattle.std.specs.List.{flat_map};
ghost use Rattle.dp_prm.specs.Meaning.{ident_number, user_prm, has_factor_0, sync_req, freeze_req, is_set as is_set_of, is_short};
ghost use Rattle.explain_events.specs.Services.{fault_where, user_parameters_text, prm_fault_text, lock_faults, prm_faults, has_wrong_parameters, prm_fault_behind, prm_faults_words};

use crate::words::{CountWords, IdentWords, word_for};
use arrayvec::ArrayVec;
use dp_prm::{FREEZE_REQ, LOCK_REQ, SYNC_REQ, UNLOCK_REQ, WD_ON};
use dp_slave::SlaveSpec;
use std::fmt;

/// The largest number of reasons why the octets of one request are wrong.
const MOST_FAULTS: usize = 5;

/// A reason why parameters are wrong (IEC 61158-6-3, Set_Prm request).
#[derive(Clone, Copy)]
pub(crate) enum PrmFault {
    /// There are only this many octets, fewer than 7.
    Short(usize),
    /// The ident number that was sent differs from the slave's; both in this order.
    Ident(u16, u16),
    /// The watchdog is to run, and a factor of its time is 0.
    WatchdogTime,
    /// The request asks for Sync, which the slave doesn't support.
    NoSync,
    /// The request asks for Freeze, which the slave doesn't support.
    NoFreeze,
    /// More user parameters were sent than the slave takes; both numbers of octets in this order.
    UserParameters(usize, u8),
}

impl Default for PrmFault {
    /// Returns a value for the free cells of an `ArrayVec`; it is never read.
    fn default() -> PrmFault {
        PrmFault::WatchdogTime
    }
}

impl fmt::Display for PrmFault {
    ghost output = { λ fault. Some (prm_fault_text fault) };

    fn fmt<W: fmt::Write>(&self, f: &mut fmt::Formatter<W>) -> fmt::Result {
        match self {
            PrmFault::Short(count) => {
                let count = CountWords(*count);
                write!(f, "{count}, at least 7")
            }
            PrmFault::Ident(reported, own) => {
                let reported = IdentWords(*reported);
                let own = IdentWords(*own);
                write!(f, "ident {reported}, the slave has {own}")
            }
            PrmFault::WatchdogTime => f.write_str("watchdog time 0"),
            PrmFault::NoSync => f.write_str("Sync_Req, the slave has no Sync"),
            PrmFault::NoFreeze => f.write_str("Freeze_Req, the slave has no Freeze"),
            PrmFault::UserParameters(count, most) => {
                let words = UserParameters {
                    count: *count,
                    most: *most,
                };
                write!(f, "{words}")
            }
        }
    }
}

/// The numbers of user parameters that were sent and that the slave takes at most.
#[derive(Clone, Copy)]
struct UserParameters {
    count: usize,
    most: u8,
}

impl fmt::Display for UserParameters {
    ghost output = { λ s. Some (user_parameters_text s.count s.most) };

    fn fmt<W: fmt::Write>(&self, f: &mut fmt::Formatter<W>) -> fmt::Result {
        let count = self.count;
        let word = word_for(count == 1, "user parameter", "user parameters");
        let most = self.most;
        write!(f, "{count} {word}, the slave takes {most}")
    }
}

/// Reasons, each after a semicolon.
#[derive(Clone, Copy)]
struct FaultsBehind<'a>(&'a [PrmFault]);

impl<'a> fmt::Display for FaultsBehind<'a> {
    ghost output = { λ faults. Some (flat_map prm_fault_behind faults.0.now) };

    fn fmt<W: fmt::Write>(&self, f: &mut fmt::Formatter<W>) -> fmt::Result {
        for fault in self.0 {
            let fault = *fault;
            write!(f, "; {fault}")?;
        }
        Ok(())
    }
}

/// Reasons, separated by semicolons.
#[derive(Clone, Copy)]
pub(crate) struct PrmFaults<'a>(pub(crate) &'a [PrmFault]);

impl<'a> fmt::Display for PrmFaults<'a> {
    ghost output = { λ faults. Some (prm_faults_words faults.0.now) };

    fn fmt<W: fmt::Write>(&self, f: &mut fmt::Formatter<W>) -> fmt::Result {
        match self.0 {
            [] => f.write_str("none"),
            [first, others @ ..] => {
                let first = *first;
                let others = FaultsBehind(others);
                write!(f, "{first}{others}")
            }
        }
    }
}

/// Returns every reason why the octets of a Set_Prm are wrong, and none if they are right.
pub(crate) fn prm_faults(octets: &[u8], slave: &SlaveSpec) -> ArrayVec<PrmFault, MOST_FAULTS>
    ensures { result.items ≡ prm_faults octets.now slave.now }
{
    let [status, _, _, _, _, _, _, ..] = octets else {
        return too_short(octets.len());
    };
    if is_set(UNLOCK_REQ, *status) || !is_set(LOCK_REQ, *status) {
        return ArrayVec::new();
    }
    lock_faults(octets, slave)
}

/// Returns the only reason why fewer than 7 octets are wrong.
fn too_short(count: usize) -> ArrayVec<PrmFault, MOST_FAULTS>
    ensures { result.items ≡ PrmFault.Short count ∷ [] }
{
    let mut faults = ArrayVec::new();
    faults.push(PrmFault::Short(count));
    faults
}

/// Returns whether the slave finds the octets of a Set_Prm wrong.
pub(crate) fn has_wrong_parameters(octets: &[u8], slave: &SlaveSpec) -> bool
    ensures { result ≡ has_wrong_parameters octets.now slave.now }
{
    !prm_faults(octets, slave).is_empty()
}

/// Returns every reason why the octets of a locking request, at least 7 of them, are wrong.
fn lock_faults(octets: &[u8], slave: &SlaveSpec) -> ArrayVec<PrmFault, MOST_FAULTS>
    requires { 7 ≤ length octets.now }
    ensures { result.items ≡ lock_faults octets.now slave.now }
{
    let ident = ident_in(octets);
    let other_ident = ident != slave.ident;
    let count = octets.len() - 7;
    let too_many = count > usize::from(slave.user_max);
    let mut faults = ArrayVec::new();
    push_where(
        &mut faults,
        other_ident,
        PrmFault::Ident(ident, slave.ident),
    );
    push_where(&mut faults, has_factor_0(octets), PrmFault::WatchdogTime);
    push_where(&mut faults, asks_no_sync(octets, slave), PrmFault::NoSync);
    push_where(
        &mut faults,
        asks_no_freeze(octets, slave),
        PrmFault::NoFreeze,
    );
    push_where(
        &mut faults,
        too_many,
        PrmFault::UserParameters(count, slave.user_max),
    );
    faults
}

fn ident_in(octets: &[u8]) -> u16
    requires { 7 ≤ length octets.now }
    ensures { result ≡ ident_number octets.now }
{
    u16::from_be_bytes([octets[4], octets[5]])
}

/// Returns whether the watchdog is to run and a factor of its time is 0.
fn has_factor_0(octets: &[u8]) -> bool
    requires { 7 ≤ length octets.now }
    ensures { result ≡ has_factor_0 octets.now }
{
    is_set(WD_ON, octets[0]) && (octets[1] == 0 || octets[2] == 0)
}

/// Returns whether the request asks for Sync and the slave doesn't support it.
fn asks_no_sync(octets: &[u8], slave: &SlaveSpec) -> bool
    requires { 7 ≤ length octets.now }
    ensures { result ≡ (sync_req octets.now && not slave.now.sync) }
{
    is_set(SYNC_REQ, octets[0]) && !slave.sync
}

/// Returns whether the request asks for Freeze and the slave doesn't support it.
fn asks_no_freeze(octets: &[u8], slave: &SlaveSpec) -> bool
    requires { 7 ≤ length octets.now }
    ensures { result ≡ (freeze_req octets.now && not slave.now.freeze) }
{
    is_set(FREEZE_REQ, octets[0]) && !slave.freeze
}

/// Appends a reason if it holds.
fn push_where(faults: &mut ArrayVec<PrmFault, MOST_FAULTS>, holds: bool, fault: PrmFault)
    requires { length faults.old.items < MOST_FAULTS }
    ensures faults { faults.new.items ≡ faults.old.items ++ fault_where holds fault }
    ensures few { length faults.new.items ≤ length faults.old.items + 1 }
{
    if holds {
        faults.push(fault);
    }
}

/// Returns whether the bit of this number is 1; bit 0 is the lowest.
pub(crate) const fn is_set(number: u32, octet: u8) -> bool
    requires { number < 8 }
    ensures { result ≡ is_set_of number octet }
{
    octet >> number & 1 == 1
}
