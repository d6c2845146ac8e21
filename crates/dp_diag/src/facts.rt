//! What a diagnosis reports, and its octets.

ghost use Rattle.std.specs.Prelude.{◌≡◌, ◌^◌, ◌<◌, if◌then◌else◌};
ghost use Rattle.dp_diag.specs.DiagnosisText.{diagnosis_text, octet_of, station_status_1, station_status_2, station_status_3};
ghost use Rattle.dp_diag.specs.Lent.{facts_lent};

use crate::diag::Diag;
use arrayvec::ArrayVec;
use dp_sap::{MOST_DATA, State};

/// The address that stands for no master (IEC 61158-6-3, Slave_Diag response, Master_Add).
pub const NO_MASTER: u8 = 255;

/// All that the diagnosis of a slave reports (IEC 61158-6-3, Slave_Diag response).
#[derive(Clone, Debug, Drop, PartialEq, Eq)]
pub struct DiagFacts {
    /// The slave's state.
    pub state: State,
    /// The address of the master that holds the slave, 0 to 126, if one does.
    pub holder: Option<u8>,
    /// The slave's ident number.
    pub ident: u16,
    /// A watchdog runs.
    pub wd_on: bool,
    /// The slave is in freeze mode.
    pub freeze_mode: bool,
    /// The slave is in sync mode.
    pub sync_mode: bool,
    /// The diagnosis data that the slave stores. Whether it is unread is not reported.
    pub diag: Diag,
}

/// All that the diagnosis of a slave reports, with the stored diagnosis data lent. See
/// [`DiagFacts`].
#[derive(Clone, Copy, Debug, PartialEq, Eq)]
pub struct DiagFactsLent<'a> {
    /// See [`DiagFacts::state`].
    pub state: State,
    /// See [`DiagFacts::holder`].
    pub holder: Option<u8>,
    /// See [`DiagFacts::ident`].
    pub ident: u16,
    /// See [`DiagFacts::wd_on`].
    pub wd_on: bool,
    /// See [`DiagFacts::freeze_mode`].
    pub freeze_mode: bool,
    /// See [`DiagFacts::sync_mode`].
    pub sync_mode: bool,
    /// See [`DiagFacts::diag`].
    pub diag: &'a Diag,
}

/// Returns the octets of the diagnosis, 6 to 244 of them (IEC 61158-6-3, Slave_Diag response).
pub fn octets(facts: &DiagFacts) -> ArrayVec<u8, MOST_DATA>
    ensures { result.items ≡ diagnosis_text facts.now }
{
    let mut octets = ArrayVec::new();
    octets_into(facts, &mut octets);
    octets
}

/// Replaces `octets` with the octets of the diagnosis. See [`octets`].
pub fn octets_into(facts: &DiagFacts, octets: &mut ArrayVec<u8, MOST_DATA>)
    ensures { octets.new.items ≡ diagnosis_text facts.now }
{
    let facts = DiagFactsLent {
        state: facts.state,
        holder: facts.holder,
        ident: facts.ident,
        wd_on: facts.wd_on,
        freeze_mode: facts.freeze_mode,
        sync_mode: facts.sync_mode,
        diag: &facts.diag,
    };
    octets_lent_into(&facts, octets);
}

/// Replaces `octets` with the octets of a diagnosis whose [`Diag`] is lent. See [`octets`].
pub fn octets_lent_into(facts: &DiagFactsLent<'_>, octets: &mut ArrayVec<u8, MOST_DATA>)
    ensures { octets.new.items ≡ diagnosis_text (facts_lent facts.now) }
{
    let [ident_high, ident_low] = facts.ident.to_be_bytes();
    let head = [
        octet_1(facts),
        octet_2(facts),
        octet_3(facts),
        facts.holder.unwrap_or(NO_MASTER),
        ident_high,
        ident_low,
    ];
    octets.clear();
    octets.try_extend_from_slice(&head).unwrap();
    octets.try_extend_from_slice(&facts.diag.octets).unwrap();
}

/// Returns Station_status_1 (IEC 61158-6-3, Slave_Diag response).
#[tactic(auto, using(crate::proofs::Bits::or_station_status_1))]
fn octet_1(facts: &DiagFactsLent<'_>) -> u8
    ensures { result ≡ octet_of (station_status_1 (facts_lent facts.now)) }
{
    bit(1, facts.state != State::DataExch)
        | bit(2, facts.diag.cfg_fault)
        | bit(3, facts.diag.ext)
        | bit(4, facts.diag.not_supported)
        | bit(6, facts.diag.prm_fault)
}

/// Returns Station_status_2 (IEC 61158-6-3, Slave_Diag response).
#[tactic(auto, using(crate::proofs::Bits::or_station_status_2))]
fn octet_2(facts: &DiagFactsLent<'_>) -> u8
    ensures { result ≡ octet_of (station_status_2 (facts_lent facts.now)) }
{
    bit(0, facts.state == State::WaitPrm)
        | bit(1, facts.diag.stat)
        | bit(2, true)
        | bit(3, facts.wd_on)
        | bit(4, facts.freeze_mode)
        | bit(5, facts.sync_mode)
}

/// Returns Station_status_3 (IEC 61158-6-3, Slave_Diag response).
fn octet_3(facts: &DiagFactsLent<'_>) -> u8
    ensures { result ≡ octet_of (station_status_3 (facts_lent facts.now)) }
{
    bit(7, facts.diag.overflow)
}

/// Returns an octet in which only this bit, 0 to 7, is 1 if the flag is set; 0 if it is not.
fn bit(number: u32, flag: bool) -> u8
    requires { number < 8 }
    ensures { result ≡ (if flag then 2 ^ number else 0) }
{
    u8::from(flag) << number
}
