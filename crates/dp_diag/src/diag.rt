//! The diagnosis data that a slave stores.

ghost use Rattle.std.specs.Prelude.{◌≡◌};
ghost use Rattle.dp_diag.specs.Diagnosis.{is_due_high, no_diagnosis, reported};

use arrayvec::ArrayVec;

/// The greatest number of octets of extended diagnosis (IEC 61158-6-3, Slave_Diag response).
pub const MOST_EXTENDED: usize = 238;

/// The diagnosis data that a slave stores: what its application reported last, and its faults.
#[derive(Clone, Debug, Default, Drop, PartialEq, Eq)]
pub struct Diag {
    /// Ext_Diag: the extended octets report a fault, and not only a state.
    pub ext: bool,
    /// Stat_Diag: the application has no valid data to give, and the master asks for the diagnosis
    /// until this is false.
    pub stat: bool,
    /// Ext_Diag_Overflow: there was more to report than the extended octets hold.
    pub overflow: bool,
    /// Extended diagnosis, 0 to 238 octets.
    pub octets: ArrayVec<u8, MOST_EXTENDED>,
    /// The holder has not asked for the diagnosis since it was reported (own).
    pub unread: bool,
    /// Prm_Fault: the last parameters were refused.
    pub prm_fault: bool,
    /// Cfg_Fault: the last configuration was refused.
    pub cfg_fault: bool,
    /// Not_Supported: the master asked for a function that the slave does not have.
    pub not_supported: bool,
}

impl Diag {
    /// Returns what a slave starts with: no fault, no diagnosis, and nothing unread (own).
    pub fn new() -> Diag
        ensures { result ≡ no_diagnosis }
    {
        Diag::default()
    }

    /// Stores a report of the application: Ext_Diag, Stat_Diag, Ext_Diag_Overflow and the extended
    /// octets (IEC 61158-6-3, Slave_Diag response). The diagnosis is unread then, and the three
    /// faults stay (own).
    ///
    /// A report is passed as three flags and octets, here and by its callers: a record would be
    /// built and taken apart again at each of three calls.
    pub fn update(
        &mut self,
        ext: bool,
        stat: bool,
        overflow: bool,
        octets: &ArrayVec<u8, MOST_EXTENDED>,
    )
        ensures { self.new ≡ reported self.old ext stat overflow octets.now.items }
    {
        self.ext = ext;
        self.stat = stat;
        self.overflow = overflow;
        self.octets.clear();
        self.octets.try_extend_from_slice(octets).unwrap();
        self.unread = true;
    }

    /// Returns whether the next reply to Data_Exchange has high priority, so that the master asks
    /// for the diagnosis: exactly while it is unread or Stat_Diag is set (own).
    pub const fn due_high(&self) -> bool
        ensures { result ≡ is_due_high self.now }
    {
        self.unread || self.stat
    }
}
