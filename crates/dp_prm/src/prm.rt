//! Parameters, and the meaning of a parameter telegram.

use arrayvec::ArrayVec;

/// The greatest number of octets of user parameters: those of a parameter telegram without its
/// first seven (IEC 61158-6-3, Set_Prm request, User_Prm).
pub const MOST_USER_PARAMETERS: usize = 237;

/// The parameters that an accepted locking request sets (IEC 61158-6-3, Set_Prm request).
#[derive(Clone, Debug, Drop, PartialEq, Eq)]
pub struct Prm {
    /// The watchdog time, 1 to 65,025 units of 10 ms; `None` if WD_On is 0.
    pub watchdog: Option<u32>,
    /// Sync_Req: the master asks to use Sync.
    pub sync_req: bool,
    /// Freeze_Req: the master asks to use Freeze.
    pub freeze_req: bool,
    /// Min TSDR in bit times; 0 leaves the slave's value unchanged.
    pub min_tsdr: u8,
    /// Group_Ident: a bit for each group that the slave belongs to.
    pub group: u8,
    /// User_Prm: the user parameters, 0 to 237 octets.
    pub user: ArrayVec<u8, MOST_USER_PARAMETERS>,
}

/// What a parameter telegram means (IEC 61158-6-3, Set_Prm request).
#[derive(Clone, Debug, Drop, PartialEq, Eq)]
pub enum PrmVerdict {
    /// Neither Lock_Req nor Unlock_Req: only min TSDR is set, in bit times; 0 leaves it unchanged.
    MinTsdr(u8),
    /// Unlock_Req: the slave is released, whatever Lock_Req is.
    Unlock,
    /// Lock_Req without Unlock_Req: the slave is locked with these parameters.
    Lock(Prm),
    /// The telegram is refused.
    Fault {
        /// It is a locking request for Sync or Freeze, which the slave does not support.
        not_supported: bool,
    },
}
