//! What a parameter telegram means, with its user parameters lent in place.

ghost use Rattle.std.specs.Prelude.{◌≡◌, ◌≤◌, length};
ghost use Rattle.dp_prm.specs.Meaning.{most_user_parameters};
ghost use Rattle.dp_prm.specs.Lent.{prm_lent};

use crate::prm::Prm;
use arrayvec::ArrayVec;

/// The parameters that an accepted locking request sets, with the user parameters lent. See
/// [`Prm`].
#[derive(Clone, Copy, Debug, PartialEq, Eq)]
pub struct PrmLent<'a> {
    /// See [`Prm::watchdog`].
    pub watchdog: Option<u32>,
    /// See [`Prm::sync_req`].
    pub sync_req: bool,
    /// See [`Prm::freeze_req`].
    pub freeze_req: bool,
    /// See [`Prm::min_tsdr`].
    pub min_tsdr: u8,
    /// See [`Prm::group`].
    pub group: u8,
    /// The octets of the telegram after its first seven. See [`Prm::user`].
    pub user: &'a [u8],
}

/// What a parameter telegram means, with the user parameters of a lock lent. See
/// [`PrmVerdict`](crate::PrmVerdict).
#[derive(Clone, Copy, Debug, PartialEq, Eq)]
pub enum PrmVerdictLent<'a> {
    /// See [`PrmVerdict::MinTsdr`](crate::PrmVerdict::MinTsdr).
    MinTsdr(u8),
    /// See [`PrmVerdict::Unlock`](crate::PrmVerdict::Unlock).
    Unlock,
    /// See [`PrmVerdict::Lock`](crate::PrmVerdict::Lock).
    Lock(PrmLent<'a>),
    /// See [`PrmVerdict::Fault`](crate::PrmVerdict::Fault).
    Fault {
        /// It is a locking request for Sync or Freeze, which the slave does not support.
        not_supported: bool,
    },
}

impl PrmLent<'_> {
    /// Returns the same parameters with a copy of the user parameters, which are at most 237
    /// octets.
    pub fn kept(&self) -> Prm
        requires { length self.now.user.now ≤ most_user_parameters }
        ensures { result ≡ prm_lent self.now }
    {
        let mut prm = Prm {
            watchdog: self.watchdog,
            sync_req: self.sync_req,
            freeze_req: self.freeze_req,
            min_tsdr: self.min_tsdr,
            group: self.group,
            user: ArrayVec::new(),
        };
        prm.user.try_extend_from_slice(self.user).unwrap();
        prm
    }

    /// Stores the same parameters in `prm`. The user parameters are at most 237 octets. See
    /// [`PrmLent::kept`].
    pub fn keep_in(&self, prm: &mut Prm)
        requires { length self.now.user.now ≤ most_user_parameters }
        ensures { prm.new ≡ prm_lent self.now }
    {
        prm.watchdog = self.watchdog;
        prm.sync_req = self.sync_req;
        prm.freeze_req = self.freeze_req;
        prm.min_tsdr = self.min_tsdr;
        prm.group = self.group;
        prm.user.clear();
        prm.user.try_extend_from_slice(self.user).unwrap();
    }
}
