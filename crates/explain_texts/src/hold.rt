//! A hold of a slave.

use explain_events::Ending;

/// A hold of a slave by a master: from which entry to which, and how it ended (own).
#[derive(Clone, Copy)]
pub struct Hold {
    /// The address of the slave, 0 to 126.
    pub address: u8,
    /// The address of the master, 0 to 126.
    pub master: u8,
    /// The place of the entry with which it began, from 1.
    pub since: u32,
    /// The place of the entry that ended it; None if it lasts.
    pub place: Option<u64>,
    pub ending: Ending,
}
