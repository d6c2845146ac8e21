//! The result of a Set_Prm in words.

ghost use Rattle.std.specs.Prelude.{◌≡◌, Some};
ghost use Rattle.explain_events.specs.DoneWords.{beside_unlock_words, held_words, locked_again_text, low_tsdr_words, prm_done_text, unlocked_text, without_lock_words};
ghost use Rattle.explain_events.specs.Services.{released_words, wrong_prm_text};

use crate::at_slave::RequestAtSlave;
use crate::done::{PrmDone, is_low_tsdr};
use crate::prm_fault::{PrmFault, PrmFaults, prm_faults};
use crate::words::SinceWords;
use std::fmt;

/// Returns the end of the sentence about wrong octets, which says that the slave is released if somebody held it.
pub(crate) fn released_name(holder: Option<u8>) -> &'static str
    ensures { result.now ≡ released_words holder }
{
    match holder {
        None => ".",
        Some(_) => ". Released.",
    }
}

/// The result of wrong parameters.
#[derive(Clone, Copy)]
struct WrongPrm<'a> {
    holder: Option<u8>,
    faults: &'a [PrmFault],
}

impl<'a> fmt::Display for WrongPrm<'a> {
    ghost output = { λ s. Some (wrong_prm_text s.holder s.faults.now) };

    fn fmt<W: fmt::Write>(&self, f: &mut fmt::Formatter<W>) -> fmt::Result {
        let faults = PrmFaults(self.faults);
        let released = released_name(self.holder);
        write!(f, "wrong parameters: {faults}{released}")
    }
}

/// The words that a master holds a slave.
#[derive(Clone, Copy)]
struct HeldWords {
    master: u8,
    address: u8,
}

impl fmt::Display for HeldWords {
    ghost output = { λ s. Some (held_words s.master s.address) };

    fn fmt<W: fmt::Write>(&self, f: &mut fmt::Formatter<W>) -> fmt::Result {
        let master = self.master;
        let address = self.address;
        write!(f, "master {master} holds slave {address}")
    }
}

/// Returns what else is to be said of min TSDR, by the octet that was sent; an empty text if it is not below 11.
fn low_tsdr(octet: u8) -> &'static str
    ensures { result.now ≡ low_tsdr_words octet }
{
    if is_low_tsdr(octet) {
        " Min TSDR is below 11."
    } else {
        ""
    }
}

/// Returns what else is to be said of an unlock; an empty text if Lock_Req was not sent too.
fn beside_unlock(locks: bool) -> &'static str
    ensures { result.now ≡ beside_unlock_words locks }
{
    if locks {
        " Lock_Req does nothing beside Unlock_Req."
    } else {
        ""
    }
}

/// Returns what else is to be said of a Set_Prm without Lock_Req; an empty text if somebody holds the slave.
fn without_lock(holder: Option<u8>) -> &'static str
    ensures { result.now ≡ without_lock_words holder }
{
    match holder {
        None => " Lock_Req is missing: nobody holds the slave.",
        Some(_) => "",
    }
}

/// The result of a Set_Prm that unlocked the slave.
#[derive(Clone, Copy)]
struct Unlocked {
    address: u8,
    holder: Option<u8>,
}

impl fmt::Display for Unlocked {
    ghost output = { λ s. Some (unlocked_text s.address s.holder) };

    fn fmt<W: fmt::Write>(&self, f: &mut fmt::Formatter<W>) -> fmt::Result {
        let address = self.address;
        match self.holder {
            None => write!(f, "unlocked: nobody held slave {address}."),
            Some(_) => write!(f, "unlocked: slave {address} is released."),
        }
    }
}

/// The result of a Set_Prm of the master that holds the slave since an entry.
#[derive(Clone, Copy)]
struct LockedAgain {
    address: u8,
    master: u8,
    since: u32,
}

impl fmt::Display for LockedAgain {
    ghost output = { λ s. Some (locked_again_text s.address s.master s.since) };

    fn fmt<W: fmt::Write>(&self, f: &mut fmt::Formatter<W>) -> fmt::Result {
        let held = HeldWords {
            master: self.master,
            address: self.address,
        };
        let since = SinceWords(self.since);
        write!(f, "locked again: {held}{since}")
    }
}

/// The result of a Set_Prm.
#[derive(Clone, Copy)]
pub(crate) struct PrmWords<'a> {
    pub(crate) done: PrmDone,
    /// The request, which lends its data and the description of the slave.
    pub(crate) at_slave: &'a RequestAtSlave<'a>,
}

impl<'a> fmt::Display for PrmWords<'a> {
    ghost output = { λ s. Some (prm_done_text s.at_slave.now s.done) };

    fn fmt<W: fmt::Write>(&self, f: &mut fmt::Formatter<W>) -> fmt::Result {
        match self.done {
            PrmDone::Wrong { released } => {
                let at_slave = self.at_slave;
                let faults = prm_faults(at_slave.parts.payload(), at_slave.description);
                let wrong = WrongPrm {
                    holder: released,
                    faults: faults.as_slice(),
                };
                write!(f, "{wrong}")
            }
            PrmDone::Unlocked {
                address,
                holder,
                locks,
            } => {
                let unlocked = Unlocked { address, holder };
                let beside = beside_unlock(locks);
                write!(f, "{unlocked}{beside}")
            }
            PrmDone::Locked {
                address,
                master,
                min_tsdr,
            } => {
                let held = HeldWords { master, address };
                let low = low_tsdr(min_tsdr);
                write!(f, "locked: {held}.{low}")
            }
            PrmDone::LockedAgain {
                address,
                master,
                since,
                min_tsdr,
            } => {
                let again = LockedAgain {
                    address,
                    master,
                    since,
                };
                let low = low_tsdr(min_tsdr);
                write!(f, "{again}{low}")
            }
            PrmDone::MinTsdrSet {
                holder,
                min_tsdr,
                ..
            } => {
                let lock = without_lock(holder);
                let low = low_tsdr(min_tsdr);
                write!(f, "done: min TSDR is {min_tsdr}.{lock}{low}")
            }
            PrmDone::MinTsdrStays {
                holder,
                min_tsdr,
                ..
            } => {
                let lock = without_lock(holder);
                write!(f, "done: min TSDR stays {min_tsdr}.{lock}")
            }
        }
    }
}
