//! What a slave remembers of each master.

ghost use Rattle.std.specs.Prelude.{◌≡◌, ◌≤◌, ◌<◌, ◌==◌, ◌++◌, ◌∷◌, [], Some, find, length, map};
ghost use Rattle.std.specs.Option.{option_copied};
ghost use Rattle.dp_responder.specs.Memory.{master_after, no_memory, remembered_of, with_remembered};

use arrayvec::ArrayVec;
use dp_owners::MOST_MASTERS;
use dp_telegram::Octets;
use dp_telegram::function_code::{self, Function};
use std::marker::Model;

/// The last SRD of a master with FCV 1 or FCB 1 that was judged and was no repeat.
#[derive(Debug, Drop)]
pub struct Last {
    /// Its frame count bit.
    pub fcb: bool,
    /// The reply to it, 0 to 255 octets.
    pub reply: Octets,
}

impl Model for Last {
    ghost use Rattle.dp_responder.specs.Memory.{Remembered};

    ghost Value = { Remembered };

    ghost view = { λ l. record { fcb = l.fcb; reply = l.reply.items } };
}

/// A master, and what is remembered of it.
#[derive(Debug, Default, Drop)]
pub struct MasterEntry {
    /// Its address, 0 to 126.
    pub master: u8,
    /// What is remembered of it; `None` if nothing is.
    pub last: Option<Last>,
}

impl Model for MasterEntry {
    ghost use Rattle.dp_responder.specs.Memory.{MasterMemory};

    ghost Value = { MasterMemory };

    ghost view = { λ e. record { master = e.master; last = e.last } };
}

/// What a slave remembers of each master of its line: the frame count bit of the last SRD with FCV
/// 1 or FCB 1 that was judged and was no repeat, and the reply to it (own). Contracts see the
/// masters in their order, and what is remembered of each.
#[derive(Debug, Drop)]
pub struct FrameMemory {
    entries: ArrayVec<MasterEntry, MOST_MASTERS>,
}

impl Model for FrameMemory {
    ghost use Rattle.std.specs.Prelude.{List};
    ghost use Rattle.dp_responder.specs.Memory.{MasterMemory};

    ghost Value = { List MasterMemory };

    ghost view = { λ m. m.entries.items };
}

impl FrameMemory {
    /// Returns a memory of these masters, those of the line, in which nothing is remembered.
    pub fn new(masters: &ArrayVec<u8, MOST_MASTERS>) -> FrameMemory
        ensures { result ≡ no_memory masters.now.items }
    {
        let mut entries = ArrayVec::new();
        for master in masters.as_slice() {
            entries.push(MasterEntry {
                master: *master,
                last: None,
            });
        }
        FrameMemory { entries }
    }

    /// Returns a memory of no master, to which masters are appended.
    pub fn of_no_master() -> FrameMemory
        ensures { result ≡ [] }
    {
        FrameMemory {
            entries: ArrayVec::new(),
        }
    }

    /// Appends a master with what is remembered of it. Requires that it has fewer than 16 masters.
    pub fn push(&mut self, entry: MasterEntry)
        requires { length self.old < 16 }
        ensures { self.new ≡ self.old ++ entry ∷ [] }
    {
        self.entries.push(entry);
    }

    /// Returns the masters, in their order, each with what is remembered of it.
    pub fn entries(&self) -> &[MasterEntry]
        ensures { result.now ≡ self.now }
    {
        self.entries.as_slice()
    }

    /// Copies another memory into this one.
    pub fn copy_from(&mut self, other: &FrameMemory)
        ensures { self.new ≡ other.now }
    {
        self.entries = copied_entries(&other.entries);
    }

    /// Stores what a request of the sender leaves, for a request that was judged and was no repeat.
    /// `fc` is its function code, 0 to 255, and `reply` are the octets of the answer.
    ///
    /// An SRD with FCV 1, or with FCV 0 and FCB 1, leaves its FCB and the reply. An SRD with FCV 0
    /// and FCB 0 empties the memory of the sender. SDN and every other function leave the memory
    /// unchanged, and so does an address that is no master of the line. The memories of other
    /// masters stay (own).
    pub fn remember(&mut self, sender: u8, fc: u8, reply: &Octets)
        ensures { self.new ≡ with_remembered self.old sender fc reply.now.items }
    {
        remember_in(self.entries.as_mut_slice(), sender, fc, reply);
    }

    /// Returns what is remembered of the sender.
    pub(crate) fn last_of(&self, sender: u8) -> Option<&Last>
        ensures { option_copied result ≡ remembered_of self.now sender }
    {
        match entry_of(&self.entries, sender) {
            Some(entry) => entry.last(),
            None => None,
        }
    }
}

fn copied_entries(
    entries: &ArrayVec<MasterEntry, MOST_MASTERS>,
) -> ArrayVec<MasterEntry, MOST_MASTERS>
    ensures { result.items ≡ entries.now.items }
{
    let mut copies = ArrayVec::new();
    for entry in entries.as_slice() {
        copies.push(entry.copied());
    }
    copies
}

/// Returns the entry of the sender, if it is a master.
fn entry_of(entries: &[MasterEntry], sender: u8) -> Option<&MasterEntry>
    ensures { option_copied result ≡ find (λ m. m.master == sender) entries.now }
{
    entries.iter().find(|entry| entry.master == sender)
}

/// Stores what a request leaves in the sender's entry.
fn remember_in(entries: &mut [MasterEntry], sender: u8, fc: u8, reply: &[u8])
    requires { length reply.now ≤ 255 }
    ensures { entries.new ≡ map (master_after sender fc reply.now) entries.old }
{
    for entry in entries.iter_mut() {
        entry.remember(sender, fc, reply);
    }
}

impl MasterEntry {
    /// Returns a copy.
    fn copied(&self) -> MasterEntry
        ensures { result ≡ self.now }
    {
        MasterEntry {
            master: self.master,
            last: copied(&self.last),
        }
    }

    /// Returns what is remembered of the master.
    fn last(&self) -> Option<&Last>
        ensures { option_copied result ≡ self.now.last }
    {
        self.last.as_ref()
    }

    /// Stores what a request leaves, if its sender is this master.
    fn remember(&mut self, sender: u8, fc: u8, reply: &[u8])
        requires { length reply.now ≤ 255 }
        ensures { self.new ≡ master_after sender fc reply.now self.old }
    {
        if self.master != sender || !Function::from_fc(fc).is_srd() {
            return;
        }
        let fcb = function_code::fcb(fc);
        if fcb || function_code::fcv(fc) {
            keep(&mut self.last, fcb, reply);
        } else {
            self.last = None;
        }
    }
}

fn copied(last: &Option<Last>) -> Option<Last>
    ensures { result ≡ last.now }
{
    match last {
        Some(last) => Some(Last {
            fcb: last.fcb,
            reply: ArrayVec::try_from(last.reply.as_slice()).unwrap(),
        }),
        None => None,
    }
}

/// Remembers a request in place of the one before it, whose buffer it reuses for the reply.
fn keep(last: &mut Option<Last>, fcb: bool, reply: &[u8])
    requires { length reply.now ≤ 255 }
    ensures { last.new ≡ Some (record { fcb = fcb; reply = reply.now }) }
{
    match last {
        Some(last) => {
            last.fcb = fcb;
            last.reply.clear();
            last.reply.try_extend_from_slice(reply).unwrap();
        }
        None => {
            *last = Some(Last {
                fcb,
                reply: ArrayVec::try_from(reply).unwrap(),
            });
        }
    }
}
