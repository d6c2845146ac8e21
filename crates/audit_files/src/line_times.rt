//! The times of the entries of a line that are not written yet.

ghost use Rattle.std.specs.Prelude.{◌≡◌};
ghost use Rattle.audit_files.specs.LineTimes.{noted_with};

use crate::audit_name::AuditName;
use entry_times::TimeRow;
use std::sync::{Mutex, Wait};

/// The place and the time of an entry, and the file of the audit text that has the entry.
#[derive(Clone, Copy)]
pub(crate) struct Recorded {
    pub(crate) name: AuditName,
    pub(crate) row: TimeRow,
}

/// The first and the last of the entries that were recorded since the times of their line were written last.
#[derive(Clone, Copy)]
pub(crate) struct Noted {
    pub(crate) first: Recorded,
    pub(crate) last: Recorded,
}

/// The first and the last entry of a line whose times are not written yet. A thread that records an entry notes it, and another
/// takes what was noted and writes it to a file. Nothing is written while one of them holds the lock.
#[derive(Drop)]
pub struct LineTimes {
    noted: Mutex<Option<Noted>>,
}

impl LineTimes {
    /// Returns that nothing was noted.
    pub(crate) fn new() -> LineTimes {
        LineTimes {
            noted: Mutex::new(None),
        }
    }

    /// Notes an entry. It is behind those that were noted before.
    pub(crate) fn note<W: Wait>(&self, rt: &W, recorded: Recorded) {
        let mut noted = self.noted.lock(rt);
        *noted = Some(noted_with(*noted, recorded));
    }

    /// Takes what was noted since the last call.
    pub(crate) fn take<W: Wait>(&self, rt: &W) -> Option<Noted> {
        let mut noted = self.noted.lock(rt);
        let taken = *noted;
        *noted = None;
        taken
    }
}

/// Returns what is noted once an entry is added to it.
fn noted_with(noted: Option<Noted>, recorded: Recorded) -> Noted
    ensures { result ≡ noted_with noted recorded }
{
    match noted {
        None => Noted {
            first: recorded,
            last: recorded,
        },
        Some(noted) => Noted {
            first: noted.first,
            last: recorded,
        },
    }
}
