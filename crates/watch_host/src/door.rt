//! The door of the page: its threads wait behind it until the page may be served.

use std::sync::atomic::{AtomicBool, Ordering};
use std::sync::{Mutex, Wait};

/// The door before which the threads that serve connections wait.
#[derive(Drop)]
pub(crate) struct Door {
    /// The door is shut while this is locked.
    pub(crate) lock: Mutex<()>,
    has_ended: AtomicBool,
}

impl Door {
    /// Returns a door that is open.
    pub(crate) fn new() -> Door {
        Door {
            lock: Mutex::new(()),
            has_ended: AtomicBool::new(false),
        }
    }

    /// Waits until the door is open.
    pub(crate) fn wait<W: Wait>(&self, rt: &W) {
        drop(self.lock.lock(rt));
    }

    /// Ends the page: no further connection is served.
    pub(crate) fn end(&self) {
        self.has_ended.store(true, Ordering::SeqCst);
    }

    /// Returns whether the page has ended.
    pub(crate) fn has_ended(&self) -> bool {
        self.has_ended.load(Ordering::SeqCst)
    }
}
