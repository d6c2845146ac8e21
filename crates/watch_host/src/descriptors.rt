//! The descriptors that the page needs.
//!
//! They are held by duplicates of its listener until it is served. So a check of the descriptors that the rack needs,
//! which is made meanwhile, does not count those of the page as free.

use crate::watch::WORKERS;
use crate::watch_fault::WatchFault;
use std::alloc::Global;
use std::net::TcpListener;
use system_errors::Cause;

/// Descriptors that are held for the page. They are free again once this is dropped.
#[derive(Drop)]
pub(crate) struct HeldDescriptors {
    held: Vec<TcpListener>,
}

impl HeldDescriptors {
    /// Holds the descriptors that the page of this number of lines needs, by this listener, which has this port: one for
    /// each connection that is served at one time, one for the audit text of each line, and one for the folder or the next
    /// text of a line.
    ///
    /// Returns `CannotListen` if there are too few descriptors, or `OutOfMemory`. No descriptor is held then.
    pub(crate) fn hold(
        alloc: Global,
        listener: &TcpListener,
        port: u16,
        lines: usize,
    ) -> Result<HeldDescriptors, WatchFault> {
        let mut held = Vec::new(alloc);
        for _ in 0..lines.saturating_add(WORKERS + 1) {
            match listener.try_clone() {
                Ok(descriptor) => held.push(descriptor)?,
                Err(error) => {
                    return Err(WatchFault::CannotListen(port, Cause::from_error(&error)));
                }
            }
        }
        Ok(HeldDescriptors { held })
    }

    /// Returns how many descriptors are held.
    pub fn count(&self) -> usize {
        self.held.len()
    }
}
