//! A law of the handle. No other function asks whether a handle may go to another thread, so without this law the check
//! would pass with no proof of the `unsafe impl` in `handle.rt`.

use crate::handle::Handle;

/// Has a bound and does nothing: only a type that may go to another thread meets it.
fn needs_send<T: Send>() {}

/// A handle, open or closed, may go to another thread, with the rack that it owns.
pub fn a_handle_may_go_to_another_thread() {
    needs_send::<Handle>();
}
