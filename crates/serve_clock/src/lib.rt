//! Advances the time of a served line: it decides how many units pass and what is due at a moment, ticks the line and
//! steps its devices; it starts no threads and does not read the host's clock.
//!
//! [`LineClock`] is the clock of a line that threads share. It sends ticks by the time that has passed, and steps of
//! the devices. It is an operator of the line: it has a pass of its own, and its events are in the journal as those of
//! any other operator.
//!
//! [`LineTime`] says how far the time advances at a moment, and [`Schedule`] what is due at regular times. Moments are
//! values, in milliseconds from the start. Neither waits or allocates memory.
#![tactic(auto)]

mod beat;
mod counted_units;
pub mod laws;
mod line_clock;
mod line_time;
mod schedule;
pub mod sharing;
mod ticker;

pub use beat::Beat;
pub use line_clock::LineClock;
pub use line_time::{Advance, LineTime, units_passed};
pub use schedule::{Due, Schedule};
pub use ticker::{Ticked, Ticker};
