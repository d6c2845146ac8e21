//! Has the rows of places and times that lie beside an audit text, and gives the time of the clock at which an entry was
//! recorded (own); it reads no clock and opens no files.
//!
//! A [`TimeRow`] has the place of an entry and its time. Few entries have a row. [`EntryTimes`] has the rows of a text, and
//! gives the time of any place between its first and its last row: that of the row, or one that is interpolated between two
//! rows by place. The definitions are in `specs/`, and what follows from them is in [`laws`].
#![tactic(auto)]

mod entry_time;
mod entry_times;
pub mod laws;
mod time_of_day;
mod time_row;
mod times_fault;

pub use entry_time::EntryTime;
pub use entry_times::EntryTimes;
pub use time_of_day::TimeOfDay;
pub use time_row::{TimeRow, TimesHeader, read_header, read_row};
pub use times_fault::TimesFault;
