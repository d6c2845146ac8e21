//! Reports on standard error what happens while a rack is served, by a queue for which no session waits; it writes no
//! audit text.
//!
//! The rows of [`Notes`] have the form of the crate `log`, with the time of day. Their texts are not specified; tests
//! show them. A [`RowQueue`] is the log of the host, and has a thread that writes its rows.
#![tactic(auto)]

mod client;
mod delays;
mod dropped_rows;
mod escaped;
mod noted;
mod notes;
mod queue;
mod row;
mod row_limit;
mod session_notes;
mod time_of_day;

pub use client::Client;
pub use escaped::{Escaped, is_escaped};
pub use noted::{LineNumbers, MOST_OPERATORS};
pub use notes::Notes;
pub use queue::{QueueFault, RowQueue, Written, start};
