//! Follows the audit texts of the lines of a rack for its page, and stores of each line its state, its last entries and
//! the last notable ones; it opens no files and answers no requests.
//!
//! A [`WatchedLine`] takes the rows of its text one after another. It checks and explains them by the [`Follower`] of
//! `explain_texts`, and stores the line of JSON of each entry: the last 300, and of those before them the last 120 that
//! are a fault of the bus or changed a slave. So its memory doesn't grow with the text.
//!
//! [`Follower`]: explain_texts::Follower
#![tactic(auto)]

mod kept_entries;
mod kept_entry;
mod text_verdict;
mod watched_line;
mod watched_rack;

pub use kept_entries::{KeptEntries, MOST_NOTABLE, MOST_RECENT};
pub use kept_entry::KeptEntry;
pub use text_verdict::TextVerdict;
pub use watched_line::WatchedLine;
pub use watched_rack::WatchedRack;
