//! Answers HTTP requests for the page that shows a rack, its style sheet, its script and its state as JSON; it opens no
//! sockets and knows nothing of lines.
//!
//! [`PageService`] answers each request that `http_server` has read. A [`StateSource`] returns the JSON text, and reads
//! the query by [`entries_after`]. The files of the page are constants, which `page/embed.py` writes.
#![tactic(auto)]

mod answer;
pub mod page;
mod query;
pub mod script;
mod service;
mod state_source;
pub mod style;
mod target;

pub use query::entries_after;
pub use service::PageService;
pub use state_source::StateSource;
pub use target::Target;
