//! Follows the audit texts of a rack in a folder and serves the page that shows them on 127.0.0.1, with threads, files
//! and sockets; it writes no file and sends nothing to a line.
//!
//! One thread reads the texts ([`following`]): it takes the rows of each line in turn, under the lock of what the page
//! shows. Sixteen threads accept connections at one listener, and each serves one connection at a time
//! ([`connections`]). So the number of connections that are served is bounded, and nothing waits in a queue of the
//! program. Its threads have started, and its descriptors are held (`descriptors`), before anything is served.
//!
//! [`following`]: crate::following
//! [`connections`]: crate::connections
#![tactic(auto)]

mod connections;
mod descriptors;
mod door;
mod following;
mod found_texts;
mod host;
mod line_text;
mod opening;
mod part_rows;
mod processor_share;
mod served_page;
mod shared_rack;
mod text_file;
mod watch;
mod watch_fault;

pub use host::{PageHost, WatchHost};
pub use opening::watch_text;
pub use served_page::{OpeningOutput, ServedPage, ShutPage, StartingPage, open_served_page};
pub use watch_fault::WatchFault;
