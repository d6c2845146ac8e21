//! Writes the followed lines of a rack as the JSON that its page reads: each line with its masters, its slaves and its
//! entries; it reads no audit text and answers no requests.
//!
//! [`RackJson`] is the whole answer. Each entry is the line of JSON that `explain_texts` writes of it.
#![tactic(auto)]

mod entries;
mod lines;
mod masters;
mod racks;
mod slave;
mod slave_data;
mod slaves;
mod values;

pub use racks::RackJson;
