//! The static library of a rack in process for programs in C: a handle of a rack, and the functions that `rackd.h`
//! declares; it decides nothing about lines, which embedded_rack does.
//!
//! A C program keeps a [`Handle`], which owns a rack while it is open. Nothing is checked behind pointers: the contracts
//! hold for callers that meet each `requires` and keep the rules of the header.
#![tactic(auto)]

mod answer;
mod done_facts;
mod facts;
mod handle;
pub mod laws;
mod names;
mod opening;
mod operating;
mod parts;
mod reasons;
mod telegrams;
mod text_out;

pub use facts::Facts;
pub use handle::Handle;
pub use names::{rackd_rule_name, rackd_version};
pub use opening::{rackd_cause, rackd_close, rackd_open};
pub use operating::{rackd_entries, rackd_operate, rackd_row, rackd_tick};
pub use reasons::rackd_why;
pub use telegrams::{rackd_feed, rackd_next, rackd_request};
