//! Clients of slaves, of lines and of their parts that rely on public contracts only, and tests of what no program can
//! show of these; it starts no threads and opens no sockets.
//!
//! What lines answer is tested by the program, in `tests/line` and `tests/cli`. Here is what only a proof can show: that
//! the public contracts say enough.
#![tactic(auto)]

pub mod card_lists;
pub mod clients;
#[cfg(test)]
mod endless_books;
pub mod journal_clients;
#[cfg(test)]
mod names;
pub mod part_clients;
mod typed_values;
