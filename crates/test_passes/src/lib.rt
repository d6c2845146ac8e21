//! Clients of sessions and passes that rely on public contracts only, and tests of calls of `dp_shared` and
//! `dp_sessions` that the program doesn't make; it has only tests and opens no sockets.
//!
//! The clients are in [`threads`], [`pools`], [`tied`], [`returned_pass`], [`hand_backs`] and [`lent`]. Their contracts say what was
//! read and written, and what is in the journal, if they succeed. So each is run with values once or twice, to show that it
//! succeeds: its test compares the numbers of reads, octets and entries. `test_sessions_that_their_clients_end` of
//! `tests/serve/test_ends.py` compares all octets and entries of these sessions over sockets.
//!
//! The other calls are in [`agreement`], [`claims`], [`passes`] and [`faults`].
#![tactic(auto)]

#[cfg(test)]
mod agreement;
#[cfg(test)]
mod claims;
#[cfg(test)]
mod counting;
#[cfg(test)]
mod faults;
#[cfg(test)]
mod hand_backs;
#[cfg(test)]
mod lent;
#[cfg(test)]
mod passes;
#[cfg(test)]
mod pools;
#[cfg(test)]
mod returned_pass;
#[cfg(test)]
mod seats;
#[cfg(test)]
mod threads;
#[cfg(test)]
mod tied;
