//! Lists of records that masters own, threaded through the records by index, oldest first; it knows nothing of PROFIBUS.
//!
//! A client's record has [`Links`] and implements [`Linked`]. [`Owners`] has the ends of the lists,
//! and a [`Cursor`] walks along one. `IsThreaded` in `specs/Threaded` defines when lists are
//! threaded. The contracts hold for all lists that are threaded so, and [`laws`] shows that each
//! master has only one such list.
//!
//! The contracts don't name a function that computes the list, because that would put the walk over
//! the links into the proofs of each client.
#![tactic(auto)]

mod cursor;
pub mod laws;
mod links;
mod owners;

pub use cursor::Cursor;
pub use links::{Linked, Links};
pub use owners::{MOST_MASTERS, MOST_RECORDS, Owners};
