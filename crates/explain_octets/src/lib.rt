//! Puts a PROFIBUS DP telegram into words, from its octets only (IEC 61158-4-3 and IEC 61158-6-3); it knows no line, no
//! slave and no event.
//!
//! [`ReadOctets`] judges octets once. For those of a request, [`Kind`] shows the frame and its function, and
//! [`Contents`] the data. [`Reply`] shows the data of a reply. The words that these use, such as [`Hex`], are public
//! for other texts about telegrams. Contracts see the text that each of them displays. Nothing here allocates memory or
//! copies a frame.
//!
//! It is a crate of its own, so that these words can be used without a line, and so that the merge gate proves it
//! beside dp_line.
#![tactic(auto)]

mod blocks;
mod commands;
mod configurations;
mod contents;
mod diagnoses;
mod dp_v1;
mod faults;
mod kinds;
mod parameters;
mod points;
mod read_octets;
mod replies;
mod words;

pub use configurations::first_identifier;
pub use contents::Contents;
pub use faults::WrongEndWords;
pub use kinds::Kind;
pub use points::{Dsap, service, unsimulated};
pub use read_octets::ReadOctets;
pub use replies::Reply;
pub use words::{CapitalPair, Flag, Groups, Hex, HexPair, Names};
