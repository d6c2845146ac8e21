//! Captures an audit text for Wireshark and tshark: it checks the text row by row and writes its requests and replies
//! as the packets of a file; it opens no files and dissects no telegram.
//!
//! [`run_capture`] checks each row as a check does, so its memory does not grow with the text. A packet's comment has
//! the place of its entry, the rule, and the sentence of its explanation: the rows of the entry are written by a
//! [`Follower`](explain_texts::Follower), and the comment is made of them. The outcome, with the reply, is that of a
//! line which takes the same rows.
//!
//! A [`Capture`] gathers the blocks of a file in the format pcapng ("PCAP Next Generation Capture File Format", an IETF
//! draft): a section header, an interface for each line, and packets. The octets are in little-endian order. A packet
//! has link type 252, which is a PDU that was exported by an upper layer: its data begins with the name of the
//! dissector, `fdl`, and then has the octets of a telegram. So a reader needs no setting to find the dissector.
//!
//! Contracts see the octets. [`laws`] says that a reader who cuts a capture by the lengths in it gets its blocks, and
//! of the packets their telegrams.
#![tactic(auto)]

mod bodies;
mod capture;
mod capturing;
mod comments;
mod entries;
pub mod laws;
mod opening;
mod options;
mod packet;
mod packets;
mod row_fault;

pub use capture::Capture;
pub use capturing::run_capture;
pub use packet::{Direction, Packet};
