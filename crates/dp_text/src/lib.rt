//! The texts of numbers, octets, events and answers that several crates read and write; it has no text of a whole file,
//! and takes no memory.
//!
//! Nothing in this crate allocates memory: words are borrowed from their line, and a [`Text`] has room for the
//! longest text.
#![tactic(auto)]

mod events;
mod hex_words;
pub mod laws;
mod number;
mod op_line;
mod operator_line;
mod ops;
mod output;
mod text;
mod texts;
mod words;

pub use events::{event_in, octets_in};
pub use hex_words::HexWords;
pub use number::{number_in, octet_in, only_octet_in};
pub use op_line::{OpLine, OpLineKind, TextFault, op_line_in, op_line_into, read_op};
pub use operator_line::{LONGEST_LINE, LineFault, read_line};
pub use ops::{HexCase, op_in};
pub use output::{WriteFault, write_whole};
pub use text::{LONGEST, Text};
pub use words::{Lines, Words, is_text};
