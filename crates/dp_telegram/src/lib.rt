//! Decodes octets into FDL telegrams of PROFIBUS (IEC 61158-4-3), encodes telegrams into octets and cuts a stream into
//! frames; it gives no telegram a meaning beyond its function code and its access points.
//!
//! A [`Frame`] is the content of the text of one frame. [`decode`] reads the text of one whole
//! frame, and [`encode`] writes one. [`Telegram::parts`] splits a data unit into access points and
//! payload, and [`request`] builds a telegram from its parts. A [`Cutter`] cuts a stream, fed in
//! pieces of any size, into frames and dropped octets. [`WholeFrame`] and [`TelegramLent`] read
//! frames in place.
#![tactic(auto)]

mod access;
mod address;
mod bad_end;
mod cutter;
mod decoding;
mod delimiter;
mod encoding;
mod fault;
mod frame;
pub mod function_code;
pub mod laws;
mod lent;
pub mod stream_laws;

pub use access::{Parts, request};
pub use address::{ADDRESS_BITS, GLOBAL_ADDRESS, LAST_STATION, is_station};
pub use bad_end::{WrongEnd, wrong_end};
pub use cutter::{Cut, Cutter, Piece};
pub use decoding::decode;
pub use delimiter::SC;
pub use encoding::{DataReply, acknowledge_into, encode};
pub use fault::FrameFault;
pub use frame::{Frame, MOST_OCTETS, Octets, Telegram};
pub use function_code::Function;
pub use lent::{FrameLent, PartsLent, TelegramLent, WholeFrame};
