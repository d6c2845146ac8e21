//! A rack in process: a program calls its lines instead of connecting to them; it opens no files or sockets, starts no
//! threads and reads no clock.
//!
//! [`EmbeddedRack::open`] opens the rack that a text describes. The other calls take a telegram or octets of a master, a
//! line of an operator or the passing of time, and give the answer that a served rack gives. So the same calls give the
//! same answers. A script uses the lines ([`EmbeddedLine`]) on its own.
//!
//! Only the calls that open a rack or a line or explain an entry take memory, and [`set_cause`].
#![tactic(auto)]

mod asking;
mod call_fault;
mod cause;
mod device_steps;
mod embedded_line;
mod embedded_rack;
mod entry_reason;
mod obey_fault;
mod output;
mod replay;
mod result_row;
mod stream;
pub mod stream_laws;
mod taken_piece;

pub use call_fault::CallFault;
pub use cause::set_cause;
pub use embedded_line::EmbeddedLine;
pub use embedded_rack::EmbeddedRack;
pub use entry_reason::{EntryReason, ReasonFault};
pub use obey_fault::ObeyFault;
pub use output::write_whole;
pub use taken_piece::TakenPiece;
