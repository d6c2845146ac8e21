//! Accepts the connections of a served rack, reads and writes them, refuses web requests, and writes the file that
//! names the ports; it decodes no telegrams and no commands.
//!
//! A thread accepts the connections of a port (`accept`). A connection is read and written by streams that poll whether
//! serving has stopped (`connection`, `serve_phase`). A read fails if the octets begin like a web request, which a
//! browser sends to any port that a web page names (`screened`). Serving can stop with an input (`input_end`). The
//! ports in use are reported in a file (`ports_file`).
#![tactic(auto)]

mod accept;
mod connection;
mod input_end;
pub mod laws;
mod line_ports;
mod named_ports;
mod ports_file;
mod screen;
mod screened;
mod serve_phase;

pub use accept::Accept;
pub use connection::{Awaited, ConnectionReader, ConnectionWriter, SocketContext, open_connection};
pub use input_end::{InputEnd, stop_with_input};
pub use line_ports::LinePorts;
pub use ports_file::{replace_file, report_ports, text_of_ports};
pub use screened::Screened;
pub use serve_log::Client;
pub use serve_phase::{Phase, RackPorts, ServePhase};
