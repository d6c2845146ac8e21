//! The commands of rackd that are clients of a port: `operate`, and `cable`, which is also a server of its own port; it serves
//! no rack, which serve_rack does.
#![tactic(auto)]

mod cable;
mod operate;
mod stand_ins;

pub use cable::run_cable;
pub use operate::operate_line;
