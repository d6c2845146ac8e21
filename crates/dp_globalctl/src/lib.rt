//! Global_Control on one slave (IEC 61158-6-3, Global_Control request): what its two octets ask for, which groups it
//! selects and what it changes; it doesn't go through the slaves of a line.
#![tactic(auto)]

mod command;

pub use command::Command;
