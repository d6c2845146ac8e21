//! The word `capture`.

use crate::arguments::{AUDIT_FILES, RACK_FILE, Word};
use crate::help::Help;

/// The help of `capture`.
const HELP: Help = Help {
    about: "Write the telegrams of an audit text for Wireshark (pcapng)",
    usage: "\
rackd capture RACK AUDIT.. > FILE.pcapng
       rackd capture --help",
    details: "\
Standard output, which must not be a terminal, gets a packet for each request, reply and event of
the operator. The comment of a packet has its place, its rule and the sentence of 'explain'. The
text is checked on the way, and captured to its first wrong line; the exit status is that of
'check'.

The file share/fdl.lua has Wireshark show telegrams field by field.

Examples:
  rackd capture examples/audit-rack.toml examples/audit.txt > audit.pcapng
  tshark -r audit.pcapng -Y 'frame.comment contains \"NotHolder\"'",
};

/// The word `capture`, with a rack and an audit text.
pub(crate) static CAPTURE: Word = Word {
    name: "capture",
    help: HELP,
    arguments: &[RACK_FILE, AUDIT_FILES],
};
