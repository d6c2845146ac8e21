//! An entry that is stored for the page.

ghost use Rattle.watch_lines.specs.Notable.{IsNotable};

use memchr::memmem;

/// What the line of JSON of an entry has if the entry is a fault of the bus.
const FAULT_MARK: &[u8; 12] = b"\"fault\":true";

/// What the line of JSON of an entry has if the entry changed a slave.
const CHANGE_MARK: &[u8; 12] = b"\"changes\":[{";

/// An entry of an audit text, or a note, that is stored for the page.
#[derive(Drop)]
pub struct KeptEntry {
    /// Its number among the changes of the rack, from 1.
    pub number: u64,
    /// Whether it stays longer than others: it is a fault of the bus, or changed a slave, or is a note.
    pub is_notable: bool,
    /// Its line of JSON, with the LF.
    pub text: Vec<u8>,
}

/// Returns whether the entry with this line of JSON is a fault of the bus, or changed a slave.
pub(crate) fn is_notable(text: &[u8]) -> bool
    ensures { IsNotable text.now result }
{
    let fault = memmem::find(text, FAULT_MARK);
    let change = memmem::find(text, CHANGE_MARK);
    fault.is_some() || change.is_some()
}
