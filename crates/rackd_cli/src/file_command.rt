//! The commands that read files and write to standard output.

use crate::judge::Judging;

/// Which entries of an audit text are explained, those that meet each condition that is given, and in which form.
#[derive(Clone, Copy)]
pub struct Entries {
    /// Only those from this place on, 1 to 4,294,967,295.
    pub from: Option<u32>,
    /// Only those up to this place, 1 to 4,294,967,295.
    pub to: Option<u32>,
    /// Only those that concern the slave at this address.
    pub slave: Option<u8>,
    /// Only those that this master sent.
    pub master: Option<u8>,
    /// Only those that are faults of the bus.
    pub are_faults: bool,
    /// Only those that were refused.
    pub are_refused: bool,
    /// No entries, only the summary of all.
    pub only_summary: bool,
    /// Each as a line of JSON in place of rows of text.
    pub as_json: bool,
}

/// The slave that a GSD file is written for.
#[derive(Clone, Copy)]
pub struct DescribedSlave<'a> {
    /// The number of its line, 0 to 255.
    pub line: u8,
    /// Its address, 0 to 255.
    pub address: u8,
    /// The name of its vendor; None if the file has the usual one.
    pub vendor: Option<&'a str>,
    /// The name of its model; None if the file has the usual one.
    pub model: Option<&'a str>,
}

/// What is done with the audit text of one or more files, on the rack of another.
#[derive(Clone, Copy)]
pub enum AuditCommand<'a> {
    /// `check RACK AUDIT..`: check the text.
    Check,
    /// `explain RACK AUDIT..`: explain these entries.
    Explain(Entries),
    /// `explain --follow RACK AUDIT..`: explain these entries as they come, while a rack writes the last file.
    Follow(Entries),
    /// `judge RACK AUDIT..`: judge the masters.
    Judge(Judging<'a>),
    /// `capture RACK AUDIT..`: write the telegrams as a capture for Wireshark.
    Capture,
}

/// A command that reads files, and writes to standard output.
#[derive(Drop)]
pub enum FileCommand<'a> {
    /// `run RACK SCRIPT`: run the script of one file on the rack of another.
    Run {
        /// The path of the rack.
        rack: &'a str,
        /// The path of the script.
        script: &'a str,
    },
    /// A command that reads an audit text: `check`, `explain`, `judge` or `capture`.
    Audit {
        /// The path of the rack.
        rack: &'a str,
        /// The paths of the files that contain the audit text, in their order.
        audit: Vec<&'a str>,
        /// What is done with the text.
        command: AuditCommand<'a>,
    },
    /// `gsd RACK LINE ADDRESS`: write a GSD file for a slave of a rack.
    Gsd {
        /// The path of the rack.
        rack: &'a str,
        /// The slave, and the names that the file gives it.
        described: DescribedSlave<'a>,
    },
    /// `slave GSD --module NAME..`: write the slave of a GSD file for a rack file.
    Slave {
        /// The path of the GSD file.
        gsd: &'a str,
        /// The names of the plugged modules, in the order of their slots.
        modules: Vec<&'a str>,
    },
    /// `slave GSD --list`: list the modules of a GSD file.
    Modules {
        /// The path of the GSD file.
        gsd: &'a str,
    },
}
