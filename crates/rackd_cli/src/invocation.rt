//! What words may ask for.

use crate::cable::CableWords;
use crate::file_command::FileCommand;
use serve_options::ServeOptions;
use thiserror::Error;

/// What the words ask for.
#[derive(Drop)]
pub enum Invocation<'a> {
    /// No words: run the script of standard input on the rack of standard input.
    Input,
    /// A command that reads files, and writes to standard output.
    Files(FileCommand<'a>),
    /// `serve RACK`: serve the rack of a file at sockets.
    Serve {
        /// The path of the rack.
        rack: &'a str,
        /// How it is served.
        options: ServeOptions<'a>,
    },
    /// `watch RACK FOLDER`: show the rack of a file, and the audit texts of a folder, in a browser.
    Watch {
        /// The path of the rack.
        rack: &'a str,
        /// The path of the folder.
        folder: &'a str,
        /// The port of the page, 0 if the system chooses one.
        port: u16,
    },
    /// `operate PORT`: operate a line that is served, by standard input.
    Operate {
        /// The operator port of the line, 1 to 65,535.
        port: u16,
    },
    /// `cable PORT --listen PORT2`: put a cable with faults between masters and a line.
    Cable {
        /// The port of the line for masters, 1 to 65,535.
        port: u16,
        /// How the cable is served.
        cable: CableWords<'a>,
    },
    /// `clap` answers: with help, with the version, or with what is wrong with the words.
    Answer(clap::Error),
}

/// Why words cannot be read.
#[derive(Clone, Copy, Debug, Error)]
pub enum WordsFault {
    /// A word is not UTF-8.
    #[error("a word is not UTF-8")]
    NotText,
    /// Out of memory.
    #[error("out of memory")]
    OutOfMemory,
}
