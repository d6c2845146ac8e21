//! The words `gsd` and `slave`: their arguments, and what they ask for.

use crate::arguments::{Argument, FLAG, OCTET, OPTION, RACK_FILE, TEXT, Word};
use crate::file_command::DescribedSlave;
use crate::help::Help;
use clap::{ArgAction, ArgMatches};

/// The arguments and options of `gsd`.
pub(crate) const LINE: &str = "LINE";

pub(crate) const ADDRESS: &str = "ADDRESS";

const VENDOR: &str = "vendor";

const MODEL: &str = "model";

/// The argument and the options of `slave`.
pub(crate) const GSD_FILE: &str = "GSD";

pub(crate) const MODULE: &str = "module";

pub(crate) const LIST: &str = "list";

/// The help of `gsd`.
const GSD_HELP: Help = Help {
    about: "Write a GSD file for a slave of a rack",
    usage: "\
rackd gsd RACK LINE ADDRESS [--vendor T] [--model T]
       rackd gsd --help",
    details: "\
Standard output gets the file: GSD revision 3 in ISO 8859-1, with a module for each configuration of
the slave. docs/reference/gsd-files.md has the values of what a rack file does not say.

Examples:
  rackd gsd examples/serve/rack.toml 1 5 > slave.gsd
  rackd gsd examples/serve/rack.toml 1 5 --vendor Example --model 'Slave 5' > slave.gsd",
};

/// The help of `slave`.
const SLAVE_HELP: Help = Help {
    about: "Write the slave of a GSD file as a part of a rack file",
    usage: "\
rackd slave GSD [--module NAME..]
       rackd slave GSD --list
       rackd slave --help",
    details: "\
Standard output gets a [[line.slave]] for a rack file, with what a rack simulates, and a comment for
each part of the GSD file that is left out. Modules are plugged in the order in which they are
named. A slave that is not modular needs no --module.

With --list standard output gets a row for each module of the file: its name, its configuration
octets in hex, and 'preset' if it is plugged from the start. Slots follow, if the file has some.

Examples:
  rackd slave slave.gsd --list
  rackd slave slave.gsd --module 'Configuration 0' >> rack.toml",
};

const LINE_HELP: &str = "Number of the line in the rack file: 0 to 255";

const ADDRESS_HELP: &str = "Address of the slave: 0 to 255";

const VENDOR_HELP: &str = "Name of the vendor in the file, at most 32 characters [default: rackd]";

const MODEL_HELP: &str = "\
Name of the model in the file, at most 32 characters
[default: simulated slave]";

const FILE_HELP: &str = "GSD file of a slave, in ISO 8859-1";

const MODULE_HELP: &str = "Plug the modules of these names, in the order of their slots";

const LIST_HELP: &str = "List the modules of the file, with their configuration octets";

/// The word `gsd`, with a rack, a slave of it, and the names that the file gives it.
pub(crate) static GSD: Word = Word {
    name: "gsd",
    help: GSD_HELP,
    arguments: &[
        RACK_FILE,
        Argument {
            name: LINE,
            help: LINE_HELP,
            value: OCTET,
            ..TEXT
        },
        Argument {
            name: ADDRESS,
            help: ADDRESS_HELP,
            value: OCTET,
            ..TEXT
        },
        Argument {
            name: VENDOR,
            help: VENDOR_HELP,
            shown: &["T"],
            ..OPTION
        },
        Argument {
            name: MODEL,
            help: MODEL_HELP,
            shown: &["T"],
            ..OPTION
        },
    ],
};

/// The word `slave`, with a GSD file and the plugged modules, or the list of its modules.
pub(crate) static SLAVE: Word = Word {
    name: "slave",
    help: SLAVE_HELP,
    arguments: &[
        Argument {
            name: GSD_FILE,
            help: FILE_HELP,
            ..TEXT
        },
        Argument {
            name: MODULE,
            help: MODULE_HELP,
            action: ArgAction::Append,
            most: usize::MAX,
            shown: &["NAME"],
            ..OPTION
        },
        Argument {
            name: LIST,
            help: LIST_HELP,
            excludes: &[MODULE],
            ..FLAG
        },
    ],
};

/// Returns the slave that a GSD file is written for, by the words behind `gsd`.
pub(crate) fn described_slave_of<'a>(words: &ArgMatches<'a>) -> DescribedSlave<'a> {
    DescribedSlave {
        line: words.get_one(LINE).unwrap_or(0),
        address: words.get_one(ADDRESS).unwrap_or(0),
        vendor: words.get_str(VENDOR),
        model: words.get_str(MODEL),
    }
}
