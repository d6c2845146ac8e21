//! The words that are known.

use crate::arguments::{
    ANY_PORT, AUDIT_FILES, Argument, FLAG, NUMBER, OCTET, RACK_FILE, TEXT, USED_PORT, Word,
    command_of, with_help, with_words,
};
use crate::cable::CABLE;
use crate::capture::CAPTURE;
use crate::gsd::{GSD, SLAVE};
use crate::help;
use crate::judge::JUDGE;
use crate::serve::SERVE;
use clap::Command;
use clap::builder::ValueParser;
use std::alloc::{AllocError, Global};

/// The argument of `run` for the script.
pub(crate) const SCRIPT: &str = "SCRIPT";

/// The options of `explain`: which entries are chosen, and how they are shown.
pub(crate) const FROM: &str = "from";

pub(crate) const TO: &str = "to";

pub(crate) const SLAVE_ADDRESS: &str = "slave";

pub(crate) const MASTER: &str = "master";

pub(crate) const REFUSED: &str = "refused";

pub(crate) const FAULTS: &str = "faults";

pub(crate) const SUMMARY: &str = "summary";

pub(crate) const JSON: &str = "json";

pub(crate) const FOLLOW: &str = "follow";

/// The argument and the option of `watch`.
pub(crate) const WATCHED: &str = "FOLDER";

pub(crate) const PAGE_PORT: &str = "port";

/// The argument of `operate` and `cable`.
pub(crate) const PORT: &str = "PORT";

/// What `--version` prints after the program's name: the version, and the toolchain that proves and builds the program.
const VERSION: &str = "0.2.0 (rattle-kit-13f logic dac8208d650f15bf)";

/// The word `run`, with a rack and a script.
static RUN: Word = Word {
    name: "run",
    help: help::RUN,
    arguments: &[
        RACK_FILE,
        Argument {
            name: SCRIPT,
            help: help::SCRIPT,
            ..TEXT
        },
    ],
};

/// The word `check`, with a rack and an audit text.
static CHECK: Word = Word {
    name: "check",
    help: help::CHECK,
    arguments: &[RACK_FILE, AUDIT_FILES],
};

/// The word `explain`, with a rack, an audit text, and the options that choose entries.
static EXPLAIN: Word = Word {
    name: "explain",
    help: help::EXPLAIN,
    arguments: &[
        RACK_FILE,
        AUDIT_FILES,
        Argument {
            name: FROM,
            help: help::FROM,
            value: PLACE,
            ..NUMBER
        },
        Argument {
            name: TO,
            help: help::TO,
            value: PLACE,
            ..NUMBER
        },
        Argument {
            name: SLAVE_ADDRESS,
            help: help::SLAVE,
            shown: &["A"],
            value: OCTET,
            ..NUMBER
        },
        Argument {
            name: MASTER,
            help: help::MASTER,
            shown: &["M"],
            value: OCTET,
            ..NUMBER
        },
        Argument {
            name: FAULTS,
            help: help::FAULTS,
            ..FLAG
        },
        Argument {
            name: REFUSED,
            help: help::REFUSED,
            ..FLAG
        },
        Argument {
            name: SUMMARY,
            help: help::SUMMARY,
            ..FLAG
        },
        Argument {
            name: JSON,
            help: help::JSON,
            excludes: &[SUMMARY],
            ..FLAG
        },
        Argument {
            name: FOLLOW,
            help: help::FOLLOW,
            ..FLAG
        },
    ],
};

/// The place of an entry in an audit text. Only an endless line has the greatest one.
const PLACE: ValueParser<'static> = ValueParser::Unsigned(1, 4_294_967_295);

/// The word `watch`, with a rack, a folder, and the port of the page.
static WATCH: Word = Word {
    name: "watch",
    help: help::WATCH,
    arguments: &[
        RACK_FILE,
        Argument {
            name: WATCHED,
            help: help::WATCHED,
            value: ValueParser::NonEmptyString,
            ..TEXT
        },
        Argument {
            name: PAGE_PORT,
            help: help::PAGE_PORT,
            value: ANY_PORT,
            ..NUMBER
        },
    ],
};

/// The word `operate`, with a port.
static OPERATE: Word = Word {
    name: "operate",
    help: help::OPERATE,
    arguments: &[Argument {
        name: PORT,
        help: help::PORT,
        value: USED_PORT,
        ..TEXT
    }],
};

/// Returns the words for scripts and audit texts.
///
/// The words are in three groups because the proof of a function costs by the square of the data that it names.
fn text_words() -> [&'static Word; 5] {
    [&RUN, &CHECK, &EXPLAIN, &JUDGE, &CAPTURE]
}

/// Returns the words for GSD files.
fn gsd_words() -> [&'static Word; 2] {
    [&GSD, &SLAVE]
}

/// Returns the words that use ports.
fn port_words() -> [&'static Word; 4] {
    [&SERVE, &WATCH, &OPERATE, &CABLE]
}

/// Returns the program with all its words, in the form that `clap` requires. `clap` adds `help`, and the options `--help`
/// and `--version`.
pub(crate) fn known<'a>(alloc: Global) -> Result<Command<'a>, AllocError> {
    let program = with_help(Command::new(alloc, "rackd"), help::PROGRAM)
        .version(VERSION)
        .subcommand_help_heading(help::WORDS);
    let program = with_words(alloc, program, &port_words())?;
    let program = with_words(alloc, program, &text_words())?;
    with_words(alloc, program, &gsd_words())
}

/// Returns the word of this name in the form that `clap` requires, or the program if there is no such word.
pub(crate) fn command_named<'a>(alloc: Global, name: &str) -> Result<Command<'a>, AllocError> {
    match word_named(name) {
        Some(word) => command_of(alloc, word),
        None => known(alloc),
    }
}

/// Returns the word of this name, if there is one.
pub(crate) fn word_named(name: &str) -> Option<&'static Word> {
    if let Some(word) = word_in(&text_words(), name) {
        return Some(word);
    }
    if let Some(word) = word_in(&gsd_words(), name) {
        return Some(word);
    }
    word_in(&port_words(), name)
}

/// Returns the word of this name among these, if there is one.
fn word_in(words: &[&'static Word], name: &str) -> Option<&'static Word> {
    for word in words {
        if word.name == name {
            return Some(*word);
        }
    }
    None
}
