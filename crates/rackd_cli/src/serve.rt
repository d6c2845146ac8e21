//! The word `serve`: its options.

use crate::arguments::{ANY_PORT, Argument, FLAG, NUMBER, OPTION, RACK_FILE, Word};
use crate::help;
use clap::builder::ValueParser;

/// The options of `serve`, and the most sessions that `--sessions` may name.
pub(crate) const SESSIONS: &str = "sessions";

const MOST_SESSIONS: u64 = 1_000_000;

pub(crate) const FOLDER: &str = "audit";

pub(crate) const ENDLESS: &str = "endless";

pub(crate) const PART: &str = "part";

/// The most megabytes of a part of an audit text.
const MOST_PART: u64 = 4_096;

pub(crate) const KEEP: &str = "keep";

/// The least and the most parts that `--keep` may name.
const LEAST_KEPT: u64 = 2;

const MOST_KEPT: u64 = 10_000;

pub(crate) const PAGE: &str = "page";

pub(crate) const PORTS: &str = "ports";

pub(crate) const UNTIL_INPUT_ENDS: &str = "until-input-ends";

pub(crate) const TICK: &str = "tick";

pub(crate) const STEP: &str = "step";

/// The least and the most milliseconds of `--tick`, up to a minute, and of `--step`, up to a day.
const LEAST_TICK: u64 = 10;

const MOST_TICK: u64 = 60_000;

const LEAST_STEP: u64 = 1;

const MOST_STEP: u64 = 86_400_000;

pub(crate) const LOG: &str = "log";

/// What follows `--log` if nothing is written there.
const USUAL_LOG_DETAIL: &str = "sessions";

/// What may follow `--log`.
const LOG_DETAILS: [&str; 2] = [USUAL_LOG_DETAIL, "requests"];

/// The word `serve`, with a rack, the number of sessions of each port, the folder of its audit texts, the file of its
/// ports, when it ends, how time passes and devices step, and what is reported.
pub(crate) static SERVE: Word = Word {
    name: "serve",
    help: help::SERVE,
    arguments: &[
        RACK_FILE,
        Argument {
            name: SESSIONS,
            help: help::SESSIONS,
            value: ValueParser::Unsigned(1, MOST_SESSIONS),
            ..NUMBER
        },
        Argument {
            name: FOLDER,
            help: help::FOLDER,
            shown: &["FOLDER"],
            value: ValueParser::NonEmptyString,
            ..OPTION
        },
        Argument {
            name: ENDLESS,
            help: help::ENDLESS,
            needs: &[FOLDER],
            ..FLAG
        },
        Argument {
            name: PART,
            help: help::PART,
            shown: &["MB"],
            value: ValueParser::Unsigned(1, MOST_PART),
            needs: &[ENDLESS],
            ..NUMBER
        },
        Argument {
            name: KEEP,
            help: help::KEEP,
            value: ValueParser::Unsigned(LEAST_KEPT, MOST_KEPT),
            needs: &[ENDLESS],
            ..NUMBER
        },
        Argument {
            name: PAGE,
            help: help::PAGE,
            value: ANY_PORT,
            needs: &[FOLDER],
            ..NUMBER
        },
        Argument {
            name: PORTS,
            help: help::PORTS,
            shown: &["FILE"],
            value: ValueParser::NonEmptyString,
            ..OPTION
        },
        Argument {
            name: UNTIL_INPUT_ENDS,
            help: help::UNTIL_INPUT_ENDS,
            ..FLAG
        },
        Argument {
            name: TICK,
            help: help::TICK,
            shown: &["MS"],
            value: ValueParser::Unsigned(LEAST_TICK, MOST_TICK),
            ..NUMBER
        },
        Argument {
            name: STEP,
            help: help::STEP,
            shown: &["MS"],
            value: ValueParser::Unsigned(LEAST_STEP, MOST_STEP),
            ..NUMBER
        },
        Argument {
            name: LOG,
            help: help::LOG,
            least: 0,
            usual: &[USUAL_LOG_DETAIL],
            shown: &["WHAT"],
            value: ValueParser::Names(&LOG_DETAILS),
            hides_values: true,
            ..OPTION
        },
    ],
};
