//! The word `cable`: its arguments, and what they ask for.

use crate::arguments::{ANY_PORT, Argument, FLAG, NUMBER, OPTION, TEXT, USED_PORT, Word};
use crate::cable_help;
use crate::commands::PORT;
use crate::refusals::BadValue;
use clap::ArgMatches;
use clap::builder::ValueParser;

/// The options of `cable`.
pub(crate) const LISTEN: &str = "listen";

const LOSE: &str = "lose";

const SPOIL: &str = "spoil";

const CUT: &str = "cut";

const LATE: &str = "late";

pub(crate) const DELAY: &str = "delay";

const REQUESTS: &str = "requests";

const REPLIES: &str = "replies";

pub(crate) const SEED: &str = "seed";

pub(crate) const RESYNC: &str = "resync";

const DROP_TOKENS: &str = "drop-tokens";

const LOG: &str = "log";

const PORTS: &str = "ports";

/// The most milliseconds that an option may name.
const MOST_MILLISECONDS: u64 = 60_000;

/// The millionths of one percent.
const PERCENT: u32 = 10_000;

/// The telegrams that meet faults by chance.
#[derive(Clone, Copy)]
pub enum FaultyTelegrams {
    /// Those of both directions.
    Both,
    /// Only requests.
    Requests,
    /// Only replies.
    Replies,
}

/// How a cable is served. Chances are in millionths, 0 to 1,000,000.
#[derive(Clone, Copy)]
pub struct CableWords<'a> {
    /// The port for masters, 0 if the system chooses one.
    pub listen: u16,
    /// The chance that a telegram is lost.
    pub lose: u32,
    /// The chance that a telegram is spoilt.
    pub spoil: u32,
    /// The chance that a telegram is cut.
    pub cut: u32,
    /// The chance that a telegram is late.
    pub late: u32,
    /// The milliseconds for which it is late then, 0 to 60,000.
    pub late_milliseconds: u32,
    /// The milliseconds for which each reply is delayed, 0 to 60,000.
    pub delay: u32,
    /// The telegrams that meet faults by chance.
    pub faulty: FaultyTelegrams,
    /// The seed of the faults by chance.
    pub seed: u64,
    /// The milliseconds after which octets that are no whole telegram are dropped, 1 to 60,000; None if they never are.
    pub resync: Option<u32>,
    /// Whether tokens that a master sends to itself are withheld.
    pub drops_tokens: bool,
    /// Whether each fault has a row on standard error.
    pub logs: bool,
    /// The file that gets the port for masters.
    pub ports: Option<&'a str>,
}

/// What chances accept.
const CHANCES: &str = "a chance is a percentage from 0 to 100 with at most four decimals, as 1.5";

/// How messages name `--late`.
const SHOWN_LATE: &str = "--late <P> <MS>";

/// What the milliseconds of `--late` accept.
const LATENESS: &str =
    "MS is a number of milliseconds, 0 to 60000, without a sign or a leading zero";

/// An option with a chance.
const CHANCE: Argument = Argument {
    shown: &["P"],
    value: ValueParser::NonEmptyString,
    ..OPTION
};

/// The word `cable`, with the port of a line and its options.
pub(crate) static CABLE: Word = Word {
    name: "cable",
    help: cable_help::CABLE,
    arguments: &[
        Argument {
            name: PORT,
            help: cable_help::PORT,
            value: USED_PORT,
            ..TEXT
        },
        Argument {
            name: LISTEN,
            help: cable_help::LISTEN,
            is_required: true,
            shown: &["PORT2"],
            value: ANY_PORT,
            ..NUMBER
        },
        Argument {
            name: LOSE,
            help: cable_help::LOSE,
            ..CHANCE
        },
        Argument {
            name: SPOIL,
            help: cable_help::SPOIL,
            ..CHANCE
        },
        Argument {
            name: CUT,
            help: cable_help::CUT,
            ..CHANCE
        },
        Argument {
            name: LATE,
            help: cable_help::LATE,
            least: 2,
            most: 2,
            shown: &["P", "MS"],
            ..CHANCE
        },
        Argument {
            name: DELAY,
            help: cable_help::DELAY,
            shown: &["MS"],
            value: ValueParser::Unsigned(0, MOST_MILLISECONDS),
            ..NUMBER
        },
        Argument {
            name: REQUESTS,
            help: cable_help::REQUESTS,
            excludes: &[REPLIES],
            ..FLAG
        },
        Argument {
            name: REPLIES,
            help: cable_help::REPLIES,
            ..FLAG
        },
        Argument {
            name: SEED,
            help: cable_help::SEED,
            value: ValueParser::Unsigned(0, u64::MAX),
            ..NUMBER
        },
        Argument {
            name: RESYNC,
            help: cable_help::RESYNC,
            shown: &["MS"],
            value: ValueParser::Unsigned(1, MOST_MILLISECONDS),
            ..NUMBER
        },
        Argument {
            name: DROP_TOKENS,
            help: cable_help::DROP_TOKENS,
            ..FLAG
        },
        Argument {
            name: LOG,
            help: cable_help::LOG,
            ..FLAG
        },
        Argument {
            name: PORTS,
            help: cable_help::PORTS,
            shown: &["FILE"],
            value: ValueParser::NonEmptyString,
            ..OPTION
        },
    ],
};

/// The chances of faults, in millionths, and the milliseconds of `--late`.
#[derive(Clone, Copy)]
struct Chances {
    lose: u32,
    spoil: u32,
    cut: u32,
    late: u32,
    late_milliseconds: u32,
}

/// Returns how the cable is served, or the first value that is not accepted.
pub(crate) fn cable_of<'a>(words: &ArgMatches<'a>) -> Result<CableWords<'a>, BadValue<'a>> {
    match chances_of(words) {
        Ok(chances) => Ok(cable_with(words, chances)),
        Err(bad) => Err(bad),
    }
}

/// Returns how the cable is served that has these chances of faults.
fn cable_with<'a>(words: &ArgMatches<'a>, chances: Chances) -> CableWords<'a> {
    CableWords {
        listen: words.get_one(LISTEN).unwrap_or(0),
        lose: chances.lose,
        spoil: chances.spoil,
        cut: chances.cut,
        late: chances.late,
        late_milliseconds: chances.late_milliseconds,
        delay: words.get_one(DELAY).unwrap_or(0),
        faulty: faulty_of(words),
        seed: words.get_one(SEED).unwrap_or(0),
        resync: words.get_one(RESYNC),
        drops_tokens: words.get_flag(DROP_TOKENS),
        logs: words.get_flag(LOG),
        ports: words.get_str(PORTS),
    }
}

/// Returns the chances of faults, or the first value that is not accepted.
fn chances_of<'a>(words: &ArgMatches<'a>) -> Result<Chances, BadValue<'a>> {
    let lose = chance_of(words, LOSE, "--lose <P>")?;
    let spoil = chance_of(words, SPOIL, "--spoil <P>")?;
    let cut = chance_of(words, CUT, "--cut <P>")?;
    let (late, late_milliseconds) = lateness_of(words)?;
    Ok(Chances {
        lose,
        spoil,
        cut,
        late,
        late_milliseconds,
    })
}

/// Returns the telegrams that meet faults by chance.
fn faulty_of(words: &ArgMatches<'_>) -> FaultyTelegrams {
    if words.get_flag(REQUESTS) {
        FaultyTelegrams::Requests
    } else if words.get_flag(REPLIES) {
        FaultyTelegrams::Replies
    } else {
        FaultyTelegrams::Both
    }
}

/// Returns the chance of an option, 0 if the option is not given.
fn chance_of<'a>(
    words: &ArgMatches<'a>,
    name: &str,
    shown: &'static str,
) -> Result<u32, BadValue<'a>> {
    match words.get_str(name) {
        Some(value) => read_chance(value, shown),
        None => Ok(0),
    }
}

/// Returns the chance of `--late`, and its milliseconds; 0 and 0 if the option is not given.
fn lateness_of<'a>(words: &ArgMatches<'a>) -> Result<(u32, u32), BadValue<'a>> {
    match words.get_strs(LATE) {
        Some([chance, milliseconds]) => read_lateness(chance, milliseconds),
        _ => Ok((0, 0)),
    }
}

/// Returns the chance and the milliseconds that the values of `--late` are.
fn read_lateness<'a>(chance: &'a str, milliseconds: &'a str) -> Result<(u32, u32), BadValue<'a>> {
    let chance = read_chance(chance, SHOWN_LATE)?;
    let milliseconds = read_milliseconds(milliseconds)?;
    Ok((chance, milliseconds))
}

/// Returns the milliseconds that a value of `--late` is.
fn read_milliseconds<'a>(value: &'a str) -> Result<u32, BadValue<'a>> {
    match number_in(value) {
        Some(milliseconds) if u64::from(milliseconds) <= MOST_MILLISECONDS => Ok(milliseconds),
        Some(_) | None => Err(BadValue {
            shown: SHOWN_LATE,
            value,
            reason: LATENESS,
        }),
    }
}

/// Returns the chance that a value is.
fn read_chance<'a>(value: &'a str, shown: &'static str) -> Result<u32, BadValue<'a>> {
    match millionths_in(value) {
        Some(millionths) if millionths <= 100 * PERCENT => Ok(millionths),
        Some(_) | None => Err(BadValue {
            shown,
            value,
            reason: CHANCES,
        }),
    }
}

/// Returns the millionths of a percentage with at most four decimals, if it is one and below 1,000,000.
fn millionths_in(value: &str) -> Option<u32> {
    let (whole, decimals) = value.split_once('.').unwrap_or((value, "0"));
    let more = decimals_in(decimals)?;
    number_in(whole)?.checked_mul(PERCENT)?.checked_add(more)
}

/// Returns the number that 1 to 6 digits are, of which the first is 0 only if it is alone.
fn number_in(digits: &str) -> Option<u32> {
    if digits == "0" || !digits.starts_with('0') {
        digits_in(digits)
    } else {
        None
    }
}

/// Returns the number that 1 to 6 digits are.
fn digits_in(digits: &str) -> Option<u32> {
    if digits.len() > 6 || digits.starts_with('+') {
        return None;
    }
    digits.parse().ok()
}

/// Returns the millionths of one percent that 1 to 4 decimals are.
fn decimals_in(decimals: &str) -> Option<u32> {
    let number = digits_in(decimals)?;
    match decimals.len() {
        1 => number.checked_mul(1_000),
        2 => number.checked_mul(100),
        3 => number.checked_mul(10),
        4 => Some(number),
        _ => None,
    }
}
