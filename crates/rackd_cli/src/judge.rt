//! The word `judge`: its options, and what they ask for.

use crate::arguments::{AUDIT_FILES, Argument, FLAG, NUMBER, OCTET, OPTION, RACK_FILE, Word};
use crate::commands::{JSON, MASTER};
use crate::help::Help;
use crate::invocation::{Invocation, WordsFault};
use crate::refusals::refuse;
use clap::ArgMatches;
use clap::builder::ValueParser;
use judge_rules::JudgeRule;
use std::alloc::{AllocError, Global};
use strsim::osa_distance;

/// The options of `judge` that no other word has.
pub(crate) const RULES: &str = "rules";

pub(crate) const WITHOUT: &str = "without";

pub(crate) const RETRIES: &str = "retries";

pub(crate) const REQUESTS: &str = "requests-at-least";

pub(crate) const EXCHANGES: &str = "exchanges-at-least";

const ALLOW_UNTESTED: &str = "allow-untested";

pub(crate) const JUNIT: &str = "junit";

/// The most retries that `--retries` may name (IEC 61158-4-3, max_retry_limit).
const MOST_RETRIES: u64 = 15;

/// The retries that are allowed if the words name no number.
const USUAL_RETRIES: u8 = 3;

/// The greatest number of requests and of Data_Exchanges that may be asked for: that of the entries of a text.
const MOST_ENTRIES: u64 = 4_294_967_295;

/// The requests and the Data_Exchanges that are required if the words name no number.
const USUAL_LEAST: u32 = 1;

/// How many names of rules a row of a message has.
const NAMES_IN_ROW: usize = 4;

/// The help of `judge`.
const HELP: Help = Help {
    about: "Judge the masters of an audit text by the rules of the standard",
    usage: "\
rackd judge RACK AUDIT.. [--master M] [--rules NAME,..] [--without NAME,..] [--retries N]
                  [--requests-at-least N] [--exchanges-at-least N] [--allow-untested]
                  [--json | --junit]
       rackd judge --help",
    details: "\
For each entry that breaks a rule, standard output gets a row with its place, its stations, the name
of the rule and what it says, and a row with the octets of the telegram; for fcb-repeated another
one with those of the telegram before. Then follow how often each master broke each rule, and the
result of 'check'. The text is judged to its first wrong line.

A run without findings shows nothing if the masters did nothing. So the summary also reports what is
untested: a master that sent no request, and a line on which no Data_Exchange was answered.

The exit status is 1 if the text is not legal, if a rule whose severity is error was broken, or if
something is untested and --allow-untested is not given. Otherwise it is 0.

Rules (docs/reference/judge.md says what each one reports):
  fcb-repeated, fcb-not-alternated, fcb-first, fcv-not-set, fcb-not-allowed, retry-limit,
  prm-before-diag, prm-without-lock, cfg-before-prm, exchange-before-ready, exchange-without-diag,
  exchange-after-rs, exchange-of-other, length-repeated, diag-not-read, extension-missing,
  outputs-in-clear, prm-of-other, prm-short, prm-reserved, lock-and-unlock, min-tsdr,
  watchdog-zero, watchdog-short, group-not-set, control-both, control-reserved, control-length,
  control-not-asked, control-with-srd, sdn-needs-reply, broadcast-needs-reply, sda-not-allowed,
  unknown-point, source-point, octets-not-allowed, token-to-slave, no-request

With --json each finding is a line of JSON. With --junit standard output is JUnit XML, with one test
case for each rule and master, and one for the text. A test case of what is untested is skipped.

Examples:
  rackd judge examples/audit-rack.toml examples/audit.txt
  rackd judge rack.toml audit/line-1-1.*.audit --junit > judged.xml
  rackd judge rack.toml audit/line-1-1.audit --master 1 --rules fcb-repeated,fcb-first",
};

const MASTER_HELP: &str = "Judge only the master at address M: 0 to 255 [default: all]";

const RULES_HELP: &str = "Judge only by these rules, separated by commas [default: all]";

const WITHOUT_HELP: &str = "Leave these rules out, separated by commas";

const RETRIES_HELP: &str = "Retries of a request that gets no answer: 0 to 15 [default: 3]";

const REQUESTS_HELP: &str = "Requests that each master must send: 0 to 4294967295 [default: 1]";

const EXCHANGES_HELP: &str = "Data_Exchanges that must be answered, of all masters [default: 1]";

const ALLOW_UNTESTED_HELP: &str = "Exit with 0 even if something is untested";

const JSON_HELP: &str = "Print each finding as a line of JSON";

const JUNIT_HELP: &str = "Print JUnit XML";

/// How findings are printed.
#[derive(Clone, Copy)]
pub enum Findings {
    /// As rows of text, with a summary.
    Rows,
    /// As lines of JSON.
    Json,
    /// As JUnit XML.
    Junit,
}

/// What is judged, and how findings are printed.
#[derive(Clone, Copy)]
pub struct Judging<'a> {
    /// Only the master at this address; None judges all masters of the line.
    pub master: Option<u8>,
    /// The names of the rules, separated by commas, each of which is known; None stands for all rules.
    pub rules: Option<&'a str>,
    /// The names of the rules that are left out, separated by commas, each of which is known; None leaves none out.
    pub without: Option<&'a str>,
    /// How often a request may be sent again without an answer, 0 to 15.
    pub retries: u8,
    /// How findings are printed.
    pub findings: Findings,
    /// The requests that each master must send, 0 to 4,294,967,295; with fewer it is untested.
    pub requests: u32,
    /// The Data_Exchanges of all masters together that must be answered, 0 to 4,294,967,295; with fewer the line is untested.
    pub exchanges: u32,
    /// Whether the exit status may be 0 although something is untested.
    pub allows_untested: bool,
}

/// The word `judge`, with a rack, an audit text, and the options.
pub(crate) static JUDGE: Word = Word {
    name: "judge",
    help: HELP,
    arguments: &[
        RACK_FILE,
        AUDIT_FILES,
        Argument {
            name: MASTER,
            help: MASTER_HELP,
            shown: &["M"],
            value: OCTET,
            ..NUMBER
        },
        Argument {
            name: RULES,
            help: RULES_HELP,
            shown: &["NAME,.."],
            ..OPTION
        },
        Argument {
            name: WITHOUT,
            help: WITHOUT_HELP,
            shown: &["NAME,.."],
            ..OPTION
        },
        Argument {
            name: RETRIES,
            help: RETRIES_HELP,
            value: ValueParser::Unsigned(0, MOST_RETRIES),
            ..NUMBER
        },
        Argument {
            name: REQUESTS,
            help: REQUESTS_HELP,
            value: ValueParser::Unsigned(0, MOST_ENTRIES),
            ..NUMBER
        },
        Argument {
            name: EXCHANGES,
            help: EXCHANGES_HELP,
            value: ValueParser::Unsigned(0, MOST_ENTRIES),
            ..NUMBER
        },
        Argument {
            name: ALLOW_UNTESTED,
            help: ALLOW_UNTESTED_HELP,
            ..FLAG
        },
        Argument {
            name: JSON,
            help: JSON_HELP,
            ..FLAG
        },
        Argument {
            name: JUNIT,
            help: JUNIT_HELP,
            excludes: &[JSON],
            ..FLAG
        },
    ],
};

/// A name that is the name of no rule, and the option that has it.
#[derive(Clone, Copy)]
pub(crate) struct UnknownRule<'a> {
    name: &'a str,
    option: &'static str,
}

/// Returns the first name of the options `--rules` and `--without` that is the name of no rule, if there is one.
pub(crate) fn unknown_rule<'a>(words: &ArgMatches<'a>) -> Option<UnknownRule<'a>> {
    match unknown_in(words, RULES) {
        Some(unknown) => Some(unknown),
        None => unknown_in(words, WITHOUT),
    }
}

/// Returns the first name of an option that is the name of no rule, if there is one.
fn unknown_in<'a>(words: &ArgMatches<'a>, option: &'static str) -> Option<UnknownRule<'a>> {
    let names = words.get_str(option)?;
    for name in names.split(',') {
        if !is_rule(name) {
            return Some(UnknownRule { name, option });
        }
    }
    None
}

/// Returns whether a rule has this name.
fn is_rule(name: &str) -> bool {
    JudgeRule::ALL.iter().any(|rule| rule.name() == name)
}

/// Returns the answer to a name that is the name of no rule: the name that is near, and all names. Returns `OutOfMemory` if
/// memory is refused.
pub(crate) fn refuse_rule<'a>(
    alloc: Global,
    unknown: UnknownRule<'_>,
) -> Result<Invocation<'a>, WordsFault> {
    match rule_message(alloc, unknown) {
        Ok(message) => refuse(alloc, "judge", message.as_str()),
        Err(_) => Err(WordsFault::OutOfMemory),
    }
}

/// Returns what is reported of a name that is the name of no rule.
fn rule_message(alloc: Global, unknown: UnknownRule<'_>) -> Result<String, AllocError> {
    let UnknownRule { name, option } = unknown;
    let mut message = match near_rule(alloc, name)? {
        Some(near) => {
            format!(in alloc;
                "invalid value '{name}' for '--{option} <NAME,..>': there is no such rule, perhaps '{near}'"
            )?
        }
        None => format!(in alloc;
            "invalid value '{name}' for '--{option} <NAME,..>': there is no such rule"
        )?,
    };
    message.push_str("\n\nRules:")?;
    for (before, rule) in JudgeRule::ALL.iter().enumerate() {
        message.push_str(if before % NAMES_IN_ROW == 0 {
            "\n  "
        } else {
            ", "
        })?;
        message.push_str(rule.name())?;
    }
    Ok(message)
}

/// Returns the first rule whose name is at most two edits away from a name, and one with one edit before one with two.
fn near_rule(alloc: Global, name: &str) -> Result<Option<&'static str>, AllocError> {
    match rule_within(alloc, 1, name)? {
        Some(rule) => Ok(Some(rule)),
        None => rule_within(alloc, 2, name),
    }
}

/// Returns the first rule whose name is at most this number of edits away from a name. An edit inserts, deletes or replaces a
/// letter, or swaps two neighbours.
fn rule_within(alloc: Global, most: usize, name: &str) -> Result<Option<&'static str>, AllocError> {
    for rule in JudgeRule::ALL {
        if osa_distance(alloc, name, rule.name())? <= most {
            return Ok(Some(rule.name()));
        }
    }
    Ok(None)
}

/// Returns what is judged, by the options of `judge`.
pub(crate) fn judging_of<'a>(words: &ArgMatches<'a>) -> Judging<'a> {
    let findings = if words.get_flag(JSON) {
        Findings::Json
    } else if words.get_flag(JUNIT) {
        Findings::Junit
    } else {
        Findings::Rows
    };
    Judging {
        master: words.get_one(MASTER),
        rules: words.get_str(RULES),
        without: words.get_str(WITHOUT),
        retries: words.get_one(RETRIES).unwrap_or(USUAL_RETRIES),
        findings,
        requests: words.get_one(REQUESTS).unwrap_or(USUAL_LEAST),
        exchanges: words.get_one(EXCHANGES).unwrap_or(USUAL_LEAST),
        allows_untested: words.get_flag(ALLOW_UNTESTED),
    }
}
