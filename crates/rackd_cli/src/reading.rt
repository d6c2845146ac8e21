//! Reads what the words of the command line ask for.

use crate::arguments::{AUDIT, RACK};
use crate::cable::{DELAY, LISTEN, RESYNC, SEED, cable_of};
use crate::commands::{
    FAULTS, FOLLOW, FROM, JSON, MASTER, PAGE_PORT, PORT, REFUSED, SCRIPT, SLAVE_ADDRESS, SUMMARY,
    TO, WATCHED, known,
};
use crate::file_command::{AuditCommand, Entries, FileCommand};
use crate::gsd::{ADDRESS, GSD_FILE, LINE, LIST, MODULE, described_slave_of};
use crate::invocation::{Invocation, WordsFault};
use crate::judge::{EXCHANGES, REQUESTS, RETRIES, judging_of, refuse_rule, unknown_rule};
use crate::numbers::refused_number;
use crate::refusals::{BadValue, refuse_value};
use crate::serve::{
    ENDLESS, FOLDER, KEEP, LOG, PAGE, PART, PORTS, SESSIONS, STEP, TICK, UNTIL_INPUT_ENDS,
};
use clap::error::ErrorKind as Refused;
use clap::{ArgMatches, Error};
use serve_options::{LogDetail, PartOptions, ServeOptions};
use std::alloc::Global;
use std::env::{self, Env};
use std::io::ErrorKind;

/// The arguments that are numbers, and their names in messages.
const NUMBERS: [(&str, &str); 21] = [
    (FROM, "--from <N>"),
    (TO, "--to <N>"),
    (SLAVE_ADDRESS, "--slave <A>"),
    (MASTER, "--master <M>"),
    (RETRIES, "--retries <N>"),
    (REQUESTS, "--requests-at-least <N>"),
    (EXCHANGES, "--exchanges-at-least <N>"),
    (SESSIONS, "--sessions <N>"),
    (PART, "--part <MB>"),
    (KEEP, "--keep <N>"),
    (PAGE, "--page <N>"),
    (PAGE_PORT, "--port <N>"),
    (PORT, "<PORT>"),
    (TICK, "--tick <MS>"),
    (STEP, "--step <MS>"),
    (LISTEN, "--listen <PORT2>"),
    (DELAY, "--delay <MS>"),
    (SEED, "--seed <N>"),
    (RESYNC, "--resync <MS>"),
    (LINE, "<LINE>"),
    (ADDRESS, "<ADDRESS>"),
];

/// The least megabytes of a part of an audit text, if the words name none.
const USUAL_PART: u16 = 16;

/// Returns the words of the command line, with the program's own name first. Returns `NotText` if a word is not
/// UTF-8, and `OutOfMemory` if memory is refused.
pub fn words_of(rt: &(impl Env + AllocGlobal)) -> Result<Vec<String>, WordsFault> {
    let words = match env::args(rt) {
        Ok(words) => words,
        Err(error) => match error.kind() {
            ErrorKind::OutOfMemory => return Err(WordsFault::OutOfMemory),
            _ => return Err(WordsFault::NotText),
        },
    };
    match words.collect(rt.alloc()) {
        Ok(words) => Ok(words),
        Err(_) => Err(WordsFault::OutOfMemory),
    }
}

/// Returns what the words ask for; the program's own name is the first word. Returns `OutOfMemory` if memory is
/// refused.
pub fn read_words<'a>(alloc: Global, words: &'a [String]) -> Result<Invocation<'a>, WordsFault> {
    let Ok(program) = known(alloc) else {
        return Err(WordsFault::OutOfMemory);
    };
    match program.try_get_matches_from(words) {
        Ok(matches) => invocation_of(alloc, &matches),
        Err(error) => answer_of(alloc, words, error),
    }
}

/// Returns the answer to words that `clap` does not accept.
fn answer_of<'a>(
    alloc: Global,
    words: &[String],
    error: Error,
) -> Result<Invocation<'a>, WordsFault> {
    if error.kind() != Refused::ValueValidation {
        return Ok(Invocation::Answer(error));
    }
    if let Some(host) = host_in(words) {
        return refuse_value(alloc, "operate", host);
    }
    match refused_number(alloc, words, &error)? {
        Some(answer) => Ok(answer),
        None => Ok(Invocation::Answer(error)),
    }
}

/// Returns the word behind `operate` if it names a host too.
fn host_in(words: &[String]) -> Option<BadValue<'_>> {
    let (command, value) = (words.get(1)?.as_str(), words.get(2)?.as_str());
    if command == "operate" && value.contains(':') {
        Some(BadValue {
            shown: "<PORT>",
            value,
            reason: "it is the number of a port alone, of this machine (127.0.0.1)",
        })
    } else {
        None
    }
}

/// Returns a number with a sign or a leading zero, which `clap` accepts, if there is one.
fn odd_number<'a>(words: &ArgMatches<'a>) -> Option<BadValue<'a>> {
    for (name, shown) in &NUMBERS {
        if let Some(value) = words.get_str(name)
            && !is_plain(value)
        {
            return Some(BadValue {
                shown,
                value,
                reason: "a number has no sign and no leading zero",
            });
        }
    }
    None
}

/// Returns whether a number has no sign and no leading zero. The number 0 itself is allowed.
fn is_plain(number: &str) -> bool {
    number == "0" || !number.starts_with('+') && !number.starts_with('0')
}

/// Returns what words ask for that `clap` accepts.
fn invocation_of<'a>(
    alloc: Global,
    matches: &ArgMatches<'a>,
) -> Result<Invocation<'a>, WordsFault> {
    let Some((command, words)) = matches.subcommand() else {
        return Ok(Invocation::Input);
    };
    match odd_number(words) {
        Some(odd) => refuse_value(alloc, command, odd),
        None => of_word(alloc, command, words),
    }
}

/// Returns what a word asks for, by the words behind it.
fn of_word<'a>(
    alloc: Global,
    command: &str,
    words: &ArgMatches<'a>,
) -> Result<Invocation<'a>, WordsFault> {
    match command {
        "judge" => of_judge(alloc, words),
        "cable" => of_cable(alloc, words),
        "serve" => Ok(Invocation::Serve {
            rack: path_in(words, RACK),
            options: options_of(words),
        }),
        "watch" => Ok(Invocation::Watch {
            rack: path_in(words, RACK),
            folder: path_in(words, WATCHED),
            port: words.get_one(PAGE_PORT).unwrap_or(0),
        }),
        "operate" => Ok(Invocation::Operate {
            port: words.get_one(PORT).unwrap_or(0),
        }),
        _ => of_files(alloc, command, words),
    }
}

/// Returns what `judge` asks for.
fn of_judge<'a>(alloc: Global, words: &ArgMatches<'a>) -> Result<Invocation<'a>, WordsFault> {
    match unknown_rule(words) {
        Some(unknown) => refuse_rule(alloc, unknown),
        None => of_files(alloc, "judge", words),
    }
}

/// Returns what `cable` asks for.
fn of_cable<'a>(alloc: Global, words: &ArgMatches<'a>) -> Result<Invocation<'a>, WordsFault> {
    match cable_of(words) {
        Ok(cable) => Ok(Invocation::Cable {
            port: words.get_one(PORT).unwrap_or(0),
            cable,
        }),
        Err(bad) => refuse_value(alloc, "cable", bad),
    }
}

/// Returns what a word asks for that reads files and writes to standard output.
fn of_files<'a>(
    alloc: Global,
    command: &str,
    words: &ArgMatches<'a>,
) -> Result<Invocation<'a>, WordsFault> {
    match file_command_of(alloc, command, words) {
        Ok(command) => Ok(Invocation::Files(command)),
        Err(fault) => Err(fault),
    }
}

/// Returns the command of a word that reads files and writes to standard output.
fn file_command_of<'a>(
    alloc: Global,
    command: &str,
    words: &ArgMatches<'a>,
) -> Result<FileCommand<'a>, WordsFault> {
    match command {
        "run" => Ok(FileCommand::Run {
            rack: path_in(words, RACK),
            script: path_in(words, SCRIPT),
        }),
        "gsd" => Ok(FileCommand::Gsd {
            rack: path_in(words, RACK),
            described: described_slave_of(words),
        }),
        "slave" if words.get_flag(LIST) => Ok(FileCommand::Modules {
            gsd: path_in(words, GSD_FILE),
        }),
        "slave" => match texts_in(alloc, words, MODULE) {
            Ok(modules) => Ok(FileCommand::Slave {
                gsd: path_in(words, GSD_FILE),
                modules,
            }),
            Err(fault) => Err(fault),
        },
        _ => match texts_in(alloc, words, AUDIT) {
            Ok(audit) => Ok(FileCommand::Audit {
                rack: path_in(words, RACK),
                audit,
                command: audit_command_of(command, words),
            }),
            Err(fault) => Err(fault),
        },
    }
}

/// Returns what a word does with an audit text: `explain`, `judge`, `capture` or `check`.
fn audit_command_of<'a>(command: &str, words: &ArgMatches<'a>) -> AuditCommand<'a> {
    match command {
        "explain" => explain_command_of(words),
        "judge" => AuditCommand::Judge(judging_of(words)),
        "capture" => AuditCommand::Capture,
        _ => AuditCommand::Check,
    }
}

/// Returns what `explain` does: it explains the entries that are there, or goes on as they come.
fn explain_command_of<'a>(words: &ArgMatches<'a>) -> AuditCommand<'a> {
    let entries = entries_of(words);
    if words.get_flag(FOLLOW) {
        AuditCommand::Follow(entries)
    } else {
        AuditCommand::Explain(entries)
    }
}

/// Returns the words of the argument or option of this name, in their order. Returns `OutOfMemory` if memory is refused.
fn texts_in<'a>(
    alloc: Global,
    words: &ArgMatches<'a>,
    name: &str,
) -> Result<Vec<&'a str>, WordsFault> {
    let mut texts = Vec::new(alloc);
    let Some(named) = words.get_strs(name) else {
        return Ok(texts);
    };
    for text in named {
        if texts.push(*text).is_err() {
            return Err(WordsFault::OutOfMemory);
        }
    }
    Ok(texts)
}

/// Returns which entries are explained, by the options of `explain`.
fn entries_of(words: &ArgMatches<'_>) -> Entries {
    Entries {
        from: words.get_one(FROM),
        to: words.get_one(TO),
        slave: words.get_one(SLAVE_ADDRESS),
        master: words.get_one(MASTER),
        are_faults: words.get_flag(FAULTS),
        are_refused: words.get_flag(REFUSED),
        only_summary: words.get_flag(SUMMARY),
        as_json: words.get_flag(JSON),
    }
}

/// Returns how a rack is served, by the options of `serve`.
fn options_of<'a>(words: &ArgMatches<'a>) -> ServeOptions<'a> {
    ServeOptions {
        sessions: words.get_one(SESSIONS),
        audit: words.get_str(FOLDER),
        endless: parts_of(words),
        page: words.get_one(PAGE),
        ports: words.get_str(PORTS),
        until_input_ends: words.get_flag(UNTIL_INPUT_ENDS),
        tick: words.get_one(TICK),
        step: words.get_one(STEP),
        log_detail: log_detail_of(words.get_str(LOG)),
    }
}

/// Returns the parts of audit texts if `--endless` is given.
fn parts_of(words: &ArgMatches<'_>) -> Option<PartOptions> {
    if words.get_flag(ENDLESS) {
        Some(PartOptions {
            megabytes: words.get_one(PART).unwrap_or(USUAL_PART),
            keep: words.get_one(KEEP),
        })
    } else {
        None
    }
}

/// Returns how much is reported, by what follows `--log`; little if `--log` is not given.
fn log_detail_of(word: Option<&str>) -> LogDetail {
    match word {
        None => LogDetail::Warnings,
        Some("requests") => LogDetail::Requests,
        Some(_) => LogDetail::Sessions,
    }
}

/// Returns the path of this name. `clap` has checked that there is one.
fn path_in<'a>(files: &ArgMatches<'a>, name: &str) -> &'a str {
    files.get_str(name).unwrap_or("")
}
