//! Prints what `clap` answers to words.

use clap::error::ErrorKind as Answer;
use rack_script::RunFault;
use rackd_cli::{Invocation, read_words};
use rackd_faults::Fault;
use serve_log::{Escaped, is_escaped};
use std::alloc::Global;
use std::process::ExitCode;
use std::rt::Runtime;

/// Prints what `clap` answers to words.
pub fn answer_words<'a>(
    rt: &(impl Runtime + AllocGlobal),
    words: &[String],
    answer: clap::Error,
) -> Result<ExitCode, Fault<'a>> {
    let answer = escaped_answer(rt.alloc(), words, answer)?;
    Ok(print_answer(rt, &answer)?)
}

/// Returns what `clap` answers to words. If a word has characters that are escaped, reads the words again
/// with these escaped.
///
/// The text of `clap` has LFs of its own, so it can't be escaped as a whole.
fn escaped_answer<'a>(
    alloc: Global,
    words: &[String],
    answer: clap::Error,
) -> Result<clap::Error, Fault<'a>> {
    if !words.iter().any(|word| word.as_str().contains(is_escaped)) {
        return Ok(answer);
    }
    let mut escaped = Vec::new(alloc);
    for word in words {
        let Ok(word) = format!(in alloc; "{}", Escaped(word.as_str())) else {
            return Err(Fault::Run(RunFault::OutOfMemory));
        };
        if escaped.push(word).is_err() {
            return Err(Fault::Run(RunFault::OutOfMemory));
        }
    }
    match read_words(alloc, escaped.as_slice())? {
        Invocation::Answer(escaped) => Ok(escaped),
        _ => Ok(answer),
    }
}

/// Prints what `clap` answers: help and the version on standard output, what is wrong with the words on standard error.
fn print_answer(rt: &(impl Print + Eprint), answer: &clap::Error) -> Result<ExitCode, RunFault> {
    match answer.kind() {
        Answer::OutOfMemory => Err(RunFault::OutOfMemory),
        Answer::DisplayHelp | Answer::DisplayVersion => match answer.print(rt) {
            Ok(()) => Ok(ExitCode::SUCCESS),
            Err(_) => Err(RunFault::WriteFault),
        },
        _ => {
            let _ = answer.print(rt);
            Ok(ExitCode::from(2))
        }
    }
}
