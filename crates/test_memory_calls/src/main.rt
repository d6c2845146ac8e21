//! Makes the call that a word names, one of those that allocate memory, and makes it again if memory was refused; it
//! refuses no memory itself, which `tests/memory` does.
//!
//! The result is given by the exit status only, because that allocates no memory. A program of its own makes the call,
//! because rackd makes several such calls, and ends with status 3 whichever of them was refused.
#![tactic(auto)]

ghost use Rattle.std.specs.Prelude.{◌≡◌, None};
ghost use Rattle.dp_line.specs.World.{description_of, opening_fault};

mod answer;
mod calls;
mod described;
mod expecting;
mod pool;

use answer::Answer;
use described::described;
use dp_line::LineSpec;
use std::alloc::Global;
use std::process::ExitCode;

/// No call has the word.
const NO_CALL: u8 = 2;

/// The call returned that memory, or a thread, was refused, and it succeeded when it was made again.
const REFUSED_ONCE: u8 = 3;

/// The arguments of the call could not be prepared.
const UNPREPARED: u8 = 5;

/// The call returned something else.
const OTHER: u8 = 6;

/// The call was refused, and it did not succeed when it was made again.
const REFUSED_AGAIN: u8 = 7;

/// What a refused call wrote is not the beginning of what the whole call writes.
const NO_BEGINNING: u8 = 8;

fn main(rt: HostRuntime) -> ExitCode {
    let alloc = rt.alloc();
    let Ok(mut words) = std::env::args(&rt) else {
        return ExitCode::from(UNPREPARED);
    };
    let Ok(line) = described(alloc) else {
        return ExitCode::from(UNPREPARED);
    };
    let Some(word) = words.nth(1) else {
        return ExitCode::from(NO_CALL);
    };
    let status = match word.as_str() {
        "pool" => pool::status(&rt, alloc, &line).unwrap_or(UNPREPARED),
        word => status_of(alloc, &line, word),
    };
    ExitCode::from(status)
}

/// Makes the call with this word, and makes it again if it was refused. Returns the exit status.
fn status_of(alloc: Global, line: &LineSpec, word: &str) -> u8
    requires { opening_fault (description_of line.now) ≡ None }
{
    match calls::made(alloc, line, word) {
        Answer::Refused => status_behind(calls::made(alloc, line, word)),
        answer => status_at_once(answer),
    }
}

/// Returns the exit status for this result of the first call, which is not made again.
fn status_at_once(answer: Answer) -> u8 {
    match answer {
        Answer::Whole => 0,
        Answer::Refused => REFUSED_ONCE,
        Answer::NoBeginning => NO_BEGINNING,
        Answer::Unprepared => UNPREPARED,
        Answer::NoCall => NO_CALL,
        Answer::Other => OTHER,
    }
}

/// Returns the exit status for this result of the second call, after the first was refused.
fn status_behind(again: Answer) -> u8 {
    match again {
        Answer::Whole => REFUSED_ONCE,
        Answer::Refused
        | Answer::NoBeginning
        | Answer::Other
        | Answer::Unprepared
        | Answer::NoCall => REFUSED_AGAIN,
    }
}
