//! Lines from two sides, each passed on by a thread of its own.

use crossbeam_channel::{Receiver, Sender};
use std::alloc::Global;
use std::io::{self, BufRead, BufReader, ErrorKind, Read};
use std::sync::Wait;
use system_errors::Cause;

/// The octet that ends a line.
pub(crate) const LF: u8 = b'\n';

/// The most octets of a line, without its LF. Of a longer line of the input this many and one more are sent, so that the
/// port sees that it is too long; a longer line of the port is refused.
pub(crate) const MOST_OCTETS: usize = 65_536;

/// The side that something comes from.
#[derive(Clone, Copy, PartialEq, Eq)]
pub(crate) enum Side {
    /// Standard input.
    Input,
    /// The port.
    Port,
}

/// What was read.
#[derive(Drop)]
pub(crate) enum Taken {
    /// A line with its LF; the last line of the input may lack it.
    Line(Vec<u8>),
    /// The end of the side.
    End,
    /// The side cannot be read, for this reason.
    Fault(Cause),
    /// A line of the port has more than [`MOST_OCTETS`] octets.
    TooLong,
    /// Out of memory.
    OutOfMemory,
}

/// Something that was read from a side.
#[derive(Drop)]
pub(crate) struct Incoming {
    /// The side.
    pub(crate) side: Side,
    /// What was read from it.
    pub(crate) taken: Taken,
}

/// Passes on the lines of a side until the side ends or nobody receives them. If there is a channel `asked`, passes
/// on one line for each message on it. A line without an LF is the last one, even if more could be read from a
/// terminal.
pub(crate) fn hand_on<H: Wait + Drop, R: Read + Drop>(
    rt: H,
    alloc: Global,
    side: Side,
    mut lines: BufReader<R>,
    asked: Option<Receiver<()>>,
    incoming: Sender<Incoming>,
) {
    let mut has_ended = false;
    for _ in rt.forever() {
        if let Some(asked) = &asked
            && asked.recv(&rt).is_err()
        {
            return;
        }
        let taken = if has_ended {
            Taken::End
        } else {
            next_line(alloc, side, &mut lines)
        };
        has_ended = !taken.is_whole_line();
        let is_last = !matches!(&taken, Taken::Line(_));
        if incoming.send(&rt, Incoming { side, taken }).is_err() || is_last {
            return;
        }
    }
}

/// Returns the next line, or the end. The port ends each line by an LF, so a line of the port without one was cut off
/// and counts as the end. Stores at most [`MOST_OCTETS`] and two octets.
fn next_line<R: Read + Drop>(alloc: Global, side: Side, lines: &mut BufReader<R>) -> Taken {
    let mut line = Vec::new(alloc);
    let most = MOST_OCTETS as u64 + 1;
    match lines.by_ref().take(most).read_until(LF, &mut line) {
        Ok(0) => Taken::End,
        Ok(_) if is_whole(&line) => Taken::Line(line),
        Ok(count) if count > MOST_OCTETS => end_long_line(side, line, lines),
        Ok(_) => match side {
            Side::Port => Taken::End,
            Side::Input => Taken::Line(line),
        },
        Err(error) => fault_of(&error),
    }
}

/// Returns a line that is too long: of the input with an LF in place of what is left of it.
fn end_long_line<R: Read + Drop>(side: Side, mut line: Vec<u8>, lines: &mut BufReader<R>) -> Taken {
    match side {
        Side::Port => Taken::TooLong,
        Side::Input => match lines.skip_until(LF) {
            Ok(_) if line.push(LF).is_ok() => Taken::Line(line),
            Ok(_) => Taken::OutOfMemory,
            Err(error) => fault_of(&error),
        },
    }
}

/// Returns what a failed read gives.
fn fault_of(error: &io::Error) -> Taken {
    match error.kind() {
        ErrorKind::OutOfMemory => Taken::OutOfMemory,
        _ => Taken::Fault(Cause::from_error(error)),
    }
}

impl Taken {
    /// Returns whether this is a line with its LF.
    fn is_whole_line(&self) -> bool {
        match self {
            Taken::Line(line) => is_whole(line),
            Taken::End | Taken::Fault(_) | Taken::TooLong | Taken::OutOfMemory => false,
        }
    }
}

/// Returns whether the line has its LF.
fn is_whole(line: &[u8]) -> bool {
    line.last() == Some(&LF)
}

/// Returns the octets of a line without its LF.
pub(crate) fn without_end(line: &[u8]) -> &[u8] {
    match line {
        [octets @ .., LF] => octets,
        octets => octets,
    }
}
