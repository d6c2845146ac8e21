//! Lines of standard input.

use crate::shared::Shared;
use cable_faults::{Answer, NOT_A_COMMAND, push_answer, read_line};
use dp_text::Text;
use std::alloc::Global;
use std::io::{BufRead, BufReader, Read};
use std::sync::{Arc, Wait};

/// The octet that ends a line.
const LF: u8 = b'\n';

/// The most octets that are stored of a line. No line that asks for anything is as long.
const MOST_STORED: u64 = 64;

/// Does what each line of standard input asks for, until the input ends or cannot be read. An empty line and one that
/// begins with `#` ask for nothing. A line is read once there is a place for its answer.
pub(crate) fn obey_all<H: Wait + Drop, R: Read + Drop>(
    rt: H,
    alloc: Global,
    mut lines: BufReader<R>,
    shared: Arc<Shared, Global>,
) {
    for _ in rt.forever() {
        shared.rows.take_place(&rt);
        let Some(line) = next_line(alloc, &mut lines) else {
            return;
        };
        obey(&rt, &shared, without_end(&line));
    }
}

/// Returns the first [`MOST_STORED`] octets of the next line, its LF among them; None at the end of the input, or if it
/// cannot be read or memory is refused.
fn next_line<R: Read + Drop>(alloc: Global, lines: &mut BufReader<R>) -> Option<Vec<u8>> {
    let mut line = Vec::new(alloc);
    let count = lines
        .by_ref()
        .take(MOST_STORED)
        .read_until(LF, &mut line)
        .ok()?;
    if count == 0 {
        return None;
    }
    if line.last() != Some(&LF) {
        lines.skip_until(LF).ok()?;
    }
    Some(line)
}

/// Does what a line asks for, and puts its answer. If it has none, its place is free again, and so are those of orders
/// that get none any more.
fn obey(rt: &impl Wait, shared: &Shared, line: &[u8]) {
    if line.is_empty() || line.starts_with(b"#") {
        shared.rows.give_back(rt, 1);
        return;
    }
    let mut row = Text::new();
    let Some(line) = read_line(line) else {
        row.push_str(NOT_A_COMMAND);
        shared.rows.answer(rt, row);
        return;
    };
    let (answer, cleared) = shared.state.lock(rt).obey(line);
    shared.rows.give_back(rt, cleared);
    if answer != Answer::Waits {
        push_answer(&mut row, answer, line);
        shared.rows.answer(rt, row);
    }
}

/// Returns the octets of a line without its LF.
fn without_end(line: &[u8]) -> &[u8] {
    match line {
        [octets @ .., LF] => octets,
        octets => octets,
    }
}
