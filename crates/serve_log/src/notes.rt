//! Reports on standard error while a rack is served.

use crate::client::Client;
use crate::noted::{LineNumbers, Noted, Subject};
use crate::time_of_day::TimeOfDay;
use dp_sessions::SessionEnd;
use dp_text::{LONGEST_LINE, LineFault};
use log::{Log, info, warn};
use serve_options::{LogDetail, operator_form};
use std::fmt::Display;
use std::io::Error;
use std::sync::atomic::AtomicU32;
use std::sync::atomic::Ordering::SeqCst;
use std::sync::{Mutex, Wait};
use std::time::Clock;

/// Reports of the lines of a rack: one row on standard error for each report, with the time of day (UTC).
#[derive(Drop)]
pub struct Notes<'a, L> {
    pub(crate) log: &'a L,
    pub(crate) log_detail: LogDetail,
    pub(crate) lines: LineNumbers,
    pub(crate) workers: u32,
    pub(crate) attended: AtomicU32,
    pub(crate) noted: Mutex<Noted>,
}

impl<'a, L: Log + Clock> Notes<'a, L> {
    /// Returns the reports of these lines, which `workers` workers serve. Nothing has been reported yet.
    pub fn new(
        log: &'a L,
        log_detail: LogDetail,
        lines: LineNumbers,
        workers: u32,
    ) -> Notes<'a, L> {
        Notes {
            log,
            log_detail,
            lines,
            workers,
            attended: AtomicU32::new(0),
            noted: Mutex::new(Noted::new()),
        }
    }

    /// Counts a connection of a master that waits for a worker. `port` is the place of its port. Reports if all workers
    /// are busy, and then not again until one of them becomes free.
    pub fn waits<W: Wait>(&self, rt: &W, port: u8) {
        if self.attended.fetch_add(1, SeqCst) < self.workers {
            return;
        }
        let mut noted = self.noted.lock(rt);
        if noted.are_busy {
            return;
        }
        noted.are_busy = true;
        let (line, workers) = (self.line_at(port), self.workers);
        let time = TimeOfDay::now(self.log);
        warn!(self.log; target: "rackd", "{time} line {line}: a connection waits, all {workers} workers are busy");
    }

    /// Counts that a worker has ended a session.
    pub(crate) fn leaves<W: Wait>(&self, rt: &W) {
        if self.attended.fetch_sub(1, SeqCst) <= self.workers {
            self.noted.lock(rt).are_busy = false;
        }
    }

    /// Reports that a connection began as a browser begins one, and is closed.
    pub fn web_request<W: Wait>(&self, rt: &W, line: u8, client: Client) {
        self.log_limited(
            rt,
            line,
            Subject::Port(client),
            format_args!("HTTP, TLS or STUN request rejected"),
        );
    }

    /// Reports that an operator's session begins.
    pub fn operator_connected<W: Wait>(&self, rt: &W, line: u8) {
        self.log_row(rt, format_args!("line {line}: operator connected"));
    }

    /// Reports that the session of the operator at this place of its line has ended, and before that how many rows about it were
    /// left out.
    pub fn operator_ended<W: Wait>(&self, rt: &W, line: u8, place: usize, end: SessionEnd) {
        self.forget_operator(rt, line, place);
        let end = end.name();
        self.log_row(rt, format_args!("line {line}: operator ended: {end}"));
    }

    /// Writes how many rows about an operator were left out, and begins again for the next operator at its place.
    fn forget_operator<W: Wait>(&self, rt: &W, line: u8, place: usize) {
        let subject = Subject::Operator(place);
        let mut noted = self.noted.lock(rt);
        if let Some(limit) = noted.limit_of(line, subject) {
            let left_out = std::mem::take(limit).take_left_out();
            self.write_left_out(line, subject, left_out);
        }
    }

    /// Reports that a row of the operator at this place of its line has this fault. The octets are those of the row without its
    /// LF, at most the first 1,025.
    pub fn faulty_line<W: Wait>(
        &self,
        rt: &W,
        line: u8,
        place: usize,
        octets: &[u8],
        fault: LineFault,
    ) {
        let subject = Subject::Operator(place);
        match fault {
            LineFault::TooLong => self.log_limited(
                rt,
                line,
                subject,
                format_args!("operator: a row has more than {LONGEST_LINE} octets"),
            ),
            LineFault::NotACommand => match std::str::from_utf8(octets) {
                Ok(text) => {
                    let form = operator_form(text);
                    self.log_limited(
                        rt,
                        line,
                        subject,
                        format_args!("operator: no command, \"{text}\": {form}"),
                    );
                }
                Err(_) => self.log_limited(
                    rt,
                    line,
                    subject,
                    format_args!("operator: a row is not UTF-8"),
                ),
            },
        }
    }

    /// Reports that a connection cannot be accepted.
    pub fn cannot_accept<W: Wait>(&self, rt: &W, line: u8, client: Client, error: Error) {
        self.log_limited(
            rt,
            line,
            Subject::Port(client),
            format_args!("cannot accept a connection: {error}"),
        );
    }

    /// Reports that the audit text of a line continues in another file.
    pub fn goes_on<W: Wait>(&self, rt: &W, line: u8, file: impl Display + Drop) {
        self.log_row(rt, format_args!("line {line} goes on in {file}"));
    }

    /// Reports that a file of the audit text of a line cannot be deleted.
    pub fn cannot_delete<W: Wait>(
        &self,
        rt: &W,
        line: u8,
        file: impl Display + Drop,
        error: Error,
    ) {
        let _one_row_at_a_time = self.noted.lock(rt);
        let time = TimeOfDay::now(self.log);
        warn!(self.log; target: "rackd", "{time} line {line}: cannot delete {file}: {error}");
    }

    /// Reports that a file with the times of the entries of a line cannot be written. Nothing more is written to it.
    pub fn cannot_write_times<W: Wait>(
        &self,
        rt: &W,
        line: u8,
        file: impl Display + Drop,
        error: Error,
    ) {
        let _one_row_at_a_time = self.noted.lock(rt);
        let time = TimeOfDay::now(self.log);
        warn!(self.log; target: "rackd", "{time} line {line}: cannot write times to {file}: {error}");
    }

    /// Reports that the program was delayed, so that these milliseconds don't pass on a line. There is at most one row a second
    /// for all lines, and none for a line that is halted.
    pub fn discarded<W: Wait>(&self, rt: &W, line: u8, milliseconds: u64) {
        let second = self.second();
        let mut noted = self.noted.lock(rt);
        if noted.halted.contains(&line) {
            return;
        }
        let milliseconds = noted.delays.add(second, line, milliseconds);
        self.write_delay(milliseconds);
    }

    /// Reports what was discarded in an earlier second and not reported yet, if anything was.
    pub fn report_delays<W: Wait>(&self, rt: &W) {
        let second = self.second();
        let milliseconds = self.noted.lock(rt).delays.left(second);
        self.write_delay(milliseconds);
    }

    /// Writes how many milliseconds were discarded, if any were.
    fn write_delay(&self, milliseconds: Option<u64>) {
        if let Some(milliseconds) = milliseconds {
            let time = TimeOfDay::now(self.log);
            warn!(self.log; target: "rackd", "{time} {milliseconds} ms were discarded: the rack was delayed");
        }
    }

    /// Reports how many rows about each port were left out since the last one. It is called when serving ends.
    pub fn sum_up<W: Wait>(&self, rt: &W) {
        let mut noted = self.noted.lock(rt);
        for rows in &mut noted.limits {
            let left_out = rows.limit.take_left_out();
            self.write_left_out(rows.line, rows.subject, left_out);
        }
    }

    /// Writes how many rows about a subject were left out, if any were.
    fn write_left_out(&self, line: u8, subject: Subject, left_out: u32) {
        if left_out > 0 {
            let (time, subject) = (TimeOfDay::now(self.log), subject.name());
            info!(self.log; target: "rackd", "{time} line {line}: {left_out} more rows about {subject}");
        }
    }

    /// Returns the second since 1970; 0 if the clock cannot be read.
    pub(crate) fn second(&self) -> u64 {
        match self.log.since_1970() {
            Ok(since) => since.as_secs(),
            Err(_) => 0,
        }
    }

    /// Returns the number of the line whose port has this place, or 0 if there is none.
    pub(crate) fn line_at(&self, port: u8) -> u8 {
        match self.lines.get(usize::from(port)) {
            Some(number) => *number,
            None => 0,
        }
    }

    /// Reports something about connections, sessions or requests, unless only halts are reported.
    pub(crate) fn log_row<W: Wait>(&self, rt: &W, row: impl Display + Drop) {
        if self.log_detail != LogDetail::Warnings {
            let _one_row_at_a_time = self.noted.lock(rt);
            let time = TimeOfDay::now(self.log);
            info!(self.log; target: "rackd", "{time} {row}");
        }
    }

    /// Reports something about a port or an operator, unless only halts are reported. Each of them has at most ten such rows a
    /// second; how many are left out comes before the next one, or when the operator's session or serving ends.
    pub(crate) fn log_limited<W: Wait>(
        &self,
        rt: &W,
        line: u8,
        subject: Subject,
        row: impl Display + Drop,
    ) {
        if self.log_detail == LogDetail::Warnings {
            return;
        }
        let second = self.second();
        let mut noted = self.noted.lock(rt);
        let Some(limit) = noted.limit_of(line, subject) else {
            return;
        };
        if !limit.has_room(second) {
            limit.leave_out();
            return;
        }
        let left_out = limit.count_written();
        self.write_left_out(line, subject, left_out);
        let time = TimeOfDay::now(self.log);
        info!(self.log; target: "rackd", "{time} line {line}: {row}");
    }
}
