//! What is logged if a master is answered between the halt of an operator and its report.

use arrayvec::ArrayString;
use dp_audit::Receipt;
use dp_line::{Device, Op};
use dp_sessions::{Gate, NotRecorded, OpenGate, Port, serve_operator_at, serve_pass};
use log::kv::Source;
use log::span::Spans;
use log::{Log, Metadata, Record};
use serve_log::{LineNumbers, Notes};
use serve_options::LogDetail;
use std::alloc::Global;
use std::fmt::{Display, Write};
use std::io;
use std::sync::Wait;
use std::sync::atomic::AtomicU64;
use std::sync::atomic::Ordering::SeqCst;
use std::test::Fail;
use std::time::{Clock, Duration};
use test_fixtures::line_specs::ample_line;
use test_fixtures::place::{Place, fresh_place};

/// A request of master 1 for the FDL status of slave 5.
const ASKS_STATUS: &[u8] = &[0x10, 0x05, 0x01, 0x49, 0x4F, 0x16];

/// A log that expects these rows, in order, each without its time of day, at one millisecond before midnight.
#[derive(Drop)]
struct Expecting<'a> {
    rows: &'a [&'a str],
    seen: AtomicU64,
    wrong: AtomicU64,
}

impl<'a> Expecting<'a> {
    fn new(rows: &'a [&'a str]) -> Expecting<'a> {
        Expecting {
            rows,
            seen: AtomicU64::new(0),
            wrong: AtomicU64::new(0),
        }
    }

    /// Checks that exactly the expected rows came.
    fn is_met(&self, alloc: Global) -> Result<(), Fail> {
        let (seen, wrong) = (self.seen.load(SeqCst), self.wrong.load(SeqCst));
        if seen == self.rows.len() as u64 && wrong == 0 {
            return Ok(());
        }
        Err(format!(in alloc; "{seen} rows, {wrong} of them wrong")?)?
    }
}

impl Log for Expecting<'_> {
    fn enabled(&self, _metadata: &Metadata<'_>) -> bool {
        true
    }

    fn log<D: Display, K: Source, S: Spans>(&self, record: &Record<'_, D, K, S>) {
        let mut row = ArrayString::<128>::new();
        let _ = write!(row, "{}", record.args());
        let index = self.seen.fetch_add(1, SeqCst) as usize;
        let expected = self.rows.get(index).copied();
        if row.as_str().strip_prefix("23:59:59.999 ") != expected {
            self.wrong.fetch_add(1, SeqCst);
        }
    }

    fn flush(&self) {}

    fn target(&self) -> &str {
        ""
    }
}

impl Clock for Expecting<'_> {
    fn monotonic(&self) -> io::Result<Duration> {
        Ok(Duration::from_millis(0))
    }

    fn since_1970(&self) -> io::Result<Duration> {
        Ok(Duration::from_millis(86_399_999))
    }
}

/// A writer that takes all octets.
#[derive(Drop)]
struct Discard;

impl io::Write for Discard {
    fn write(&mut self, buf: &[u8]) -> io::Result<usize> {
        Ok(buf.len())
    }

    fn flush(&mut self) -> io::Result<()> {
        Ok(())
    }
}

/// A gate that serves a master between each event of the operator and its report. At that time the event has taken
/// effect and is not answered.
#[derive(Drop)]
struct MasterMeanwhile<'a> {
    notes: &'a Notes<'a, Expecting<'a>>,
    port: &'a Port,
}

impl Gate for MasterMeanwhile<'_> {
    ghost recorded = { λ gate line place. Unit {0} };

    fn enter<W: Wait>(&self, _rt: &W, _line: u8, _master: u8) {}

    fn record<W: Wait>(&self, rt: &W, line: u8, place: Option<u32>) -> Result<(), NotRecorded> {
        OpenGate.record(rt, line, place)
    }

    fn operates<W: Wait>(&self, rt: &W, line: u8, op: &Op) {
        self.notes.operates(rt, line, op);
    }

    fn operated<W: Wait>(&self, rt: &W, line: u8, receipt: &Receipt) {
        let own = &self.port.line;
        if let Ok(mut pass) = own.open_pass(rt, 1) {
            let mut asks = ASKS_STATUS;
            serve_pass(rt, &mut asks, &mut Discard, own, &mut pass, self.notes, 2);
            own.hand_back(rt, pass);
        }
        self.notes.operated(rt, line, receipt);
    }
}

/// Returns the numbers of two lines.
fn two_lines() -> LineNumbers {
    let mut numbers = LineNumbers::new();
    numbers.push(3);
    numbers.push(7);
    numbers
}

/// Checks what is logged while an operator of line 3 sends these lines, and master 1 sends a request after each.
fn reports<T: Wait>(rt: &T, alloc: Global, lines: &str, rows: &[&str]) -> Result<(), Fail> {
    let spec = ample_line(alloc, 3, Device::Still)?;
    let Place { port, .. } = fresh_place(alloc, &spec)?;
    let log = Expecting::new(rows);
    let notes = Notes::new(&log, LogDetail::Warnings, two_lines(), 1);
    let gate = MasterMeanwhile {
        notes: &notes,
        port: &port,
    };
    let mut asks = lines.as_bytes();
    serve_operator_at(rt, &mut asks, &mut Discard, &port, &spec, &gate, 2);
    log.is_met(alloc)
}

#[test]
fn operator_halts_before_a_master_is_answered(rt: HostRuntime) -> Result<(), Fail> {
    let rows = ["line 3: halted, by its operator"];
    reports(&rt, rt.alloc(), "tick 1\nhalt\n", &rows)
}
