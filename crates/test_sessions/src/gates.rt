//! The calls of sessions to their gate.

ghost use Rattle.dp_sessions.specs.Pools.{IsSeatAt};

use dp_audit::Receipt;
use dp_line::{Device, Op, Step};
use dp_sessions::{
    DroppedOctets, Gate, NotRecorded, OpenGate, Port, SessionEnd, serve, serve_operator_at,
};
use dp_shared::WorkerSeat;
use dp_telegram::WholeFrame;
use dp_text::LineFault;
use std::alloc::Global;
use std::io::Write;
use std::sync::atomic::AtomicU64;
use std::sync::atomic::Ordering::SeqCst;
use std::sync::{Mutex, Wait};
use std::test::Fail;
use test_fixtures::line_specs::ample_line;
use test_fixtures::place::{Place, fresh_place};
use test_fixtures::rows::{is_reported, many_passes};

/// The calls and writes in order, as hexadecimal digits: 1 `accepted`, 2 a write, 3 `enter`, 4 `answered`, 5 `ended`, 6
/// `dropped`, 7 `rejected`, 8 `operates`, 9 `operated`, a `record`, 0 `faulty_line`.
#[derive(Drop)]
struct Calls {
    digits: AtomicU64,
}

impl Calls {
    fn add(&self, digit: u64) {
        let before = self.digits.load(SeqCst);
        self.digits
            .store(before.wrapping_mul(16).wrapping_add(digit), SeqCst);
    }
}

/// A writer that notes each write.
#[derive(Drop)]
struct CountedWrites<'a> {
    calls: &'a Calls,
}

impl Write for CountedWrites<'_> {
    fn write(&mut self, buf: &[u8]) -> std::io::Result<usize> {
        self.calls.add(2);
        Ok(buf.len())
    }

    fn flush(&mut self) -> std::io::Result<()> {
        Ok(())
    }
}

/// Another worker's seat at a port.
#[derive(Drop)]
struct OtherSeat<'a> {
    port: &'a Port,
    seat: WorkerSeat,
    ghost ours: { IsSeatAt port.now.claims seat },
}

impl OtherSeat<'_> {
    /// Serves a master that sends only its address. Returns how the session ended.
    fn serve<T: Wait>(&mut self, rt: &T, address: u8, calls: &Calls) -> SessionEnd {
        let address = [address];
        let mut asks: &[u8] = &address;
        let mut writer = CountedWrites { calls };
        serve(
            rt,
            &mut asks,
            &mut writer,
            self.port,
            &mut self.seat,
            &OpenGate,
            2,
        )
    }
}

/// A gate that notes each call. At `ended` it serves masters 1 and 2 by another seat, and notes how these sessions end.
#[derive(Drop)]
struct Noting<'a> {
    calls: &'a Calls,
    other: Mutex<OtherSeat<'a>>,
}

impl Gate for Noting<'_> {
    ghost recorded = { λ gate line place. Unit {0} };

    fn enter<W: Wait>(&self, _rt: &W, _line: u8, _master: u8) {
        self.calls.add(3);
    }

    fn record<W: Wait>(&self, rt: &W, line: u8, place: Option<u32>) -> Result<(), NotRecorded> {
        self.calls.add(10);
        OpenGate.record(rt, line, place)
    }

    fn accepted<W: Wait>(&self, _rt: &W, _line: u8, _master: u8) {
        self.calls.add(1);
    }

    fn answered<W: Wait>(
        &self,
        _rt: &W,
        _line: u8,
        _master: u8,
        _frame: &WholeFrame<'_>,
        _answer: &Step,
    ) {
        self.calls.add(4);
    }

    fn dropped<W: Wait>(&self, _rt: &W, _line: u8, _master: u8, _dropped: &DroppedOctets) {
        self.calls.add(6);
    }

    fn ended<W: Wait>(&self, rt: &W, _line: u8, _master: u8, _end: SessionEnd) {
        self.calls.add(5);
        let mut other = self.other.lock(rt);
        let first = other.serve(rt, 1, self.calls);
        self.calls.add(u64::from(first.code()));
        let second = other.serve(rt, 2, self.calls);
        self.calls.add(u64::from(second.code()));
    }

    fn rejected<W: Wait>(&self, _rt: &W, _port: u8, _address: Option<u8>, _end: SessionEnd) {
        self.calls.add(7);
    }

    fn operates<W: Wait>(&self, _rt: &W, _line: u8, _op: &Op) {
        self.calls.add(8);
    }

    fn operated<W: Wait>(&self, _rt: &W, _line: u8, _receipt: &Receipt) {
        self.calls.add(9);
    }

    fn faulty_line<W: Wait>(&self, _rt: &W, _line: u8, _octets: &[u8], _fault: LineFault) {
        self.calls.add(0);
    }
}

/// Checks the calls of a session of master 1 that sends these octets, while 63 passes of master 2 are out.
fn master_calls<T: Wait>(rt: &T, alloc: Global, octets: &[u8], expected: &str) -> Result<(), Fail> {
    let spec = ample_line(alloc, 1, Device::Still)?;
    let Place {
        port,
        first,
        second,
        ..
    } = fresh_place(alloc, &spec)?;
    let _passes = many_passes(rt, alloc, &port.line, 2, 63)?;
    let calls = Calls {
        digits: AtomicU64::new(0),
    };
    let gate = Noting {
        calls: &calls,
        other: Mutex::new(OtherSeat {
            port: &port,
            seat: second,
        }),
    };
    let mut seat = first;
    let mut asks = octets;
    let mut writer = CountedWrites { calls: &calls };
    serve(rt, &mut asks, &mut writer, &port, &mut seat, &gate, 9);
    is_reported(
        format!(in alloc; "{:x}", calls.digits.load(SeqCst))?,
        expected,
    )
}

/// Checks the calls of a session of an operator that sends these lines, at a line with one counter.
fn operator_calls<T: Wait>(rt: &T, alloc: Global, lines: &str, expected: &str) -> Result<(), Fail> {
    let spec = ample_line(alloc, 1, Device::Counter)?;
    let Place { port, first, .. } = fresh_place(alloc, &spec)?;
    let calls = Calls {
        digits: AtomicU64::new(0),
    };
    let gate = Noting {
        calls: &calls,
        other: Mutex::new(OtherSeat {
            port: &port,
            seat: first,
        }),
    };
    let mut asks = lines.as_bytes();
    let mut writer = CountedWrites { calls: &calls };
    serve_operator_at(rt, &mut asks, &mut writer, &port, &spec, &gate, 9);
    is_reported(
        format!(in alloc; "{:x}", calls.digits.load(SeqCst))?,
        expected,
    )
}

// The master sends its address, an octet that begins no frame, and a request for the FDL status of slave 5. At `ended`
// (5) the address 1 is still held (AddressHeld is 4). The pass is handed back, so master 2 is accepted (2) and its
// input ends (EndOfInput is 1).
#[test]
fn master_session_calls_its_gate(rt: HostRuntime) -> Result<(), Fail> {
    let octets = [0x01, 0x33, 0x10, 0x05, 0x01, 0x49, 0x4F, 0x16];
    master_calls(&rt, rt.alloc(), &octets, "12634a25421")
}

// Each event of the operator, including the input of a step, is between the calls of its gate, and is recorded before its
// answer. A line that is no command is one call, before its fault is written.
#[test]
fn operator_session_calls_its_gate(rt: HostRuntime) -> Result<(), Fail> {
    operator_calls(
        &rt,
        rt.alloc(),
        "tick 1\nstep\nshow 5\nnone\n",
        "89a289a2202",
    )
}
