//! Trails that are refused: without a pass, or without room for the header.

use audit_trail::{Tail, WriteParts};
use dp_line::Device;
use std::alloc::Global;
use std::io::{ErrorKind, Result as IoResult, Write};
use std::sync::{Mutex, Wait};
use std::test::Fail;
use test_fixtures::line_specs::ample_line;
use test_fixtures::place::{Place, fresh_place};
use test_fixtures::rows::{closed_with, is_reported, many_passes};

/// What was written of a trail, and the number of octets for which there is room.
#[derive(Drop)]
struct Written {
    text: String,
    room: usize,
}

/// A writer that takes the text of a trail as far as there is room.
#[derive(Drop)]
struct Rows<'a, H: Wait> {
    rt: &'a H,
    written: &'a Mutex<Written>,
}

impl<H: Wait> Write for Rows<'_, H> {
    fn write(&mut self, buf: &[u8]) -> IoResult<usize> {
        let mut written = self.written.lock(self.rt);
        let count = buf.len().min(written.room);
        if count == 0 {
            return Err(ErrorKind::StorageFull.into());
        }
        let text = std::str::from_utf8(&buf[..count]).map_err(|_| ErrorKind::InvalidData)?;
        written.text.push_str(text)?;
        written.room -= count;
        Ok(count)
    }

    fn flush(&mut self) -> IoResult<()> {
        Ok(())
    }
}

impl<H: Wait> WriteParts for Rows<'_, H> {
    fn part_is_due(&self) -> bool {
        false
    }

    fn begin_part(&mut self) -> IoResult<()> {
        Ok(())
    }
}

/// Opens a trail that has room for `room` octets while `out` passes are out. Returns what is written, why the trail is
/// refused, and the journal.
fn refused_with<T: Wait>(rt: &T, alloc: Global, room: usize, out: usize) -> Result<String, Fail> {
    let Place { port, .. } = fresh_place(alloc, &ample_line(alloc, 1, Device::Still)?)?;
    let passes = many_passes(rt, alloc, &port.line, 2, out)?;
    let written = Mutex::new(Written {
        text: String::new(alloc),
        room,
    });
    let rows = Rows {
        rt,
        written: &written,
    };
    let Err(fault) = Tail::open(rt, alloc, &port.line, rows) else {
        return Err(Fail::new("a trail"));
    };
    let mut reported = written.into_inner().text;
    reported.push_str(&format!(in alloc; " {fault} {}\n", fault.code())?)?;
    reported.push_str(&closed_with(alloc, port.line, passes)?)?;
    Ok(reported)
}

/// A trail that gets no pass, and a trail whose header is cut and whose pass is handed back.
#[test]
fn no_header(rt: HostRuntime) -> Result<(), Fail> {
    let reported = refused_with(&rt, rt.alloc(), 1000, 64)?;
    is_reported(reported, " no pass 1\nrack-audit 2 line 1\n")?;
    let reported = refused_with(&rt, rt.alloc(), 5, 0)?;
    is_reported(reported, "rack- no header 2\nrack-audit 2 line 1\n")
}
