//! Sessions by a given pass, and the number of reads that a session makes.

ghost use Rattle.std.specs.Prelude.{◌≡◌, ◌≢◌};
ghost use Rattle.dp_shared.specs.Passes.{line_of, table_of};

use crate::counting::{ByCount, Counting};
use crate::seats::one_seat;
use dp_line::{Device, LineSpec};
use dp_sessions::{
    OpenGate, Port, SessionEnd, serve_by, serve_operator_pass, serve_operator_pass_by, serve_pass,
    serve_pass_by,
};
use dp_shared::{Line, Pass};
use std::alloc::Global;
use std::sync::Wait;
use std::test::Fail;
use test_fixtures::line_specs::ample_line;
use test_fixtures::rows::{close, octets_of};

/// Serves a master by its pass, either with the reads counted in the contract or without.
fn serve_master<T: Wait>(
    rt: &T,
    counted: bool,
    line: &Line,
    pass: &mut Pass,
    reader: &mut Counting<'_>,
    writer: &mut Vec<u8>,
    turns: u32,
) -> SessionEnd
    requires ours { pass.old.table ≡ table_of line.now }
    requires master { pass.old.view.address ≢ 127 }
    ensures ours { pass.new.table ≡ pass.old.table }
{
    if counted {
        serve_pass_by::<T, Counting, ByCount, Vec<u8>, OpenGate>(
            rt, reader, writer, line, pass, &OpenGate, turns,
        )
    } else {
        serve_pass(rt, reader, writer, line, pass, &OpenGate, turns)
    }
}

/// How a session ended, and the numbers of its reads, of the octets that it wrote, and of the entries of the closed line.
#[derive(Drop)]
struct Counts {
    end: SessionEnd,
    made: u32,
    written: usize,
    entries: u32,
}

/// Returns the number of entries of a line that is closed without passes.
fn entries_at_the_end(alloc: Global, line: Line) -> Result<u32, Fail> {
    match close(line, Vec::new(alloc)) {
        Ok(closed) => Ok(closed.book().count()),
        Err(_) => Err(Fail::new("a pass is out")),
    }
}

/// Serves master 2 on a fresh line by a pass, hands the pass back and closes the line.
fn master_counts<T: Wait>(
    rt: &T,
    alloc: Global,
    counted: bool,
    octets: &str,
    turns: u32,
) -> Result<Counts, Fail> {
    let line = Line::open(alloc, &ample_line(alloc, 1, Device::Still)?)?;
    let mut pass = line.open_pass(rt, 2)?;
    let octets = octets_of(octets)?;
    let mut reader = Counting::new(&octets);
    let mut writer: Vec<u8> = Vec::new(alloc);
    let end = serve_master(
        rt,
        counted,
        &line,
        &mut pass,
        &mut reader,
        &mut writer,
        turns,
    );
    line.hand_back(rt, pass);
    Ok(Counts {
        end,
        made: reader.made,
        written: writer.len(),
        entries: entries_at_the_end(alloc, line)?,
    })
}

/// Serves an operator by its pass, either with the reads counted in the contract or without.
fn serve_lines<T: Wait>(
    rt: &T,
    counted: bool,
    line: &Line,
    spec: &LineSpec,
    pass: &mut Pass,
    reader: &mut Counting<'_>,
    writer: &mut Vec<u8>,
    turns: u32,
) -> SessionEnd
    requires described { line_of line.now ≡ spec.now }
    requires ours { pass.old.table ≡ table_of line.now }
    requires operator { pass.old.view.address ≡ 127 }
    ensures ours { pass.new.table ≡ pass.old.table }
{
    if counted {
        serve_operator_pass_by::<T, Counting, ByCount, Vec<u8>, OpenGate>(
            rt, reader, writer, line, spec, pass, &OpenGate, turns,
        )
    } else {
        serve_operator_pass(rt, reader, writer, line, spec, pass, &OpenGate, turns)
    }
}

/// Serves an operator on a fresh line by a pass, hands the pass back and closes the line.
fn operator_counts<T: Wait>(
    rt: &T,
    alloc: Global,
    counted: bool,
    lines: &str,
    turns: u32,
) -> Result<Counts, Fail> {
    let spec = ample_line(alloc, 1, Device::Still)?;
    let line = Line::open(alloc, &spec)?;
    let mut pass = line.open_pass(rt, 127)?;
    let mut reader = Counting::new(lines.as_bytes());
    let mut writer: Vec<u8> = Vec::new(alloc);
    let end = serve_lines(
        rt,
        counted,
        &line,
        &spec,
        &mut pass,
        &mut reader,
        &mut writer,
        turns,
    );
    line.hand_back(rt, pass);
    Ok(Counts {
        end,
        made: reader.made,
        written: writer.len(),
        entries: entries_at_the_end(alloc, line)?,
    })
}

/// Serves a master at a new port with a reader that counts its reads, and closes the line.
fn port_counts<T: Wait>(rt: &T, alloc: Global, octets: &str, turns: u32) -> Result<Counts, Fail> {
    let spec = ample_line(alloc, 1, Device::Still)?;
    let (claims, mut seat) = one_seat(alloc, &spec)?;
    let line = Line::open(alloc, &spec)?;
    let port = Port { line, claims };
    let octets = octets_of(octets)?;
    let mut reader = Counting::new(&octets);
    let mut writer: Vec<u8> = Vec::new(alloc);
    let end = serve_by::<T, Counting, ByCount, Vec<u8>, OpenGate>(
        rt,
        &mut reader,
        &mut writer,
        &port,
        &mut seat,
        &OpenGate,
        turns,
    );
    Ok(Counts {
        end,
        made: reader.made,
        written: writer.len(),
        entries: entries_at_the_end(alloc, port.line)?,
    })
}

/// Returns whether a session ended so, with these numbers of reads, of octets that it wrote, and of entries.
fn is_counted(counts: &Counts, end: SessionEnd, made: u32, written: usize, entries: u32) -> bool {
    counts.end == end
        && counts.made == made
        && counts.written == written
        && counts.entries == entries
}

/// The first read returns the address of master 1, the second read the request, and the third read nothing.
#[test]
fn serve_by_answers_a_master(rt: HostRuntime) -> Result<(), Fail> {
    let counts = port_counts(&rt, rt.alloc(), "016805056885816d3c3eed16", 4)?;
    assert!(rt; is_counted(&counts, SessionEnd::EndOfInput, 3, 18, 1));
    Ok(())
}

/// The only read returns the address.
#[test]
fn serve_by_makes_one_read(rt: HostRuntime) -> Result<(), Fail> {
    let counts = port_counts(&rt, rt.alloc(), "016805056885816d3c3eed16", 1)?;
    assert!(rt; is_counted(&counts, SessionEnd::TurnLimit, 1, 1, 0));
    Ok(())
}

/// A request to no station, and a request for the FDL status of the slave, which gets six octets. The first read returns
/// both, and the second read returns nothing.
const TWO_REQUESTS: &str = "100902495416100502495016";

#[test]
fn serve_pass_answers_a_master(rt: HostRuntime) -> Result<(), Fail> {
    let counts = master_counts(&rt, rt.alloc(), false, TWO_REQUESTS, 3)?;
    assert!(rt; is_counted(&counts, SessionEnd::EndOfInput, 2, 6, 2));
    Ok(())
}

#[test]
fn serve_pass_by_makes_one_read(rt: HostRuntime) -> Result<(), Fail> {
    let counts = master_counts(&rt, rt.alloc(), true, TWO_REQUESTS, 1)?;
    assert!(rt; is_counted(&counts, SessionEnd::TurnLimit, 1, 6, 2));
    Ok(())
}

/// Three lines of an operator, which are answered by 9, 18 and 44 octets. The first read returns them, and the second
/// read returns nothing.
const THREE_LINES: &str = "tick 1\nin 9 aa\nshow 5\n";

#[test]
fn serve_operator_pass_answers_an_operator(rt: HostRuntime) -> Result<(), Fail> {
    let counts = operator_counts(&rt, rt.alloc(), false, THREE_LINES, 3)?;
    assert!(rt; is_counted(&counts, SessionEnd::EndOfInput, 2, 71, 1));
    Ok(())
}

#[test]
fn serve_operator_pass_by_makes_one_read(rt: HostRuntime) -> Result<(), Fail> {
    let counts = operator_counts(&rt, rt.alloc(), true, THREE_LINES, 1)?;
    assert!(rt; is_counted(&counts, SessionEnd::TurnLimit, 1, 71, 1));
    Ok(())
}
