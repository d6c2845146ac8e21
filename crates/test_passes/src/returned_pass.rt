//! Passes that were handed back, and the journal of their closed line.

ghost use Rattle.std.specs.Prelude.{◌≡◌, ◌+◌, ◌≤◌, [], ◌∷◌, IfOk};
ghost use Rattle.dp_shared.specs.Passes.{line_of, table_of};
ghost use Rattle.dp_sessions.specs.Pools.{IsSeatAt};

use crate::counting::{ByCount, Counting};
use crate::seats::one_seat;
use dp_line::{Device, LineSpec};
use dp_sessions::{OpenGate, Port, Session, serve_operator_session, serve_session};
use dp_shared::{Line, ReturnedPass, WorkerSeat};
use std::alloc::{AllocError, Global};
use std::sync::Wait;
use std::test::Fail;
use test_fixtures::line_specs::ample_line;
use test_fixtures::rows::octets_of;

/// Serves a master with a reader that counts its reads, and returns the pass that served it.
fn master_session<T: Wait>(
    rt: &T,
    port: &Port,
    seat: &mut WorkerSeat,
    reader: &mut Counting<'_>,
    writer: &mut Vec<u8>,
    turns: u32,
) -> Result<ReturnedPass, Fail>
    requires { IsSeatAt port.now.claims seat.old }
    ensures reads { reader.new.made ≤ reader.old.made + turns }
    ensures ours { IfOk result (λ returned_pass. returned_pass.table ≡ table_of port.now.line) }
{
    match serve_session::<T, Counting, ByCount, Vec<u8>, OpenGate>(
        rt, reader, writer, port, seat, &OpenGate, turns,
    ) {
        Session::Accepted { returned_pass, .. } => Ok(returned_pass),
        Session::Rejected { .. } => Err(Fail::new("rejected")),
    }
}

/// Serves an operator with a reader that counts its reads, and returns the pass that served it.
fn operator_session<T: Wait>(
    rt: &T,
    port: &Port,
    line: &LineSpec,
    reader: &mut Counting<'_>,
    writer: &mut Vec<u8>,
    turns: u32,
) -> Result<ReturnedPass, Fail>
    requires { line_of port.now.line ≡ line.now }
    ensures reads { reader.new.made ≤ reader.old.made + turns }
    ensures ours { IfOk result (λ returned_pass. returned_pass.table ≡ table_of port.now.line) }
{
    match serve_operator_session::<T, Counting, ByCount, Vec<u8>, OpenGate>(
        rt, reader, writer, port, line, &OpenGate, turns,
    ) {
        Session::Accepted { returned_pass, .. } => Ok(returned_pass),
        Session::Rejected { .. } => Err(Fail::new("rejected")),
    }
}

/// Returns a list of these two elements.
fn both(
    alloc: Global,
    first: ReturnedPass,
    second: ReturnedPass,
) -> Result<Vec<ReturnedPass>, AllocError>
    ensures { IfOk result (λ v. v.items ≡ first ∷ second ∷ []) }
{
    let mut list = Vec::with_capacity(alloc, 2)?;
    list.push_reserved(first);
    list.push_reserved(second);
    Ok(list)
}

/// The numbers of reads that a master's and an operator's session made; after the line was closed with their passes, how
/// many passes were opened, how many are left in the list, and how many entries the journal has.
#[derive(Drop)]
struct Counts {
    by_master: u32,
    by_operator: u32,
    opened: u32,
    left: usize,
    entries: u32,
}

/// Serves a master and then an operator at a new port, and closes the line with their passes.
fn counts_of_both<T: Wait>(
    rt: &T,
    alloc: Global,
    octets: &str,
    lines: &[u8],
) -> Result<Counts, Fail> {
    let spec = ample_line(alloc, 1, Device::Still)?;
    let (claims, mut seat) = one_seat(alloc, &spec)?;
    let line = Line::open(alloc, &spec)?;
    let port = Port { line, claims };
    let octets = octets_of(octets)?;
    let (mut master_reader, mut operator_reader) = (Counting::new(&octets), Counting::new(lines));
    let mut written: Vec<u8> = Vec::new(alloc);
    let master = master_session(rt, &port, &mut seat, &mut master_reader, &mut written, 9)?;
    let operator = operator_session(rt, &port, &spec, &mut operator_reader, &mut written, 9)?;
    let mut returned_pass = both(alloc, master, operator)?;
    let Ok(closed) = port.line.close_with(Vec::new(alloc), &mut returned_pass) else {
        return Err(Fail::new("a pass is out"));
    };
    Ok(Counts {
        by_master: master_reader.made,
        by_operator: operator_reader.made,
        opened: closed.opened(),
        left: returned_pass.len(),
        entries: closed.book().count(),
    })
}

/// The master's session reads the address, the octets after it and the end; the operator's session reads the lines
/// and the end.
#[test]
fn returned_passes_have_the_journal(rt: HostRuntime) -> Result<(), Fail> {
    let counts = counts_of_both(&rt, rt.alloc(), "02100502495016", b"tick 1\n")?;
    assert!(rt; counts.by_master == 3 && counts.by_operator == 2);
    assert!(rt; counts.opened == 2 && counts.left == 0 && counts.entries == 2);
    Ok(())
}
