//! A client that serves a session and then reads from the closed line which entries the session was answered with.

ghost use Rattle.std.specs.Prelude.{◌≡◌, ◌≢◌, ◌+◌, ◌≤◌, ℕ, [], ◌∷◌, true, Some, None, IfOk};
ghost use Rattle.dp_line.specs.World.{description_of, opening_fault};
ghost use Rattle.dp_shared.specs.Passes.{new_pass, table_of};
ghost use Rattle.dp_shared.specs.declared.line_view.PassView.{PassView};
ghost use Rattle.dp_sessions.specs.declared.session_end.SessionEnd.{SessionEnd as End};
ghost use Rattle.dp_sessions.specs.Tied.{HasAnswered, entries_behind};

use crate::counting::{ByCount, Counting};
use crate::seats::one_seat;
use dp_line::{Device, LineSpec};
use dp_sessions::laws::a_session_has_its_entries;
use dp_sessions::{Gate, OpenGate, Reads, serve_pass_by};
use dp_shared::{Closed, Line, Pass};
use dp_telegram::GLOBAL_ADDRESS;
use std::alloc::{AllocError, Global};
use std::io::{Read, Write};
use std::sync::Wait;
use std::test::Fail;
use test_fixtures::line_specs::ample_line;
use test_fixtures::rows::octets_of;

/// Returns this pass as a list.
pub(crate) fn listed<P: Drop>(alloc: Global, pass: P) -> Result<Vec<P>, AllocError>
    ensures { IfOk result (λ v. v.items ≡ pass ∷ []) }
{
    let mut passes = Vec::with_capacity(alloc, 1)?;
    passes.push_reserved(pass);
    Ok(passes)
}

/// Serves a master's session by a pass, and closes the line. Fails if memory is refused or another pass is out.
///
/// The session wrote the replies of the entries that it left in the journal of the closed line.
fn serve_and_close<T: Wait, R: Read, C: Reads<R>, W: Write, G: Gate>(
    rt: &T,
    alloc: Global,
    line: Line,
    pass: Pass,
    reader: &mut R,
    writer: &mut W,
    gate: &G,
    turns: u32,
) -> Result<Closed, Fail>
    requires ours { pass.table ≡ table_of line }
    requires master { pass.view.address ≢ 127 }
    ensures reads { C.reads reader.new ≤ C.reads reader.old + turns }
    ensures answered { IfOk result (λ closed. (after : PassView) × (end : End)
        × (end ≡ End.ReadFault → C.failed reader.new ≡ true)
        × HasAnswered turns
        (record { left = R.remaining reader.old; left_after = R.remaining reader.new; written = W.contents writer.old; written_after = W.contents writer.new })
        pass.view.address after.saw_halt (entries_behind closed pass.view after) end) }
{
    a_session_has_its_entries();
    let mut pass = pass;
    serve_pass_by::<T, R, C, W, G>(rt, reader, writer, &line, &mut pass, gate, turns);
    match line.close(listed(alloc, pass)?) {
        Ok(closed) => Ok(closed),
        Err(_) => Err(Fail::new("a pass is out")),
    }
}

/// Claims the address of a master on a fresh line, opens a pass, serves the master's session, closes the line, and
/// releases the address.
///
/// The session made at most `turns` reads, none of which failed. It wrote the replies of the entries that the journal
/// of the closed line has under the number of the pass.
fn claim_and_serve<T: Wait>(
    rt: &T,
    alloc: Global,
    spec: &LineSpec,
    address: u8,
    reader: &mut Counting<'_>,
    writer: &mut Vec<u8>,
    turns: u32,
) -> Result<Closed, Fail>
    requires { opening_fault (description_of spec.now) ≡ None }
    ensures reads { reader.new.made ≤ reader.old.made + turns }
    ensures answered { IfOk result (λ closed. (number : ℕ) × (after : PassView) × (end : End)
        × (end ≢ End.ReadFault)
        × HasAnswered turns
        (record { left = Some reader.old.left.now; left_after = Some reader.new.left.now; written = Some writer.old.items; written_after = Some writer.new.items })
        address after.saw_halt (entries_behind closed (new_pass number address) after) end) }
{
    if address == GLOBAL_ADDRESS {
        return Err(Fail::new("no master"));
    }
    let (claims, mut seat) = one_seat(alloc, spec)?;
    let line = Line::open(alloc, spec)?;
    claims.claim(&mut seat, address)?;
    let pass = line.open_pass(rt, address)?;
    let closed = serve_and_close::<T, Counting, ByCount, Vec<u8>, OpenGate>(
        rt, alloc, line, pass, reader, writer, &OpenGate, turns,
    )?;
    if seat.held().is_some() {
        claims.release(&mut seat);
    }
    Ok(closed)
}

/// The numbers of reads that a session made, of the octets that it wrote, and of the entries of the closed line.
#[derive(Drop)]
struct Counts {
    made: u32,
    written: usize,
    entries: u32,
}

/// Serves the session of a master on a fresh line.
fn client_counts<T: Wait>(
    rt: &T,
    alloc: Global,
    address: u8,
    octets: &str,
    turns: u32,
) -> Result<Counts, Fail> {
    let spec = ample_line(alloc, 1, Device::Still)?;
    let octets = octets_of(octets)?;
    let mut reader = Counting::new(&octets);
    let mut writer: Vec<u8> = Vec::new(alloc);
    let closed = claim_and_serve(rt, alloc, &spec, address, &mut reader, &mut writer, turns)?;
    Ok(Counts {
        made: reader.made,
        written: writer.len(),
        entries: closed.book().count(),
    })
}

/// Two requests, the second of which gets a reply of six octets.
#[test]
fn a_client_reads_its_entries(rt: HostRuntime) -> Result<(), Fail> {
    let counts = client_counts(&rt, rt.alloc(), 2, "100902495416100502495016", 9)?;
    assert!(rt; counts.made == 2 && counts.written == 6 && counts.entries == 2);
    Ok(())
}

/// One request, which gets a reply of 17 octets.
#[test]
fn a_client_makes_one_read(rt: HostRuntime) -> Result<(), Fail> {
    let counts = client_counts(&rt, rt.alloc(), 1, "6805056885816d3c3eed16", 1)?;
    assert!(rt; counts.made == 1 && counts.written == 17 && counts.entries == 1);
    Ok(())
}
