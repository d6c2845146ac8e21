//! Serving a rack at sockets.

ghost use Rattle.std.specs.Prelude.{◌≡◌, ◌≤◌, ◌-◌, ◌^◌, ℕ, List, Option, All, IfSome, None, is_some, length, map, unwrap_or};
ghost use Rattle.std.specs.Borrow.{Bor};
ghost use Rattle.std.specs.Io.KnownBytes.{Appends};
ghost use Rattle.audit_files.specs.AuditPaths.{IsFileIn};
ghost use Rattle.dp_sessions.specs.Pools.{HasSeats};
ghost use Rattle.dp_line.specs.World.{description_of, opening_fault};
ghost use Rattle.rack_file.specs.Rack.{rack_described};
ghost use Rattle.rack_file.specs.RackFile.{rack_in};
ghost use Rattle.serve_lines.specs.MasterSessions.{place_at};
ghost use Rattle.serve_lines.specs.OpenedLines.{AreOpened};
ghost use Rattle.serve_lines.specs.ServedLines.{line_numbers};
ghost use Rattle.serve_lines.specs.declared.served_line.ServedLine.{ServedLine};
ghost use Rattle.serve_rack.specs.ServeOutput.{Serves, ServesLines, ServesRack};
ghost use Rattle.serve_rack.specs.Serving.{HasLeft};
ghost use Rattle.serve_sessions.specs.Ready.{ready};

use crate::serving::{
    ListeningLines, ServedRack, ServingOutcome, numbers_of, result_of, serve_connections,
};
use dp_sessions::Port;
use dp_sessions::laws::a_master_has_its_entries;
use rack_file::laws::{
    accepted_lines_can_be_opened, accepted_racks_have_1_to_8_lines,
    accepted_racks_have_1_to_32_workers,
};
use rack_file::{Rack, read_rack};
use serve_faults::ServeFault;
use serve_lines::{
    Listeners, OpenedLines, SeatedWorkers, ServedLine, ServedLines, check_descriptors,
    lines_to_serve, listen_at_lines, open_lines, ports_of, write_audits,
};
use serve_log::Notes;
use serve_options::ServeOptions;
use serve_sessions::Host;
use serve_sockets::{InputEnd, ServePhase};
use std::alloc::Global;
use std::io::Write;
use std::net::TcpListener;

/// How many sessions were served.
#[derive(Clone, Copy)]
pub struct Served {
    /// Those of masters.
    pub masters: u32,
    /// Those of operators.
    pub operators: u32,
}

/// Serves the rack that a text describes at the ports of its lines on this machine. Each port accepts the number of connections
/// that `options` name, or any number.
///
/// It writes `ready` once all ports are listened at. When all sessions have ended it writes the audit text of each line, in
/// ascending order of their numbers. For endless lines it writes only `ready`.
///
/// If `options` name a file for the ports, it is there before `ready` is written. If there is an input, no connection is accepted
/// after its end, and each session ends within 200 ms; that is no fault.
///
/// Nothing is written with these faults: `Rack` if the rack is not accepted or a line has no port, `CannotListen` if a port
/// cannot be listened at or there are too few descriptors for its connections, `CannotMake` if the folder of audit texts or a
/// file in it for a line of the rack cannot be made, and `CannotMakePorts` if the file that names the ports cannot be made.
///
/// Returns `WriteFault` if a write fails, and `OutOfMemory` if memory or a thread is refused. If a thread is refused after
/// `ready`, the audit texts are written nevertheless. Returns `CannotWrite` if a file of an audit text lacks an entry. Serving
/// stops then, and the audit texts are written.
pub fn serve_text<'a, H: Host + Sync, W: Write>(
    rt: &H,
    alloc: Global,
    rack: &str,
    options: ServeOptions<'a>,
    input: Option<&InputEnd>,
    writer: &mut W,
) -> Result<Served, ServeFault<'a>>
    ensures { Serves options.entry.audit (is_some options.entry.endless) (rack_in rack.now) (W.contents writer.old) (W.contents writer.new) result }
{
    accepted_racks_have_1_to_8_lines();
    accepted_racks_have_1_to_32_workers();
    accepted_lines_can_be_opened();
    match read_rack(alloc, rack) {
        Ok(rack) => serve_rack(rt, alloc, rack, options, input, writer),
        Err(fault) => Err(ServeFault::from(fault)),
    }
}

/// Serves a rack that is accepted.
fn serve_rack<'a, H: Host + Sync, W: Write>(
    rt: &H,
    alloc: Global,
    rack: Rack,
    options: ServeOptions<'a>,
    input: Option<&InputEnd>,
    writer: &mut W,
) -> Result<Served, ServeFault<'a>>
    requires few { length (rack_described rack).lines ≤ 8 }
    requires workers { (1 ≤ rack.workers) × (rack.workers ≤ 32) }
    requires fit { All (λ line. opening_fault line.line ≡ None) (rack_described rack).lines }
    ensures { ServesRack options.entry.audit (is_some options.entry.endless) (rack_described rack) (W.contents writer.old) (W.contents writer.new) result }
{
    let Rack { workers, lines } = rack;
    let lines = match lines_to_serve(alloc, lines) {
        Ok(lines) => lines,
        Err(fault) => return Err(ServeFault::from(fault)),
    };
    let listening = match listen_at_lines(rt, alloc, &lines) {
        Ok(listening) => listening,
        Err(fault) => return Err(fault),
    };
    match check_descriptors(alloc, &lines, &listening, workers) {
        Ok(()) => {}
        Err(fault) => return Err(fault),
    }
    open_and_serve(rt, alloc, lines, listening, workers, options, input, writer)
}

/// Opens lines that are listened at, and serves them.
fn open_and_serve<'a, H: Host + Sync, W: Write>(
    rt: &H,
    alloc: Global,
    lines: Vec<ServedLine>,
    listening: Vec<Listeners<TcpListener>>,
    workers: u8,
    options: ServeOptions<'a>,
    input: Option<&InputEnd>,
    writer: &mut W,
) -> Result<Served, ServeFault<'a>>
    requires few { length lines.items ≤ 8 }
    requires each { length listening.items ≡ length lines.items }
    requires workers { (1 ≤ workers) × (workers ≤ 32) }
    requires fit { All (λ line. opening_fault (description_of line.spec) ≡ None) lines.items }
    ensures { ServesLines options.entry.audit (is_some options.entry.endless) lines.items (W.contents writer.old) (W.contents writer.new) result }
{
    let Ok(opened) = open_lines(alloc, lines, options.endless.is_some(), workers) else {
        return Err(ServeFault::OutOfMemory);
    };
    serve_opened(rt, alloc, listening, opened, options, input, writer)
}

/// Returns how many connections each port accepts. Without a limit it is a number that is never reached.
pub(crate) fn sessions_of(options: ServeOptions<'_>) -> u64
    ensures { result ≡ unwrap_or options.entry.sessions (2 ^ 64 - 1) }
{
    options.sessions.map_or(u64::MAX, |count| u64::from(count))
}

/// Serves lines that are listened at, records them, and writes their audit texts unless they are endless.
fn serve_opened<'a, 's, H: Host + Sync, W: Write>(
    rt: &'s H,
    alloc: Global,
    listening: Vec<Listeners<TcpListener>>,
    opened: OpenedLines,
    options: ServeOptions<'a>,
    input: Option<&'s InputEnd>,
    writer: &mut W,
) -> Result<Served, ServeFault<'a>>
    requires few { length opened.lines.items ≤ 8 }
    requires each { length listening.items ≡ length opened.lines.items }
    requires opened { AreOpened opened.lines.items opened.ports.items }
    requires workers { (1 ≤ length opened.seats.items) × (length opened.seats.items ≤ 32) }
    requires seats { All (λ own. HasSeats opened.ports.items own.items) opened.seats.items }
    ensures { ServesLines options.entry.audit (is_some options.entry.endless) opened.lines.items (W.contents writer.old) (W.contents writer.new) result }
{
    let OpenedLines {
        lines,
        ports,
        seats,
    } = opened;
    let served = ServedLines {
        lines: &lines,
        ports: &ports,
    };
    let serve_phase = ServePhase::new(ports_of(&lines, &listening));
    let notes = Notes::new(
        rt,
        options.log_detail,
        numbers_of(&lines),
        seats.len() as u32,
    );
    let listening = ListeningLines {
        served,
        listening,
        workers: SeatedWorkers {
            ports: &ports,
            seats,
        },
    };
    let outcome = serve_connections(
        rt,
        alloc,
        &serve_phase,
        &notes,
        options,
        input,
        listening,
        writer,
    );
    notes.sum_up(rt);
    let outcome = match outcome {
        Ok(outcome) => outcome,
        Err(fault) => return Err(fault),
    };
    end_serving(alloc, ports, outcome, options.endless.is_some(), writer)
}

/// Closes the lines with the passes that serving left and writes their audit texts, unless they are endless. Returns the result of
/// serving.
fn end_serving<'a, W: Write>(
    alloc: Global,
    ports: Vec<Port>,
    outcome: ServingOutcome<'a>,
    are_endless: bool,
    writer: &mut W,
) -> Result<Served, ServeFault<'a>>
    requires { HasLeft (map place_at ports.items) outcome.rack.served outcome.rack.passes.items }
    ensures { (folder : Option (Bor (List ℕ))) → (lines : List ServedLine) → AreOpened lines ports.items → IfSome outcome.entry.incomplete (λ file. IsFileIn folder (line_numbers lines) file.path)
        → (old : Option (List ℕ)) → Appends old (W.contents writer.old) ready → ServesLines folder are_endless lines old (W.contents writer.new) result }
{
    a_master_has_its_entries();
    let ServingOutcome {
        rack: ServedRack { served, passes },
        incomplete,
    } = outcome;
    if are_endless {
        return result_of(true, incomplete, served);
    }
    match write_audits(alloc, ports, passes, writer) {
        Ok(()) => result_of(false, incomplete, served),
        Err(fault) => Err(ServeFault::from(fault)),
    }
}
