//! Accepting and serving the connections of all lines, and recording what is served.

ghost use Rattle.std.specs.Prelude.{◌≡◌, ◌≤◌, ℕ, Bool, List, Option, All, Contains, Err, IfErr, IfOk, IfSome, None, OnOk, Some, length, map};
ghost use Rattle.std.specs.Borrow.{Bor};
ghost use Rattle.std.specs.Io.KnownBytes.{Appends};
ghost use Rattle.audit_trail.specs.Named.{name_of};
ghost use Rattle.audit_files.specs.AuditPaths.{IsFileIn};
ghost use Rattle.serve_sessions.specs.Recordings.{IsPartOfOne, paths_of};
ghost use Rattle.serve_lines.specs.declared.served_line.ServedLine.{ServedLine};
ghost use Rattle.serve_lines.specs.MasterSessions.{place_at};
ghost use Rattle.serve_lines.specs.ServedLines.{line_numbers};
ghost use Rattle.serve_rack.specs.Serving.{AreListening, HasLeft};
ghost use Rattle.serve_lines.specs.ServingLines.{AreSeated, AreServedLines, HaveSeats};
ghost use Rattle.serve_rack.specs.ServeOutput.{AreServed, AreServedTo, ServesConnections, ServesLines, serving_result};
ghost use Rattle.serve_sessions.specs.Ready.{ready};

use crate::serve::{Served, sessions_of};
use crate::threads::{Sessions, accept_and_serve, can_start, end_unserved};
use audit_files::{IncompleteFile, OldParts, TimesWriter};
use audit_trail::{Naming, NoTrail, RecordEntries};
use crossbeam_channel::bounded;
use dp_shared::ReturnedPass;
use serve_clock::{LineClock, Schedule};
use serve_faults::{OutputFault, ServeFault};
use serve_lines::{Listeners, MasterPool, SeatedWorkers, ServedLine, ServedLines, ServedMasters};
use serve_log::{LineNumbers, MOST_OPERATORS, Notes};
use serve_options::{PartOptions, ServeOptions};
use serve_sessions::{
    Acceptors, Host, KeepTime, ServerContext, SessionGate, TimedGate, UnnamedRecorder,
    close_clocks, first_incomplete, name_ports, name_trails, open_clocks, operator_workers,
    record_lines, schedule_of, write_ready,
};
use serve_sockets::{InputEnd, ServePhase, SocketContext};
use std::alloc::{AllocError, Global};
use std::io::Write;
use std::marker::Brand;
use std::net::TcpListener;
use std::sync::atomic::AtomicU32;
use std::sync::atomic::Ordering::SeqCst;
use std::time::Instant;

/// The most sessions of masters that wait for a worker. Further connections wait to be accepted.
const MOST_WAITING: usize = 64;

/// The most lines of a rack.
const MOST_LINES: usize = rack_file::MOST_LINES as usize;

/// The lines of a rack that are listened at, and the workers of the sessions of their masters.
#[derive(Drop)]
pub(crate) struct ListeningLines<'l> {
    /// The lines.
    pub(crate) served: ServedLines<'l>,
    /// The listeners of each line.
    pub(crate) listening: Vec<Listeners<TcpListener>>,
    /// The workers.
    pub(crate) workers: SeatedWorkers<'l>,
}

/// What serving the connections of all lines has left.
#[derive(Drop)]
pub(crate) struct ServedRack {
    /// How many sessions were served, or `None` if a thread could not be started.
    pub(crate) served: Option<Served>,
    /// The passes of the sessions of masters that are kept: one list for each line, in their order, or no list if `served` is `None`.
    pub(crate) passes: Vec<Vec<ReturnedPass>>,
}

/// How serving the connections of all lines has ended.
#[derive(Drop)]
pub(crate) struct ServingOutcome<'a> {
    /// What it has left.
    pub(crate) rack: ServedRack,
    /// The first audit file that lacks an entry.
    pub(crate) incomplete: Option<IncompleteFile<'a>>,
}

/// Returns the result of serving, once the audit texts are written.
pub(crate) fn result_of<'a>(
    are_endless: bool,
    incomplete: Option<IncompleteFile<'a>>,
    served: Option<Served>,
) -> Result<Served, ServeFault<'a>>
    ensures exact { result ≡ serving_result are_endless incomplete.entry served }
    ensures serves { (folder : Option (Bor (List ℕ))) → (lines : List ServedLine) → IfSome incomplete.entry (λ file. IsFileIn folder (line_numbers lines) file.path)
        → (old new : Option (List ℕ)) → AreServed are_endless lines old new → IfSome served (λ counts. AreServedTo are_endless lines counts.masters old new)
        → ServesLines folder are_endless lines old new result }
{
    if let Some(file) = incomplete {
        return Err(ServeFault::CannotWrite(file.path, file.cause(are_endless)));
    }
    match served {
        Some(served) => Ok(served),
        None => Err(ServeFault::OutOfMemory),
    }
}

/// Accepts and serves the connections of all lines, and records each line in the audit folder, if one is named. If there is an
/// input, serving stops when it ends.
///
/// Returns `CannotMake` if an audit text cannot be begun, `CannotMakePorts`, `OutOfMemory` or `WriteFault`.
pub(crate) fn serve_connections<'a, 's, H: Host + Sync, W: Write>(
    rt: &'s H,
    alloc: Global,
    serve_phase: &'s ServePhase,
    notes: &'s Notes<'s, H>,
    options: ServeOptions<'a>,
    input: Option<&'s InputEnd>,
    listening: ListeningLines<'s>,
    writer: &mut W,
) -> Result<ServingOutcome<'a>, ServeFault<'a>>
    requires { AreListening listening }
    ensures ok { OnOk result (Appends (W.contents writer.old) (W.contents writer.new) ready) }
    ensures left { IfOk result (λ outcome. HasLeft (map place_at listening.entry.workers.ports.now) outcome.rack.served outcome.rack.passes.items) }
    ensures incomplete { IfOk result (λ outcome. IfSome outcome.incomplete (λ file. IsFileIn options.entry.audit (line_numbers listening.entry.served.lines.now) file.path)) }
    ensures err { IfErr result (λ fault. (endless : Bool) → ServesLines options.entry.audit endless listening.entry.served.lines.now (W.contents writer.old) (W.contents writer.new) (Err fault)) }
{
    let Ok(old_parts) = old_parts_of(rt, notes, alloc, options) else {
        return Err(ServeFault::OutOfMemory);
    };
    let Ok(times) = times_of(rt, notes, alloc, options, listening.served.lines) else {
        return Err(ServeFault::OutOfMemory);
    };
    let context = ServerContext {
        sockets: SocketContext {
            rt,
            serve_phase,
            notes,
        },
        alloc,
        ports: options.ports,
        input,
        old_parts: old_parts.as_ref(),
        times: times.as_ref(),
        sessions: sessions_of(options),
        tick: options.tick,
        step: options.step,
        operators: AtomicU32::new(0),
    };
    let Some(folder) = options.audit else {
        return serve_unrecorded(&context, listening, writer);
    };
    let parts = options.endless;
    serve_recorded(&context, folder, parts, listening, writer)
}

/// Returns the old parts of the audit texts, or `None` if no part is deleted.
///
/// Returns an error if memory is refused.
fn old_parts_of<'s, H: Host>(
    host: &'s H,
    notes: &'s Notes<'s, H>,
    alloc: Global,
    options: ServeOptions<'_>,
) -> Result<Option<OldParts<'s, H>>, AllocError> {
    let (Some(folder), Some(parts)) = (options.audit, options.endless) else {
        return Ok(None);
    };
    match parts.keep {
        Some(keep) => Ok(Some(OldParts::new(host, notes, alloc, folder, keep)?)),
        None => Ok(None),
    }
}

/// Returns the writer of the times of the entries of these lines, or `None` if there are no audit texts.
///
/// Returns an error if memory is refused.
fn times_of<'s, H: Host>(
    host: &'s H,
    notes: &'s Notes<'s, H>,
    alloc: Global,
    options: ServeOptions<'_>,
    lines: &[ServedLine],
) -> Result<Option<TimesWriter<'s, H>>, AllocError> {
    let Some(folder) = options.audit else {
        return Ok(None);
    };
    let numbers = numbers_of(lines);
    let times = TimesWriter::new(host, notes, alloc, folder, numbers.as_slice())?;
    Ok(Some(times))
}

/// Serves the connections of all lines, which are not recorded.
fn serve_unrecorded<'a, 's, H: Host + Sync, W: Write>(
    context: &'s ServerContext<'s, H>,
    listening: ListeningLines<'s>,
    writer: &mut W,
) -> Result<ServingOutcome<'a>, ServeFault<'a>>
    requires { AreListening listening }
    ensures ok { OnOk result (Appends (W.contents writer.old) (W.contents writer.new) ready) }
    ensures left { IfOk result (λ outcome. HasLeft (map place_at listening.entry.workers.ports.now) outcome.rack.served outcome.rack.passes.items) }
    ensures incomplete { IfOk result (λ outcome. outcome.incomplete ≡ None) }
    ensures err { IfErr result (λ fault. (folder : Option (Bor (List ℕ))) → (endless : Bool) → ServesLines folder endless listening.entry.served.lines.now (W.contents writer.old) (W.contents writer.new) (Err fault)) }
{
    let none = &[NoTrail; MOST_LINES][..listening.served.lines.len()];
    let served = serve_with_recorders(context, listening, none, writer);
    match served {
        Ok(rack) => Ok(ServingOutcome {
            rack,
            incomplete: None,
        }),
        Err(fault) => Err(ServeFault::from(fault)),
    }
}

/// Serves the connections of all lines, and records each line in the folder. `parts` is `None` if each audit text has one file.
fn serve_recorded<'a, 's, H: Host + Sync, W: Write>(
    context: &'s ServerContext<'s, H>,
    folder: &'a str,
    parts: Option<PartOptions>,
    listening: ListeningLines<'s>,
    writer: &mut W,
) -> Result<ServingOutcome<'a>, ServeFault<'a>>
    requires { AreListening listening }
    ensures ok { OnOk result (Appends (W.contents writer.old) (W.contents writer.new) ready) }
    ensures left { IfOk result (λ outcome. HasLeft (map place_at listening.entry.workers.ports.now) outcome.rack.served outcome.rack.passes.items) }
    ensures incomplete { IfOk result (λ outcome. IfSome outcome.incomplete (λ file. IsFileIn (Some folder.entry) (line_numbers listening.entry.served.lines.now) file.path)) }
    ensures err { IfErr result (λ fault. (endless : Bool) → ServesLines (Some folder.entry) endless listening.entry.served.lines.now (W.contents writer.old) (W.contents writer.new) (Err fault)) }
{
    let recorders = match record_lines(context, folder, parts, listening.served) {
        Ok(recorders) => recorders,
        Err(fault) => return Err(ServeFault::from(fault)),
    };
    let served = serve_named::<Brand, H, W>(context, listening, recorders, writer);
    match served {
        Ok(outcome) => Ok(outcome),
        Err(fault) => Err(ServeFault::from(fault)),
    }
}

/// Serves the connections of all lines, each with its recorder, whose trail `J` names.
fn serve_named<'a, 's, J: Naming + Send + Sync, H: Host + Sync, W: Write>(
    context: &'s ServerContext<'s, H>,
    listening: ListeningLines<'s>,
    recorders: Vec<UnnamedRecorder<'a, 's, H>>,
    writer: &mut W,
) -> Result<ServingOutcome<'a>, OutputFault>
    requires listening { AreListening listening }
    requires named { All (λ recorder. Contains J.trails (name_of recorder.file.trail.pass)) recorders.items }
    ensures ok { OnOk result (Appends (W.contents writer.old) (W.contents writer.new) ready) }
    ensures left { IfOk result (λ outcome. HasLeft (map place_at listening.entry.workers.ports.now) outcome.rack.served outcome.rack.passes.items) }
    ensures incomplete { IfOk result (λ outcome. IfSome outcome.incomplete (λ file. IsPartOfOne (paths_of recorders.entry.items) file.path)) }
    ensures err { IfErr result (λ fault. ServesConnections (map place_at listening.entry.workers.ports.now) (W.contents writer.old) (W.contents writer.new) (Err fault)) }
{
    let (rt, alloc, times) = (context.sockets.rt, context.alloc, context.times);
    let Some(recorders) = name_trails::<H, J>(alloc, recorders) else {
        return Err(OutputFault::OutOfMemory);
    };
    let served = serve_with_recorders(context, listening, &recorders, writer);
    match served {
        Ok(rack) => {
            let incomplete = first_incomplete(rt, recorders);
            write_rest(times);
            Ok(ServingOutcome { rack, incomplete })
        }
        Err(fault) => Err(fault),
    }
}

/// Writes the times of the last entries, if there are audit texts.
fn write_rest<H: Host>(times: Option<&TimesWriter<'_, H>>) {
    if let Some(times) = times {
        times.write_noted();
    }
}

/// Opens the clocks of the lines, and serves the connections of all lines, each with its recorder, while the clocks run.
///
/// Returns as [`serve_at_gate`] does, and `OutOfMemory` also if a line gives no pass for its clock.
fn serve_with_recorders<'a, H: Host + Sync, C: RecordEntries + Sync, W: Write>(
    context: &'a ServerContext<'a, H>,
    listening: ListeningLines<'a>,
    recorders: &'a [C],
    writer: &mut W,
) -> Result<ServedRack, OutputFault>
    requires { AreListening listening }
    ensures { ServesConnections (map place_at listening.entry.workers.ports.now) (W.contents writer.old) (W.contents writer.new) result }
{
    let Ok(clocks) = open_clocks(context, listening.served) else {
        return Err(OutputFault::OutOfMemory);
    };
    let served = serve_with_clocks::<H, C, LineClock<'a>, W>(
        context, listening, recorders, &clocks, writer,
    );
    close_clocks(context.sockets.rt, clocks);
    served
}

/// Serves the connections of all lines, each with its recorder and its clock.
///
/// Returns as [`serve_at_gate`] does.
fn serve_with_clocks<'a, H: Host + Sync, C: RecordEntries + Sync, D: KeepTime + Sync, W: Write>(
    context: &'a ServerContext<'a, H>,
    listening: ListeningLines<'a>,
    recorders: &'a [C],
    clocks: &[D],
    writer: &mut W,
) -> Result<ServedRack, OutputFault>
    requires { AreListening listening }
    ensures { ServesConnections (map place_at listening.entry.workers.ports.now) (W.contents writer.old) (W.contents writer.new) result }
{
    let gate = SessionGate {
        host: context.sockets.rt,
        notes: context.sockets.notes,
        start: Instant::now(context.sockets.rt).ok(),
        clocks,
        numbers: numbers_of(listening.served.lines),
        recorders,
    };
    serve_at_gate(context, listening, &gate, writer)
}

/// Writes the file that names the ports, if there is one, and `ready`, and then accepts and serves the connections of all
/// lines, with this gate of their sessions.
///
/// Returns what serving left; the number of sessions is `None` if a thread could not be started after that. Returns `OutOfMemory` if there
/// is not enough memory or there are not enough threads for all sessions, and `CannotMakePorts` if the file that names the ports
/// cannot be made; nothing is written then. Returns `WriteFault` if `ready` is not written.
fn serve_at_gate<'a, H: Host + Sync, G: TimedGate + Sync, W: Write>(
    context: &'a ServerContext<'a, H>,
    listening: ListeningLines<'a>,
    gate: &'a G,
    writer: &mut W,
) -> Result<ServedRack, OutputFault>
    requires { AreListening listening }
    ensures { ServesConnections (map place_at listening.entry.workers.ports.now) (W.contents writer.old) (W.contents writer.new) result }
{
    let ListeningLines {
        served,
        listening,
        workers,
    } = listening;
    let schedule = schedule_of(context);
    let threads = threads_needed(context, schedule, served.lines.len(), workers.seats.len());
    if !can_start(context.sockets.rt, threads) {
        return Err(OutputFault::OutOfMemory);
    }
    let Ok(sessions) = open_sessions(context, gate, served, listening, workers) else {
        return Err(OutputFault::OutOfMemory);
    };
    match name_ports(context) {
        Ok(()) => {}
        Err(fault) => {
            end_unserved(sessions);
            return Err(fault);
        }
    }
    let Ok(()) = write_ready(writer) else {
        end_unserved(sessions);
        return Err(OutputFault::WriteFault);
    };
    match accept_and_serve(context, gate, schedule, sessions) {
        Ok(ServedMasters { count, passes }) => Ok(ServedRack {
            served: Some(Served {
                masters: count,
                operators: context.operators.load(SeqCst),
            }),
            passes,
        }),
        Err(_) => Ok(ServedRack {
            served: None,
            passes: Vec::new(context.alloc),
        }),
    }
}

/// Returns how many threads serve this number of lines with this number of workers.
fn threads_needed<H>(
    context: &ServerContext<'_, H>,
    schedule: Schedule,
    lines: usize,
    workers: usize,
) -> usize
    requires lines { lines ≤ 8 }
    requires workers { workers ≤ 32 }
{
    let keeping = usize::from(schedule.wait(0).is_some());
    let waiting = usize::from(context.input.is_some());
    let deleting = usize::from(context.old_parts.is_some());
    let timing = usize::from(context.times.is_some());
    workers + lines * (2 + MOST_OPERATORS) + keeping + waiting + deleting + timing
}

/// Returns the acceptors and workers of all sessions, with this gate.
///
/// Returns an error if memory is refused.
fn open_sessions<'a, H: Host + Sync, G: TimedGate + Sync>(
    context: &'a ServerContext<'a, H>,
    gate: &'a G,
    served: ServedLines<'a>,
    listening: Vec<Listeners<TcpListener>>,
    workers: SeatedWorkers<'a>,
) -> Result<Sessions<'a, H, G>, AllocError>
    requires served { AreServedLines served }
    requires each { length listening.items ≡ length served.lines.now }
    requires seated { AreSeated workers }
    ensures ports { IfOk result (λ sessions. sessions.pool.ports.now ≡ workers.entry.ports.now) }
    ensures seats { IfOk result (λ sessions. HaveSeats sessions.pool.ports.now sessions.pool.workers.seats.items) }
{
    let (sender, jobs) = bounded(context.alloc, MOST_WAITING)?;
    let acceptors = Acceptors::new(context, served, listening, sender)?;
    let operator_workers = operator_workers(context.alloc, &acceptors.operators, gate)?;
    let pool = MasterPool::new(context.alloc, workers, jobs)?;
    Ok(Sessions {
        acceptors,
        operator_workers,
        pool,
    })
}

/// Returns the numbers of lines.
pub(crate) fn numbers_of(lines: &[ServedLine]) -> LineNumbers {
    let mut numbers = LineNumbers::new();
    for line in lines {
        let _ = numbers.try_push(line.spec.number);
    }
    numbers
}
