//! Recording lines in audit files before their answers are sent.
//!
//! No call can end the process from here, so a full disk ends the program from within: the thread that can't write an entry
//! stops serving. Each session sees that within 100 ms, by the timeout of its reads and writes. So the audit texts still come
//! on standard output, and the program ends with status 5.

ghost use Rattle.std.specs.Prelude.{◌≡◌, All, Contains, IfErr, IfOk, IfSome, Some, length};
ghost use Rattle.audit_trail.specs.Named.{name_of};
ghost use Rattle.audit_files.specs.FileFaults.{IsRecordingFault};
ghost use Rattle.serve_sessions.specs.Recordings.{AreRecordedIn, IsPartOfOne, paths_of};
ghost use Rattle.serve_lines.specs.ServedLines.{line_numbers};
ghost use Rattle.serve_lines.specs.ServingLines.{AreServedLines};

use crate::host::Host;
use crate::server_context::ServerContext;
use audit_files::{
    AuditFile, FileFault, FileTail, FileTrail, IncompleteFile, begin_text, complete_text,
    make_folder,
};
use audit_trail::{Naming, RecordEntries, Trail, TrailBreak};
use serve_lines::ServedLines;
use serve_options::PartOptions;
use serve_sockets::ServePhase;
use std::alloc::Global;
use std::net::Net;
use std::sync::Wait;

/// Records a line in its audit files before its answers are sent. If an entry is not written, serving stops.
#[derive(Drop)]
pub struct Recorder<'a, 'l, N, T> {
    /// The sockets of the host.
    pub net: &'l N,
    /// The phase of serving.
    pub serve_phase: &'l ServePhase,
    /// The audit text of the line.
    pub file: AuditFile<'a, T>,
}

/// A recorder whose trail writes to audit files, and that `J` names.
pub type FileRecorder<'a, 's, H, J> = Recorder<'a, 's, H, FileTrail<'a, 's, H, J>>;

/// A recorder whose trail has no name yet.
pub type UnnamedRecorder<'a, 's, H> = Recorder<'a, 's, H, FileTail<'a, 's, H>>;

impl<N: Net, T: RecordEntries> RecordEntries for Recorder<'_, '_, N, T> {
    ghost recorded = { λ recorder line place. T.recorded recorder.file.trail line place };

    ghost caught_up = { λ recorder. T.caught_up recorder.file.trail };

    fn record<H: Wait>(&self, rt: &H, line: u8, place: Option<u32>) -> Result<(), TrailBreak> {
        match self.file.trail.record(rt, line, place) {
            Ok(()) => Ok(()),
            Err(reason) => {
                self.serve_phase.stop(rt, self.net);
                Err(reason)
            }
        }
    }
}

/// Makes the folder, begins a new audit text in it for each line, and returns the recorders. `parts` is `None` if each text has
/// one file.
///
/// Returns `CannotMake` with the path that cannot be made, or `OutOfMemory`.
pub fn record_lines<'a, 's, H: Host>(
    context: &ServerContext<'s, H>,
    folder: &'a str,
    parts: Option<PartOptions>,
    served: ServedLines<'s>,
) -> Result<Vec<UnnamedRecorder<'a, 's, H>>, FileFault<'a>>
    requires { AreServedLines served }
    ensures each { IfOk result (λ all. length all.items ≡ length served.entry.lines.now) }
    ensures paths { IfOk result (λ all. AreRecordedIn folder.now (line_numbers served.entry.lines.now) (paths_of all.items)) }
    ensures fault { IfErr result (IsRecordingFault (Some folder.entry) (line_numbers served.entry.lines.now)) }
{
    let ServedLines { lines, ports } = served;
    let (alloc, old_parts, times) = (context.alloc, context.old_parts, context.times);
    let (host, notes) = (context.sockets.rt, context.sockets.notes);
    let serve_phase = context.sockets.serve_phase;
    match make_folder(host, folder) {
        Ok(()) => {}
        Err(fault) => return Err(fault),
    }
    let mut all = Vec::new(alloc);
    for line in lines {
        let port = &ports[all.len()];
        let number = line.spec.number;
        let file = match begin_text(
            host, notes, alloc, old_parts, times, folder, parts, &port.line, number,
        ) {
            Ok(file) => file,
            Err(fault) => return Err(fault),
        };
        let recorder = Recorder {
            net: host,
            serve_phase,
            file,
        };
        if all.push(recorder).is_err() {
            return Err(FileFault::OutOfMemory);
        }
    }
    Ok(all)
}

/// Lets threads share the trail of each recorder. `J` names these trails.
///
/// Returns `None` if memory is refused.
pub fn name_trails<'a, 's, H: Host, J: Naming>(
    alloc: Global,
    recorders: Vec<UnnamedRecorder<'a, 's, H>>,
) -> Option<Vec<FileRecorder<'a, 's, H, J>>>
    requires { All (λ recorder. Contains J.trails (name_of recorder.file.trail.pass)) recorders.items }
    ensures { IfSome result (λ all. paths_of all.items ≡ paths_of recorders.entry.items) }
{
    let mut all = Vec::new(alloc);
    for recorder in recorders {
        let Recorder {
            net,
            serve_phase,
            file: AuditFile { path, trail },
        } = recorder;
        let trail = Trail::new(trail);
        let named = Recorder {
            net,
            serve_phase,
            file: AuditFile { path, trail },
        };
        if all.push(named).is_err() {
            return None;
        }
    }
    Some(all)
}

/// Completes the audit text of each recorder. Returns the first file that lacks an entry.
pub fn first_incomplete<'a, H: Host, J: Naming>(
    host: &H,
    recorders: Vec<FileRecorder<'a, '_, H, J>>,
) -> Option<IncompleteFile<'a>>
    ensures { IfSome result (λ incomplete. IsPartOfOne (paths_of recorders.entry.items) incomplete.path) }
{
    let mut first = None;
    for recorder in recorders {
        first = first.or(complete_text(host, recorder.file));
    }
    first
}
