//! Serves a cable.

use crate::stand_ins::stand_ins;
use cable_faults::{Chance, Covered, Options};
use cable_host::{CableFault, CableSettings, listen_at, serve_cable};
use log::Log;
use rack_script::RunFault;
use rackd_cli::{CableWords, FaultyTelegrams};
use rackd_faults::{Fault, ended, report};
use serve_faults::ServeFault;
use serve_sockets::replace_file;
use std::fs::{File, Files};
use std::io::{self, Read};
use std::process::ExitCode;
use system_errors::Cause;
use watch_host::WatchHost;

/// Serves a cable between masters and the line at this port, and returns the exit status. It ends only with a fault, which is
/// reported. Its reports go through the queue of rows for standard error, so that it never waits until they are read.
pub fn run_cable<H: WatchHost + Log + Copy + Send + 'static, I: Read + Send + Drop + 'static>(
    rt: H,
    port: u16,
    cable: CableWords<'_>,
    input: I,
) -> ExitCode {
    let Ok((queue, written)) = serve_log::start(rt, rt.alloc()) else {
        return report(&rt, Fault::Run(RunFault::OutOfMemory));
    };
    let ended_with = serve_between(&rt, port, cable, input);
    let code = ended(&queue, ended_with);
    queue.end(written);
    code
}

/// Serves a cable between masters and the line at a port. It ends only with a fault.
fn serve_between<'a, H: WatchHost + Log + Copy + Send + 'static, I: Read + Send + Drop + 'static>(
    rt: &H,
    port: u16,
    words: CableWords<'a>,
    input: I,
) -> Result<ExitCode, Fault<'a>> {
    let _held = stand_ins(rt);
    let Some(options) = options_of(&words) else {
        return Err(Fault::Run(RunFault::OutOfMemory));
    };
    let settings = CableSettings {
        port,
        seed: words.seed,
        resync: words.resync,
        logs: words.logs,
        options,
    };
    let (listener, own) = match listen_at(rt, words.listen) {
        Ok(both) => both,
        Err(fault) => return Err(fault_of(words.listen, fault)),
    };
    if let Some(path) = words.ports
        && let Err(error) = write_ports(rt, path, port, own)
    {
        return Err(Fault::CannotMake(path, Cause::from_error(&error)));
    }
    let mut output = io::writer(rt);
    match serve_cable(*rt, rt.alloc(), settings, listener, input, &mut output) {
        Ok(()) => Ok(ExitCode::SUCCESS),
        Err(fault) => Err(fault_of(own, fault)),
    }
}

/// Returns what the cable does by chance, and to all telegrams; None if a chance is above 1,000,000 millionths, which the
/// words exclude.
fn options_of(words: &CableWords<'_>) -> Option<Options> {
    Some(Options {
        lose: Chance::of_millionths(words.lose)?,
        spoil: Chance::of_millionths(words.spoil)?,
        cut: Chance::of_millionths(words.cut)?,
        late: Chance::of_millionths(words.late)?,
        late_milliseconds: words.late_milliseconds,
        delay: words.delay,
        covered: covered_of(words.faulty),
        drops_tokens: words.drops_tokens,
    })
}

/// Returns the telegrams that meet faults by chance.
fn covered_of(faulty: FaultyTelegrams) -> Covered {
    match faulty {
        FaultyTelegrams::Both => Covered::Both,
        FaultyTelegrams::Requests => Covered::Requests,
        FaultyTelegrams::Replies => Covered::Replies,
    }
}

/// Writes the ports of the line and of the cable to a file, which appears whole.
fn write_ports<F: Files<File = File> + AllocGlobal>(
    files: &F,
    path: &str,
    port: u16,
    own: u16,
) -> io::Result<()> {
    let row = format!(in files.alloc(); "cable {port} listen {own}\n")?;
    replace_file(files, files.alloc(), path, row.as_str())
}

/// Returns the fault of the program for a fault of a cable that listens at this port.
fn fault_of<'a>(port: u16, fault: CableFault) -> Fault<'a> {
    match fault {
        CableFault::CannotListen(cause) => Fault::Serve(ServeFault::CannotListen(port, cause)),
        CableFault::WriteFault => Fault::Run(RunFault::WriteFault),
        CableFault::OutOfMemory => Fault::Run(RunFault::OutOfMemory),
    }
}
