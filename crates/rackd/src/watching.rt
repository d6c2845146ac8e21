//! Shows a rack in a browser.

use command_host::read_file;
use rack_script::RunFault;
use rackd_faults::{Fault, reported};
use serve_faults::ServeFault;
use std::process::ExitCode;
use watch_host::{WatchFault, WatchHost, watch_text};

/// Shows the rack of a file, and the audit texts of a folder, at this port. It ends only with a fault.
pub(crate) fn watch_folder<'a, H: WatchHost + Print + Eprint + Sync>(
    rt: &H,
    rack: &'a str,
    folder: &str,
    port: u16,
) -> Result<ExitCode, Fault<'a>> {
    let text = read_file(rt, rack)?;
    let ended = match watch_text(rt, text.as_str(), rack, folder, port) {
        Ok(()) => Ok(ExitCode::SUCCESS),
        Err(fault) => Err(fault_of(fault)),
    };
    reported(rt, rt.alloc(), rack, text.as_str(), ended)
}

/// Returns the fault of the program for a fault of the page.
pub(crate) fn fault_of<'a>(fault: WatchFault) -> Fault<'a> {
    match fault {
        WatchFault::OutOfMemory => Fault::Run(RunFault::OutOfMemory),
        WatchFault::FewThreads => Fault::FewThreads,
        WatchFault::WriteFault => Fault::Run(RunFault::WriteFault),
        WatchFault::Rack(fault) => Fault::Run(RunFault::Rack(fault)),
        WatchFault::CannotListen(port, cause) => Fault::Serve(ServeFault::CannotListen(
            port, cause,
        )),
    }
}
