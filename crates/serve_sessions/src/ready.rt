//! What a rack reports once all its ports are listened at: the ports, in a file, and `ready`.

ghost use Rattle.std.specs.Prelude.{◌≡◌, IfErr, OnErr, OnOk};
ghost use Rattle.std.specs.Io.KnownBytes.{Appends};
ghost use Rattle.dp_text.specs.Writes.{WritesPrefix};
ghost use Rattle.serve_sessions.specs.Ready.{IsPortsFault, ready};

use crate::host::Host;
use crate::server_context::ServerContext;
use dp_text::write_whole;
use serve_faults::OutputFault;
use serve_sockets::{SocketContext, report_ports};
use std::io::{ErrorKind, Write};
use system_errors::Cause;

/// What is written once every port is listened at.
const READY: &[u8] = b"ready\n";

/// Writes the ports of all lines to the file that names them, if there is one.
pub fn name_ports<H: Host>(context: &ServerContext<'_, H>) -> Result<(), OutputFault>
    ensures { IfErr result IsPortsFault }
{
    let Some(path) = context.ports else {
        return Ok(());
    };
    let SocketContext {
        rt,
        serve_phase,
        ..
    } = &context.sockets;
    match report_ports(*rt, context.alloc, path, serve_phase.ports()) {
        Ok(()) => Ok(()),
        Err(error) => match error.kind() {
            ErrorKind::OutOfMemory => Err(OutputFault::OutOfMemory),
            _ => Err(OutputFault::CannotMakePorts(Cause::from_error(&error))),
        },
    }
}

/// Writes `ready` and flushes the writer.
pub fn write_ready<W: Write>(writer: &mut W) -> Result<(), OutputFault>
    ensures ok { OnOk result (Appends (W.contents writer.old) (W.contents writer.new) ready) }
    ensures err { OnErr result (WritesPrefix (W.contents writer.old) (W.contents writer.new) ready) }
    ensures fault { IfErr result (λ fault. fault ≡ OutputFault.WriteFault) }
{
    if write_whole(writer, READY).is_err() || writer.flush().is_err() {
        return Err(OutputFault::WriteFault);
    }
    Ok(())
}
