//! Why a rack is not served, or no longer served.

ghost use Rattle.std.specs.Prelude.{◌≡◌, Some};
ghost use Rattle.serve_faults.specs.ServeFaults.{of_file_fault, of_output_fault, of_rack_fault, serve_fault_text};

use audit_files::{AuditPath, FileFault};
use rack_file::{RackFault, RefusedRack};
use std::error::Error;
use std::fmt;
use system_errors::Cause;

/// Why a rack is not served, or no longer served (own).
#[derive(Clone, Copy, Debug)]
pub enum ServeFault<'a> {
    /// Memory or a thread was refused.
    OutOfMemory,
    /// The rack is not accepted, or a line has no port.
    Rack(RackFault),
    /// This port cannot be listened at.
    CannotListen(u16, Cause),
    /// The folder of audit texts or a file in it cannot be made, or the file does not take the whole header.
    CannotMake(AuditPath<'a>, Cause),
    /// An entry cannot be written to this audit file.
    CannotWrite(AuditPath<'a>, Cause),
    /// The file that names the ports cannot be made.
    CannotMakePorts(Cause),
    /// A write to standard output failed.
    WriteFault,
}

impl<'a> fmt::Display for ServeFault<'a> {
    ghost output = { λ fault. Some (serve_fault_text fault) };

    fn fmt<W: fmt::Write>(&self, f: &mut fmt::Formatter<W>) -> fmt::Result {
        match self {
            ServeFault::OutOfMemory => f.write_str("out of memory"),
            ServeFault::Rack(fault) => {
                let refused = RefusedRack { fault: *fault };
                write!(f, "{refused}")
            }
            ServeFault::CannotListen(port, _) => write!(f, "cannot listen on {port}"),
            ServeFault::CannotMake(path, _) => write!(f, "cannot make {path}"),
            ServeFault::CannotWrite(path, _) => write!(f, "cannot write {path}"),
            ServeFault::CannotMakePorts(_) => f.write_str("cannot make the file of ports"),
            ServeFault::WriteFault => f.write_str("cannot write"),
        }
    }
}

impl<'a> Error for ServeFault<'a> {}

/// Why output, or the file that names the ports, is not written whole.
#[derive(Clone, Copy)]
pub enum OutputFault {
    /// Memory or a thread was refused.
    OutOfMemory,
    /// A write failed.
    WriteFault,
    /// The file that names the ports cannot be made.
    CannotMakePorts(Cause),
}

impl<'a> From<OutputFault> for ServeFault<'a> {
    ghost from_gives = { λ fault result. result ≡ of_output_fault fault };

    fn from(fault: OutputFault) -> ServeFault<'a> {
        match fault {
            OutputFault::OutOfMemory => ServeFault::OutOfMemory,
            OutputFault::WriteFault => ServeFault::WriteFault,
            OutputFault::CannotMakePorts(cause) => ServeFault::CannotMakePorts(cause),
        }
    }
}

impl<'a> From<RackFault> for ServeFault<'a> {
    ghost from_gives = { λ fault result. result ≡ of_rack_fault fault };

    fn from(fault: RackFault) -> ServeFault<'a> {
        match fault {
            RackFault::OutOfMemory => ServeFault::OutOfMemory,
            _ => ServeFault::Rack(fault),
        }
    }
}

impl<'a> From<FileFault<'a>> for ServeFault<'a> {
    ghost from_gives = { λ fault result. result ≡ of_file_fault fault };

    fn from(fault: FileFault<'a>) -> ServeFault<'a> {
        match fault {
            FileFault::OutOfMemory => ServeFault::OutOfMemory,
            FileFault::CannotMake(path, cause) => ServeFault::CannotMake(path, cause),
        }
    }
}
