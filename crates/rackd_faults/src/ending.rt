//! How the program ends after a fault.

ghost use Rattle.std.specs.Prelude.{◌≡◌, Some};
ghost use Rattle.rackd_faults.specs.Ending.{cause_of, fault_text, serve_cause, serve_status, status_of};

use audit_files::AuditName;
use audit_host::TextFault;
use operate_host::ClientFault;
use rack_file::RackFault;
use rack_script::RunFault;
use rackd_cli::WordsFault;
use serve_faults::ServeFault;
use std::fmt;
use system_errors::Cause;

/// Why the program could not do its work. Its `Display` is the line on standard error without its LF, and allocates
/// no memory.
#[derive(Clone, Copy)]
pub enum Fault<'a> {
    /// A word is not UTF-8.
    BadWord,
    /// The file at this path, or standard input for `-`, cannot be read or is not UTF-8.
    CannotRead(&'a str, Cause),
    /// The part of this name of an audit text, in this folder, cannot be read or is not UTF-8.
    CannotReadPart(&'a str, AuditName, Cause),
    /// The file at this path is one of another audit text than the file with this name, which is given before it.
    OtherText(&'a str, AuditName),
    /// The file at this path, which names ports, cannot be made.
    CannotMake(&'a str, Cause),
    /// The program cannot connect to this port.
    CannotConnect(u16, Cause),
    /// The connection to this port ended before standard input did, or before a line of standard input was answered.
    PortEnded(u16),
    /// An answer of this port has more than 65,536 octets.
    LongAnswer(u16),
    /// The line of the audit text has no slave at this address, whose entries are asked for.
    NoSlave(u8),
    /// The line of the audit text has no master at this address, whose requests are asked for.
    NoMaster(u8),
    /// The rack has no line of this number, for a slave of which a GSD file is asked.
    NoLine(u8),
    /// The name of a vendor or a model can't stand in a GSD file.
    BadName,
    /// The GSD file at this path, or the modules that it is to have plugged, are not accepted.
    BadGsd(&'a str),
    /// The system gives too few threads for the page.
    FewThreads,
    /// Standard output is a terminal, which a capture is not written to.
    OutputIsTerminal,
    /// The run ended early.
    Run(RunFault),
    /// The rack is not served, or no longer served.
    Serve(ServeFault<'a>),
}

impl<'a> From<RunFault> for Fault<'a> {
    fn from(fault: RunFault) -> Fault<'a> {
        Fault::Run(fault)
    }
}

impl<'a> From<TextFault<'a>> for Fault<'a> {
    fn from(fault: TextFault<'a>) -> Fault<'a> {
        match fault {
            TextFault::CannotRead(path, cause) => Fault::CannotRead(path, cause),
            TextFault::CannotReadPart(folder, part, cause) => {
                Fault::CannotReadPart(folder, part, cause)
            }
            TextFault::OtherText(path, first) => Fault::OtherText(path, first),
            TextFault::NoSlave(address) => Fault::NoSlave(address),
            TextFault::NoMaster(address) => Fault::NoMaster(address),
            TextFault::Run(fault) => Fault::Run(fault),
        }
    }
}

impl<'a> From<WordsFault> for Fault<'a> {
    fn from(fault: WordsFault) -> Fault<'a> {
        match fault {
            WordsFault::NotText => Fault::BadWord,
            WordsFault::OutOfMemory => Fault::Run(RunFault::OutOfMemory),
        }
    }
}

impl<'a> From<ServeFault<'a>> for Fault<'a> {
    fn from(fault: ServeFault<'a>) -> Fault<'a> {
        Fault::Serve(fault)
    }
}

impl<'a> Fault<'a> {
    /// Returns the fault of the program for the fault of a client of this port.
    pub fn of_client(port: u16, fault: ClientFault) -> Fault<'a> {
        match fault {
            ClientFault::CannotConnect(cause) => Fault::CannotConnect(port, cause),
            ClientFault::PortEnded => Fault::PortEnded(port),
            ClientFault::LongAnswer => Fault::LongAnswer(port),
            ClientFault::CannotRead(cause) => Fault::CannotRead("-", cause),
            ClientFault::WriteFault => Fault::Run(RunFault::WriteFault),
            ClientFault::OutOfMemory => Fault::Run(RunFault::OutOfMemory),
        }
    }
}

/// Returns the exit status: 2 for words, files, input, ports and addresses that cannot be used, 3 for out of memory, 4 for a
/// fault of standard output, 5 if an audit text cannot be written to its file.
pub fn status(fault: Fault<'_>) -> u8
    ensures { result ≡ status_of fault.entry }
{
    match fault {
        Fault::Run(RunFault::OutOfMemory | RunFault::Rack(RackFault::OutOfMemory)) => 3,
        Fault::Run(RunFault::WriteFault) => 4,
        Fault::BadWord | Fault::CannotRead(_, _) | Fault::CannotMake(_, _) => 2,
        Fault::CannotReadPart(_, _, _) | Fault::OtherText(_, _) => 2,
        Fault::CannotConnect(_, _) | Fault::PortEnded(_) | Fault::LongAnswer(_) => 2,
        Fault::NoSlave(_) | Fault::NoMaster(_) | Fault::NoLine(_) => 2,
        Fault::BadName | Fault::BadGsd(_) | Fault::OutputIsTerminal | Fault::FewThreads => 2,
        Fault::Run(RunFault::Rack(_) | RunFault::Script(_)) => 2,
        Fault::Run(RunFault::CannotRead | RunFault::NotText) => 2,
        Fault::Serve(fault) => status_of_serving(fault),
    }
}

/// Returns the exit status of a rack that is not served, or no longer served.
fn status_of_serving(fault: ServeFault<'_>) -> u8
    ensures { result ≡ serve_status fault.entry }
{
    match fault {
        ServeFault::OutOfMemory | ServeFault::Rack(RackFault::OutOfMemory) => 3,
        ServeFault::WriteFault => 4,
        ServeFault::Rack(_) => 2,
        ServeFault::CannotListen(_, _) | ServeFault::CannotMake(_, _) => 2,
        ServeFault::CannotMakePorts(_) => 2,
        ServeFault::CannotWrite(_, _) => 5,
    }
}

/// Returns why the program cannot open, read or write a file, or use a port, if that is the fault.
pub fn cause(fault: Fault<'_>) -> Option<Cause>
    ensures { result ≡ cause_of fault.entry }
{
    match fault {
        Fault::CannotRead(_, cause) | Fault::CannotMake(_, cause) => Some(cause),
        Fault::CannotReadPart(_, _, cause) | Fault::CannotConnect(_, cause) => Some(cause),
        Fault::BadWord | Fault::PortEnded(_) | Fault::LongAnswer(_) | Fault::Run(_) => None,
        Fault::OtherText(_, _) => None,
        Fault::NoSlave(_) | Fault::NoMaster(_) | Fault::NoLine(_) => None,
        Fault::BadName | Fault::BadGsd(_) | Fault::OutputIsTerminal | Fault::FewThreads => None,
        Fault::Serve(fault) => cause_of_serving(fault),
    }
}

/// Returns why a port or an audit file cannot be used, if that is the fault.
fn cause_of_serving(fault: ServeFault<'_>) -> Option<Cause>
    ensures { result ≡ serve_cause fault.entry }
{
    match fault {
        ServeFault::CannotListen(_, cause) | ServeFault::CannotMakePorts(cause) => Some(cause),
        ServeFault::CannotMake(_, cause) | ServeFault::CannotWrite(_, cause) => Some(cause),
        ServeFault::OutOfMemory | ServeFault::Rack(_) | ServeFault::WriteFault => None,
    }
}

impl<'a> fmt::Display for Fault<'a> {
    ghost output = { λ fault. Some (fault_text fault) };

    fn fmt<W: fmt::Write>(&self, f: &mut fmt::Formatter<W>) -> fmt::Result {
        match self {
            Fault::BadWord => f.write_str("rackd: a word is not UTF-8"),
            Fault::CannotRead(path, _) => write!(f, "rackd: cannot read {path}"),
            Fault::CannotReadPart(folder, part, _) => {
                write!(f, "rackd: cannot read {folder}{part}")
            }
            Fault::OtherText(path, _) => write!(f, "rackd: cannot read {path}"),
            Fault::CannotMake(path, _) => write!(f, "rackd: cannot make {path}"),
            Fault::CannotConnect(port, _) => write!(f, "rackd: cannot connect to {port}"),
            Fault::PortEnded(port) => write!(f, "rackd: port {port} has ended"),
            Fault::LongAnswer(port) => {
                write!(
                    f,
                    "rackd: an answer of port {port} has more than 65536 octets"
                )
            }
            Fault::NoSlave(address) => write!(f, "rackd: the line has no slave {address}"),
            Fault::NoMaster(address) => write!(f, "rackd: the line has no master {address}"),
            Fault::NoLine(number) => write!(f, "rackd: the rack has no line {number}"),
            Fault::BadName => f.write_str("rackd: a name for the GSD file is not accepted"),
            Fault::BadGsd(path) => write!(f, "rackd: cannot use {path}"),
            Fault::FewThreads => f.write_str("rackd: too few threads for the page"),
            Fault::OutputIsTerminal => f.write_str("rackd: standard output is a terminal"),
            Fault::Run(fault) => write!(f, "rackd: {fault}"),
            Fault::Serve(fault) => write!(f, "rackd: {fault}"),
        }
    }
}
