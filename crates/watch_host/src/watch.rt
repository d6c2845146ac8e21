//! Following a rack, and serving its page.

use crate::connections::serve_connections;
use crate::door::Door;
use crate::following::follow_lines;
use crate::host::{PageHost, WatchHost};
use crate::line_text::Followed;
use crate::processor_share::ProcessorShare;
use crate::shared_rack::SharedRack;
use crate::watch_fault::WatchFault;
use rack_file::{Rack, read_rack};
use std::alloc::Global;
use std::net::{Ipv4Addr, Net, TcpListener, TcpStream};
use std::sync::Mutex;
use std::thread::{self, Scope, Threads};
use std::time::SystemTime;
use system_errors::Cause;
use watch_lines::{WatchedLine, WatchedRack};
use watch_page::PageService;

/// The number of threads that serve connections.
pub(crate) const WORKERS: usize = 16;

/// Where the rack and its audit texts are.
#[derive(Clone, Copy)]
pub(crate) struct Folder<'a> {
    /// The text of the rack file.
    pub(crate) rack: &'a str,
    /// The path of the rack file.
    pub(crate) file: &'a str,
    /// The path of the folder with the audit texts.
    pub(crate) folder: &'a str,
}

/// Listens at a port of the loopback address; for 0 the system chooses one.
///
/// Returns `CannotListen` if that fails.
pub(crate) fn listen<N: Net>(net: &N, port: u16) -> Result<N::Listener, WatchFault> {
    match TcpListener::bind(net, (Ipv4Addr::LOCALHOST, port)) {
        Ok(listener) => Ok(listener),
        Err(error) => Err(WatchFault::CannotListen(port, Cause::from_error(&error))),
    }
}

/// Follows the audit texts of a rack with this share of a processor, and serves its page at this listener, which has this
/// port. It ends only with a fault.
///
/// Calls `started` once all threads of the page have started, and before anything is read or served. If that returns a
/// fault, nothing is, and the fault is returned.
///
/// Returns `Rack` if the rack is not accepted, `FewThreads` if a thread is refused, and `OutOfMemory` if memory is.
pub(crate) fn watch_at<'a, H: WatchHost + Sync, F: FnOnce() -> Result<(), WatchFault>>(
    host: &'a H,
    listener: &'a TcpListener,
    port: u16,
    folder: Folder<'a>,
    share: ProcessorShare,
    started: F,
) -> Result<(), WatchFault>
    requires { F.pre started }
{
    let alloc = host.alloc();
    let rack = match read_rack(alloc, folder.rack) {
        Ok(rack) => rack,
        Err(fault) => return Err(WatchFault::Rack(fault)),
    };
    let watched = Mutex::new(open_lines(alloc, &rack)?);
    let followed = Followed {
        host,
        alloc,
        folder: folder.folder,
        rack: &watched,
    };
    let shared = SharedRack {
        host,
        rack: &watched,
        file: folder.file,
        folder: folder.folder,
        run: number_of_run(host),
    };
    serve_and_follow(listener, port, &shared, &followed, &rack, share, started)
}

/// Serves the page and follows the audit texts, as [`watch_at`] does.
fn serve_and_follow<'a, 'w, H: WatchHost + Sync, F: FnOnce() -> Result<(), WatchFault>>(
    listener: &'a TcpListener,
    port: u16,
    shared: &SharedRack<'a, 'w, H>,
    followed: &Followed<'a, 'w, H>,
    rack: &Rack,
    share: ProcessorShare,
    started: F,
) -> Result<(), WatchFault>
    requires { F.pre started }
{
    let (host, alloc) = (followed.host, followed.alloc);
    let numbered = format!(in alloc; "127.0.0.1:{port}")?;
    let named = format!(in alloc; "localhost:{port}")?;
    let hosts = (numbered.as_str(), named.as_str());
    let page_door = Door::new();
    let door = &page_door;
    thread::scope(
        thread::scope_env(),
        host,
        |scope| -> Result<(), WatchFault>
            requires { F.pre started }
        {
            let shut = door.lock.lock(host);
            let begun = match start_workers(scope, host, alloc, listener, shared, hosts, door) {
                Ok(()) => started(),
                Err(fault) => Err(fault),
            };
            if begun.is_err() {
                door.end();
            }
            drop(shut);
            match begun {
                Ok(()) => {}
                Err(fault) => return Err(fault),
            }
            let ended = follow_lines(followed, rack, share);
            end_workers(host, port, door);
            ended
        },
    )
}

/// Starts the threads that serve connections, once the door is open. `hosts` are the two texts that a Host may have.
fn start_workers<'s, 'w, E, H: PageHost + Threads + Sync>(
    scope: &Scope<'s, E>,
    host: &'s H,
    alloc: Global,
    listener: &'s TcpListener,
    source: &'s SharedRack<'s, 'w, H>,
    hosts: (&'s str, &'s str),
    door: &'s Door,
) -> Result<(), WatchFault> {
    let (numbered, named) = hosts;
    for _ in 0..WORKERS {
        let serving = move || {
            let service = PageService {
                alloc,
                source,
                numbered,
                named,
            };
            serve_connections(host, listener, service, door)
        };
        if scope.spawn(serving).is_err() {
            return Err(WatchFault::FewThreads);
        }
    }
    Ok(())
}

/// Has the threads that serve connections end: each that waits for a connection gets one.
fn end_workers<N: Net>(net: &N, port: u16, door: &Door) {
    door.end();
    for _ in 0..WORKERS {
        // A connection that fails is one that nobody waits for.
        let _ = TcpStream::connect(net, (Ipv4Addr::LOCALHOST, port));
    }
}

/// Opens all lines of a rack.
fn open_lines(alloc: Global, rack: &Rack) -> Result<WatchedRack<'_>, WatchFault> {
    let mut lines = Vec::new(alloc);
    for line in rack.lines.as_slice() {
        // No line of an accepted rack has a fault.
        if line.spec.fault().is_some() {
            return Err(WatchFault::OutOfMemory);
        }
        lines.push(WatchedLine::open(alloc, &line.spec)?)?;
    }
    Ok(WatchedRack { lines, number: 0 })
}

/// Returns the number of a run: the nanoseconds since 1970, or 1 if the clock fails.
fn number_of_run(host: &impl WatchHost) -> u64 {
    let Ok(now) = SystemTime::now(host) else {
        return 1;
    };
    match now.duration_since(SystemTime::UNIX_EPOCH) {
        Ok(since) => {
            let seconds = since.as_secs().wrapping_mul(1_000_000_000);
            seconds.wrapping_add(u64::from(since.subsec_nanos()))
        }
        Err(_) => 1,
    }
}
